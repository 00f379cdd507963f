// The questions put to an arrival and its window, and the first that gets a no.
ghost use Rattle.std.specs.Prelude.{◌≡◌, ◌&&◌, ◌*◌, ◌≤◌, eqb, leb, ltb, get_or};
ghost use Rattle.memory.specs.Size.{gates_of_largest};
ghost use Rattle.sweep.specs.Questions.{first_no};
ghost use Rattle.sweep.specs.Refusal.{missed_by};
ghost use Rattle.sweep.specs.Velocity.{counted_in};
ghost use Rattle.window.specs.Window.{words_in, size_and_lengths, asked_by};

use crate::median::PLACES;
use sweep::input::Counted;
use sweep::questions;
use sweep::refusal::Refusal;

// As many sweeps as it has places.
const MOST_HELD: u32 = 8;

// The window's four words.
#[derive(Clone, Copy)]
pub struct Words {
    pub rays: u32,
    pub gates: u32,
    pub held: u32,
    pub next: u32,
}

// How long the window's slices are.
#[derive(Clone, Copy)]
pub struct Lent {
    pub words: usize,
    pub winds: usize,
    pub shown: usize,
    pub picture: usize,
    pub marks: usize,
}

// Word i of the window; 0 where it is missing.
fn word(window: &[u32], i: usize) -> u32
    ensures { result ≡ get_or window.now i 0 }
{
    window.get(i).copied().unwrap_or(0)
}

// All four.
pub fn words_in(window: &[u32]) -> Words
    ensures { result ≡ words_in window.now }
{
    Words {
        rays: word(window, 0),
        gates: word(window, 1),
        held: word(window, 2),
        next: word(window, 3),
    }
}

// Question 2, of the window, n being its gates.
fn window_fits(n: usize, w: Words, l: Lent) -> bool
    requires { n ≤ gates_of_largest }
    ensures { result ≡ (eqb l.words 4 && eqb l.winds (8 * n) && eqb l.shown (8 * n) && eqb l.picture n && eqb l.marks n && leb w.held 8 && ltb w.next 8) }
{
    l.words == 4
        && l.winds == PLACES * n
        && l.shown == PLACES * n
        && l.picture == n
        && l.marks == n
        && w.held <= MOST_HELD
        && w.next < MOST_HELD
}

// Question 14: rays and gates both.
fn same_size(rays: u32, gates: u32, window_rays: u32, window_gates: u32) -> bool
    ensures { result ≡ (eqb rays window_rays && eqb gates window_gates) }
{
    (rays, gates) == (window_rays, window_gates)
}

// Questions 1 and 2.
fn missed_first(u: Counted, w: Words, l: Lent) -> Result<(), Refusal>
    ensures { missed_by result ≡ first_no (size_and_lengths (counted_in u.entry) w l) }
{
    if !questions::size_in_range(u.rays, u.gates) {
        return Err(Refusal::Size);
    }
    if !questions::size_in_range(w.rays, w.gates) {
        return Err(Refusal::Size);
    }
    let n = questions::gates_in(u.rays, u.gates);
    let own = questions::two_long(u.folds.len(), n, u.labels.len(), n);
    if !questions::lengths_fit(n, u.velocity, u.valid, own) {
        return Err(Refusal::Lengths);
    }
    let m = questions::gates_in(w.rays, w.gates);
    if !window_fits(m, w, l) {
        return Err(Refusal::Lengths);
    }
    Ok(())
}

// All questions, 1, 2, 3, 5, 7, 10 and 14: the first that gets a no refuses the arrival.
pub fn first_missed(u: Counted, w: Words, l: Lent) -> Result<(), Refusal>
    ensures { missed_by result ≡ asked_by (counted_in u.entry) w l }
{
    missed_first(u, w, l)?;
    questions::missed_after_lengths(u)?;
    if !same_size(u.rays, u.gates, w.rays, w.gates) {
        return Err(Refusal::Window);
    }
    Ok(())
}
