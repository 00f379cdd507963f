// The call that adds a sweep to the window: its questions, then its winds at the next place, the picture drawn anew, and the place moved on.
// The window lies in the five slices that C lends.
ghost use Rattle.std.specs.Prelude.{◌≡◌, ◌≤◌, ◌<◌};
ghost use Rattle.std.proofs.Math.Option.{none};
ghost use Rattle.sweep.specs.Entry.{answer_of};
ghost use Rattle.sweep.specs.Refusal.{missed_by};
ghost use Rattle.sweep.specs.Velocity.{counted_in};
ghost use Rattle.window.specs.Window.{window_of, window_answer_by, asked_window, added, call_window};
ghost use Rattle.window.specs.Window as W;

use crate::median::PLACES;
use crate::picture;
use crate::questions::{self, Lent};
use sweep::input::Counted;
use sweep::refusal::Refusal;

// How many sweeps are held after an arrival.
#[tactic(auto, unfolding(crate::specs::Window::more))]
fn more(held: usize) -> usize
    requires { held ≤ 8 }
    ensures { result ≡ W.more held }
{
    (held + 1).min(PLACES)
}

// The place of the oldest.
#[tactic(auto, unfolding(crate::specs::Window::oldest))]
fn oldest(next: usize, held: usize) -> usize
    requires { (next < 8) × (held ≤ 8) }
    ensures { result ≡ W.oldest next held }
{
    (next + PLACES - held) % PLACES
}

// An arrival that every question let pass. The sweep at the next place, the oldest of eight, is overwritten; no other is moved.
fn take_in(
    u: Counted,
    window: &mut [u32],
    winds: &mut [f64],
    shown: &mut [u8],
    picture: &mut [f64],
    marks: &mut [u8],
)
    requires { asked_window (counted_in u) (window_of window.old winds.old shown.old picture.old marks.old) ≡ none }
    ensures { let w = window_of window.old winds.old shown.old picture.old marks.old in
        window_of window.new winds.new shown.new picture.new marks.new ≡ added (counted_in u.entry) w }
{
    let n = u.velocity.len();
    let p = window[3] as usize;
    let held = more(window[2] as usize);
    let next = crate::median::after(p);
    let first = oldest(next, held);
    let base = p * n;
    picture::write_winds(base, u, winds);
    picture::write_shown(base, u.valid, u.labels, shown);
    picture::draw(winds, shown, n, first, held, picture, marks);
    window[2] = held as u32;
    window[3] = next as u32;
}

// The call: the first question that gets a no refuses the arrival, nothing lent being changed; else it is taken in.
pub fn window_add(
    u: Counted,
    window: &mut [u32],
    winds: &mut [f64],
    shown: &mut [u8],
    picture: &mut [f64],
    marks: &mut [u8],
) -> Result<(), Refusal>
    ensures { let w = window_of window.old winds.old shown.old picture.old marks.old in
        window_answer_by (answer_of (missed_by result)) window.new winds.new shown.new picture.new marks.new ≡ call_window (counted_in u.entry) w }
{
    let lent = Lent {
        words: window.len(),
        winds: winds.len(),
        shown: shown.len(),
        picture: picture.len(),
        marks: marks.len(),
    };
    questions::first_missed(u, questions::words_in(window), lent)?;
    take_in(u, window, winds, shown, picture, marks);
    Ok(())
}
