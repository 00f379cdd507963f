// The questions put to a call, each as a test, and for each entry the first that gets a no. Question 9 is put at each merge.
ghost use Rattle.std.specs.Prelude.{◌≡◌, ℕ, ◌*◌, ◌≤◌, ◌&&◌, leb, length, ◌==◌, nat_le};
ghost use Rattle.memory.specs.Size.{gates_of_largest};
ghost use Rattle.arithmetic.specs.Intervals.{nyquist_in_range, velocity_in_range};
ghost use Rattle.network.specs.Network.{bounded};
ghost use Rattle.sweep.specs.Questions.{first_no, seven, room, at_most, words_for, floats_for, size_in_range, lengths_fit, mask_is_bits, velocities_in_range};
ghost use Rattle.sweep.specs.Entry.{sweep_in};
ghost use Rattle.sweep.specs.Refusal.{missed_by};
ghost use Rattle.sweep.specs.Velocity.{counted_in, shows_wind, after_lengths, counted, asked_velocity};
ghost use Rattle.sweep.specs.Inside.Gates.{gate_asked, gates_asked};

use crate::input::Counted;
use crate::refusal::Refusal;
use memory::layout;
use network::input::Sweep;

// The ranges that the questions ask for.
const MOST_RAYS: u32 = 720;

const MOST_GATES: u32 = 1200;

const LEAST_NYQUIST: f32 = 0.125;

const MOST_NYQUIST: f32 = 1024.0;

const MOST_SPLITS: u32 = 9999;

const MOST_SKIP: u32 = 1000;

const FASTEST: f32 = 16384.0;

const MOST_LIMITS: i64 = 10000;

const LEAST_COUNT: i32 = -2000;

const MOST_COUNT: i32 = 2000;

// Question 1.
pub fn size_in_range(rays: u32, gates: u32) -> bool
    ensures { result ≡ size_in_range rays gates }
{
    rays <= MOST_RAYS && gates <= MOST_GATES
}

// The gates that a sweep should have: a product of two u32 fits.
pub fn gates_in(rays: u32, gates: u32) -> usize
    ensures { result ≡ rays * gates }
{
    (rays as usize) * (gates as usize)
}

// Two lengths, each as it is to be: what question 2 asks of an entry's own slices.
pub fn two_long(one: usize, n: usize, two: usize, m: usize) -> bool
    ensures { result ≡ (one == n && two == m) }
{
    one == n && two == m
}

// Three lengths, each n.
fn three_long(one: usize, two: usize, three: usize, n: usize) -> bool
    ensures { result ≡ (one == n && two == n && three == n) }
{
    one == n && (two == n && three == n)
}

// Question 2, n being the gates that the sweep should have, and `own` the entry's own part.
pub fn lengths_fit(n: usize, velocity: &[f32], valid: &[u8], own: bool) -> bool
    ensures { result ≡ lengths_fit n velocity.now valid.now own }
{
    velocity.len() == n && (valid.len() == n && own)
}

// Question 3.
pub fn mask_is_bits(valid: &[u8]) -> bool
    ensures { result ≡ mask_is_bits valid.now }
{
    valid.iter().all(|&m| m <= 1)
}

// Question 4.
fn work_suffices(n: usize, words: usize, floats: usize) -> bool
    requires { n ≤ gates_of_largest }
    ensures { result ≡ (nat_le (words_for n) words && nat_le (floats_for n) floats) }
{
    layout::WORDS * n + layout::WORDS_MORE <= words
        && layout::FLOATS * n + layout::FLOATS_MORE <= floats
}

// Question 5.
fn nyquist_in_range(nyquist: f32) -> bool
    ensures { result ≡ nyquist_in_range nyquist }
{
    LEAST_NYQUIST <= nyquist && nyquist <= MOST_NYQUIST
}

// Question 6.
pub fn options_in_range(
    splits: u32,
    skip_rays: u32,
    skip_gates: u32,
    centred: u32,
    wrap: u32,
) -> bool
    ensures { result ≡ (nat_le 1 splits && nat_le splits 9999 && leb skip_rays 1000 && leb skip_gates 1000 && nat_le centred 1 && nat_le wrap 1) }
{
    1 <= splits
        && (splits <= MOST_SPLITS
            && (skip_rays <= MOST_SKIP && (skip_gates <= MOST_SKIP && (centred <= 1 && wrap <= 1))))
}

// Whether a velocity is a number from -16,384 to 16,384.
fn velocity_in_range(v: f32) -> bool
    ensures { result ≡ velocity_in_range v }
{
    -FASTEST <= v && v <= FASTEST
}

// Question 7. What stands at a masked gate does not matter.
fn velocities_in_range(velocity: &[f32], valid: &[u8]) -> bool
    requires { length valid.now ≡ length velocity.now }
    ensures { result ≡ velocities_in_range velocity.now valid.now }
{
    velocity
        .iter()
        .zip(valid)
        .all(|(&v, &m)| m != 1 || velocity_in_range(v))
}

// Question 8, of a plan of limits.
pub fn limits_few(p: arithmetic::intervals::Plan) -> bool
    ensures { result ≡ at_most 10000 p.number }
{
    p.number <= MOST_LIMITS
}

// Whether a count is -2,000 to 2,000.
fn count_in_range(count: i32) -> bool
    ensures { result ≡ bounded 2000 count }
{
    LEAST_COUNT <= count && count <= MOST_COUNT
}

// Whether a gate shows a wind: it is valid and lies in a region.
pub fn shows_wind(valid: u8, label: u32) -> bool
    ensures { result ≡ shows_wind valid label }
{
    valid == 1 && label != 0
}

// Questions 7 and 10 of one gate. What count stands at a gate that shows no wind does not matter.
#[tactic(auto, unfolding(crate::specs::Inside::Gates::gate_asked, crate::specs::Inside::Gates::velocity_passes, crate::specs::Velocity::count_passes, crate::specs::Questions::first_no))]
fn gate_missed(v: f32, valid: u8, count: i32, label: u32) -> Result<(), Refusal>
    ensures { missed_by result ≡ gate_asked v valid count label }
{
    let shown = shows_wind(valid, label);
    if valid == 1 && !velocity_in_range(v) {
        return Err(Refusal::Velocities);
    }
    if shown && !count_in_range(count) {
        return Err(Refusal::Counts);
    }
    Ok(())
}

// Questions 7 and 10 of every gate, in one pass: 7 of each comes before 10 of any.
fn gates_missed(
    velocity: &[f32],
    valid: &[u8],
    folds: &[i32],
    labels: &[u32],
) -> Result<(), Refusal>
    requires { (length valid.now ≡ length velocity.now) × (length folds.now ≡ length velocity.now) × (length labels.now ≡ length velocity.now) }
    ensures { missed_by result ≡ gates_asked velocity.now valid.now folds.now labels.now }
{
    let mut missed = Ok(());
    for i in 0..velocity.len() {
        match gate_missed(velocity[i], valid[i], folds[i], labels[i]) {
            Ok(()) => {}
            Err(Refusal::Velocities) => return Err(Refusal::Velocities),
            Err(refusal) => missed = Err(refusal),
        }
    }
    missed
}

// What an entry lends beside the sweep: whether its own slices are as long as they are to be, and the two work memories' lengths.
#[derive(Clone, Copy)]
pub struct Room {
    pub own: bool,
    pub words: usize,
    pub floats: usize,
}

// The sweep entry's own slices are the counts, the marks and the pair, n being the gates that the sweep should have.
pub fn room_of(
    n: usize,
    counts: usize,
    doubtful: usize,
    pair: usize,
    words: usize,
    floats: usize,
) -> Room
    ensures { result ≡ room n (record { counts = counts; doubtful = doubtful; pair = pair; words = words; floats = floats }) }
{
    Room {
        own: two_long(counts, n, doubtful, n) && pair == 2,
        words,
        floats,
    }
}

// Questions 1 to 7 of an entry that works on a sweep: the first that gets a no refuses it.
pub fn first_missed(s: Sweep, lent: Room) -> Result<(), Refusal>
    ensures { missed_by result ≡ first_no (seven (sweep_in s.entry) lent) }
{
    let o = s.options;
    if !size_in_range(o.rays, o.gates) {
        return Err(Refusal::Size);
    }
    let n = gates_in(o.rays, o.gates);
    if !lengths_fit(n, s.velocity, s.valid, lent.own) {
        return Err(Refusal::Lengths);
    }
    if !mask_is_bits(s.valid) {
        return Err(Refusal::Mask);
    }
    if !work_suffices(n, lent.words, lent.floats) {
        return Err(Refusal::Work);
    }
    if !nyquist_in_range(o.nyquist) {
        return Err(Refusal::Nyquist);
    }
    if !options_in_range(
        o.splits,
        o.skip_between_rays,
        o.skip_along_ray,
        o.centred,
        o.wrap,
    ) {
        return Err(Refusal::Options);
    }
    if !velocities_in_range(s.velocity, s.valid) {
        return Err(Refusal::Velocities);
    }
    Ok(())
}

// Questions 3, 5, 7 and 10 of the second entry's input, whose lengths fit.
pub fn missed_after_lengths(u: Counted) -> Result<(), Refusal>
    requires { let n = length u.velocity.now in
        (length u.valid.now ≡ n) × (length u.folds.now ≡ n) × (length u.labels.now ≡ n) }
    ensures { let v = counted_in u.entry in (rays gates : ℕ) → length v.vel ≡ rays * gates
        → missed_by result ≡ first_no (after_lengths (counted rays gates v.nyquist v.vel v.mask v.counts v.labels)) }
{
    if !mask_is_bits(u.valid) {
        return Err(Refusal::Mask);
    }
    if !nyquist_in_range(u.nyquist) {
        return Err(Refusal::Nyquist);
    }
    gates_missed(u.velocity, u.valid, u.folds, u.labels)
}

// The second entry's questions, 1, 2, 3, 5, 7 and 10. `unfolded` is a length.
pub fn first_missed_velocity(u: Counted, unfolded: usize) -> Result<(), Refusal>
    ensures { missed_by result ≡ asked_velocity (counted_in u.entry) unfolded }
{
    if !size_in_range(u.rays, u.gates) {
        return Err(Refusal::Size);
    }
    let n = gates_in(u.rays, u.gates);
    let own = three_long(u.folds.len(), u.labels.len(), unfolded, n);
    if !lengths_fit(n, u.velocity, u.valid, own) {
        return Err(Refusal::Lengths);
    }
    missed_after_lengths(u)
}
