// regions.rs: the regions of a sweep. The gates of each interval between neighbouring limits are labelled by area, numbers going on from one
// interval to the next. All intervals are done at once: a gate's interval is that of the gate before or found by halving, and gates are joined only
// within one interval. No mask of an interval is kept: a velocity is compared with the two limits when its gate is placed, and the gate's label
// word holds its band until it is numbered. So a band is a word, 0 for none, and no Option.
// Where the intervals outnumber the words lent for counters, they are done in blocks of 64, each put over those before.
ghost use Rattle.std.specs.Prelude.{◌≡◌, ℕ, ◌+◌, ◌-◌, ◌*◌, ◌^◌, ◌<◌, ◌≤◌, ◌++◌, length, replicate, ◌≢◌, slice_index};
ghost use Rattle.arithmetic.specs.Inside.Asked.{Rising};
ghost use Rattle.labels.specs.Label.{Found};
ghost use Rattle.labels.specs.Regions.{within, regions, added};
ghost use Rattle.labels.specs.Inside.Bands.{Band, Bands};
ghost use Rattle.labels.specs.Inside.Areas.{AreasOf, PutsOver};
ghost use Rattle.labels.specs.Inside.Sheet.{bands_of, words_of, counts_of, IsSound, FindsRegions};

use crate::label;
use crate::label::NextGate;

// The gates of a sweep, `per_ray` of them to a ray, with a velocity and a mask byte each, and the limits of the intervals.
#[derive(Clone, Copy)]
struct Gates<'a> {
    per_ray: u32,
    velocity: &'a [f32],
    valid: &'a [u8],
    limits: &'a [f64],
    ghost sound: { IsSound (length velocity.now) per_ray velocity.now valid.now limits.now },
}

// Whether a valid velocity lies in an interval: at or above its lower limit, below its upper one. The mask's test returns by itself: in one `&&` with
// the others it has no branch to predict, and region finding takes a quarter longer.
#[tactic(auto, unfolding(crate::specs::Regions::within))]
fn holds(lower: f64, upper: f64, x: f32, m: u8) -> bool
    ensures { result ≡ within (record { lower = lower; upper = upper }) x m }
{
    if m != 1 {
        return false;
    }
    let v = std::num::f32_to_f64_with_nan(x);
    lower <= v && v < upper
}

// The band of a gate, by halving: 1 + the number of the interval that holds it, or 0. A number and no Option: it is the word that a gate's band is kept in.
fn band(limits: &[f64], x: f32, m: u8) -> u32
    requires rising { Rising limits.now }
    requires few_limits { length limits.now < 2 ^ 32 }
    ensures { Band limits.now x m result }
{
    if m != 1 {
        return 0;
    }
    let v = std::num::f32_to_f64_with_nan(x);
    let upper = limits.partition_point(|limit| *limit <= v);
    if upper == limits.len() {
        return 0;
    }
    upper as u32
}

// The band of a gate, where `last` is one found before: its interval is tried first.
fn near(limits: &[f64], x: f32, m: u8, last: u32) -> u32
    requires rising { Rising limits.now }
    requires few_limits { length limits.now < 2 ^ 32 }
    requires last_bound { 0 < last → last < length limits.now }
    ensures { Band limits.now x m result }
{
    if last == 0 {
        return band(limits, x, m);
    }
    let lower = limits[(last - 1) as usize];
    let upper = limits[last as usize];
    if holds(lower, upper, x, m) {
        return last;
    }
    band(limits, x, m)
}

// Bands, gates joined within them, and how many areas each band has, in one pass over the gates. Counters are 0 before.
fn join_all(s: Gates, u: &mut [u32])
    requires words { length u.old ≡ length s.velocity.now + length s.velocity.now + (length s.limits.now - 1) }
    requires zeros { counts_of u.old (length s.velocity.now) ≡ replicate (length s.limits.now - 1) 0 }
    ensures bands { Bands s.entry.limits.now s.entry.velocity.now s.entry.valid.now (bands_of u.new (length s.entry.velocity.now)) }
    ensures areas_of { let n = length s.entry.velocity.now in AreasOf s.entry.per_ray (bands_of u.new n) (words_of u.new n) (counts_of u.new n) }
{
    let n = s.velocity.len();
    let gates = s.per_ray as usize;
    let mut last: u32 = 0;
    let mut before: u32 = 0;
    let mut word: u32 = 0;
    let mut along = 0;
    for g in 0..n {
        let b = near(s.limits, s.velocity[g], s.valid[g], last);
        word = label::place(u, NextGate { n, gates, g, b }, before, word);
        u[g] = b;
        u[n + g] = word;
        if b != 0 {
            last = b;
        }
        along = if along + 1 == gates { 0 } else { along + 1 };
        before = if along == 0 { 0 } else { b };
    }
}

// The regions of all intervals at once: labels in the first words.
fn at_once(s: Gates, u: &mut [u32]) -> u32
    requires { length u.old ≡ length s.velocity.now + length s.velocity.now + (length s.limits.now - 1) }
    ensures { let labels = bands_of u.new (length s.entry.velocity.now) in
        record { labels = labels; number = result } ≡ regions s.entry.per_ray s.entry.velocity.now s.entry.valid.now s.entry.limits.now }
{
    let n = s.velocity.len();
    let a = n + n;
    let k = u.len() - a;
    memory::words::fill(u, a, k, 0);
    join_all(s, u);
    let r = memory::words::starts(u, a, k);
    label::number(u, n);
    r
}

// The labels of the second n words put over those of the first n: a label of this block of intervals goes over the old one, counted on from `from`.
fn put_over(u: &mut [u32], n: usize, from: u32)
    requires in_bounds { n + n ≤ length u.old }
    requires label_bound { (i : ℕ) → i < n → slice_index u.old (n + i) + from < 2 ^ 32 }
    ensures { PutsOver u.old u.new n from }
{
    for g in 0..n {
        let new = u[n + g];
        u[g] = if new == 0 { u[g] } else { new + from };
    }
}

// The regions of one block of intervals over what was found before. Gives the last number.
fn block(s: Gates, u: &mut [u32], from: u32) -> u32
    requires some_limits { 0 < length s.limits.now }
    requires words { 3 * length s.velocity.now + (length s.limits.now - 1) ≤ length u.old }
    requires number_bound { from + (regions s.per_ray s.velocity.now s.valid.now s.limits.now).number < 2 ^ 32 }
    ensures { (
        let n = length s.entry.velocity.now in
        let before : Found = record { labels = bands_of u.old n; number = from } in
        record { labels = bands_of u.new n; number = result } ≡ added before (regions s.entry.per_ray s.entry.velocity.now s.entry.valid.now s.entry.limits.now)
        ) }
{
    let n = s.velocity.len();
    let e = n + n + n + (s.limits.len() - 1);
    let r = at_once(s, &mut u[n..e]);
    put_over(u, n, from);
    from + r
}

// Block after block of 64 intervals, where there are more intervals than counters.
fn blocks(s: Gates, u: &mut [u32]) -> u32
    requires { length u.old ≡ 3 * length s.velocity.now + 64 }
    ensures { let labels = bands_of u.new (length s.entry.velocity.now) in
        record { labels = labels; number = result } ≡ regions s.entry.per_ray s.entry.velocity.now s.entry.valid.now s.entry.limits.now }
{
    memory::words::fill(u, 0, s.velocity.len(), 0);
    let intervals = s.limits.len().saturating_sub(1);
    let mut k: u32 = 0;
    for i in (0..intervals).step_by(64) {
        let e = intervals.min(i + 64) + 1;
        k = block(
            Gates {
                per_ray: s.per_ray,
                velocity: s.velocity,
                valid: s.valid,
                limits: &s.limits[i..e],
            },
            u,
            k,
        );
    }
    k
}

// The regions of a sweep: a label for each gate in the first n words, and how many regions there are. The other 2n + 64 words hold anything
// at the end. All intervals at once where each has a counter, else block after block.
pub fn label_gates(gates: u32, velocity: &[f32], valid: &[u8], limits: &[f64], u: &mut [u32]) -> u32
    requires { FindsRegions gates velocity.now valid.now limits.now u.old }
    ensures { let labels = bands_of u.new (length velocity.now) in
        record { labels = labels; number = result } ≡ regions gates velocity.now valid.now limits.now }
{
    let s = Gates {
        per_ray: gates,
        velocity,
        valid,
        limits,
    };
    let n = velocity.len();
    let intervals = limits.len().saturating_sub(1);
    if n + 64 < intervals {
        return blocks(s, u);
    }
    let e = n + n + intervals;
    at_once(s, &mut u[..e])
}

// The same, for callers that need zeros: all words lent but the labels are 0 at the end.
pub fn find_regions(
    gates: u32,
    velocity: &[f32],
    valid: &[u8],
    limits: &[f64],
    u: &mut [u32],
) -> u32
    requires { FindsRegions gates velocity.now valid.now limits.now u.old }
    ensures value { result ≡ (regions gates velocity.now valid.now limits.now).number }
    ensures u_after { u.new ≡ (regions gates velocity.now valid.now limits.now).labels ++ replicate (2 * length velocity.now + 64) 0 }
{
    let n = velocity.len();
    let r = label_gates(gates, velocity, valid, limits, u);
    memory::words::fill(u, n, 2 * n + 64, 0);
    r
}
