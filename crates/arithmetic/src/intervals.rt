// intervals.rs: the interval limits of a sweep, in f64, one rounding an operation.
ghost use Rattle.std.specs.Prelude.{◌≡◌, ◌+◌, ◌<◌, ◌≤◌, not, T, length, pos, ◌+ℤ◌, is_nan};
ghost use Rattle.std.specs.Float.Ieee as Ieee;
ghost use Rattle.std.specs.Float.{binary64};
ghost use Rattle.std.specs.Float.Ieee.{div};
ghost use Rattle.arithmetic.specs.Rounding.{within, ceiling_whole};
ghost use Rattle.arithmetic.specs.Intervals as I;
ghost use Rattle.arithmetic.specs.Inside.Asked.{Asked, ExtremesInRange, front};

// The least and the greatest of velocities.
#[derive(Clone, Copy)]
pub struct Extremes {
    pub least: f64,
    pub greatest: f64,
}

// How far the limits are widened, and how many there are; none where the number is not above 0.
#[derive(Clone, Copy)]
pub struct Plan {
    pub add_start: i32,
    pub add_end: i32,
    pub number: i64,
}

impl Plan {
    // The number as a length: 0 where it is below 0.
    pub fn how_many(self) -> usize
        ensures { result ≡ I.at_least0 self.number }
    {
        usize::try_from(self.number).unwrap_or(0)
    }
}

// The lesser of two.
#[tactic(auto, unfolding(crate::specs::Intervals::lesser))]
pub fn lesser(x: f64, y: f64) -> f64
    ensures { result ≡ I.lesser x y }
{
    if x < y { x } else { y }
}

// The other one.
#[tactic(auto, unfolding(crate::specs::Intervals::greater))]
pub fn greater(x: f64, y: f64) -> f64
    ensures { result ≡ I.greater x y }
{
    if x < y { y } else { x }
}

// The least and the greatest over the ranges of e and f, where e may have none.
#[tactic(auto, unfolding(crate::specs::Intervals::over_both))]
fn widen(e: Option<Extremes>, f: Extremes) -> Extremes
    ensures { Some result ≡ I.over_both e (Some f) }
{
    match e {
        Some(e) => Extremes {
            least: lesser(f.least, e.least),
            greatest: greater(e.greatest, f.greatest),
        },
        None => f,
    }
}

// The least and the greatest valid velocity; none where none is valid.
pub fn least_and_greatest(velocity: &[f32], valid: &[u8]) -> Option<Extremes>
    requires { length valid.now ≡ length velocity.now }
    ensures { result ≡ I.range (I.valid velocity.now valid.now) }
{
    let mut e = None;
    for (v, m) in velocity.iter().zip(valid) {
        if *m == 1 {
            let v = std::num::f32_to_f64_with_nan(*v);
            e = Some(widen(
                e,
                Extremes {
                    least: v,
                    greatest: v,
                },
            ));
        }
    }
    e
}

// The least and the greatest over two ranges.
#[tactic(auto, unfolding(crate::specs::Intervals::over_both))]
pub fn over_both(e: Option<Extremes>, f: Option<Extremes>) -> Option<Extremes>
    ensures { result ≡ I.over_both e f }
{
    match f {
        Some(f) => Some(widen(e, f)),
        None => e,
    }
}

fn width(nyquist: f64, splits: u32) -> f64
    ensures { result ≡ I.width nyquist splits }
{
    (2.0 * nyquist) / (splits as f64)
}

// The ceiling of d / w.
fn ceil_of(d: f64, w: f64) -> i32
    requires { T (within (div binary64 d w)) }
    ensures { result ≡ ceiling_whole (div binary64 d w) }
{
    crate::rounding::ceil(d / w).unwrap_or(0)
}

// start + step * i for i below n - 1, and then the end, at the front of `out`.
fn linspace(start: f64, end: f64, n: usize, out: &mut [f64])
    requires { (n ≤ length out.old) × (n ≤ 10000) }
    ensures { out.new ≡ front (I.spaced start end n) out.old }
{
    if n == 0 {
        return;
    }
    if n == 1 {
        out[0] = start;
        return;
    }
    let last = n - 1;
    let step = (end - start) / (last as f64);
    for i in 0..last {
        out[i] = start + step * (i as f64);
    }
    out[last] = end;
}

fn count(splits: u32, a: i32, b: i32) -> i64
    requires { splits ≤ 9999 }
    ensures { result ≡ pos (splits + 1) +ℤ a +ℤ b }
{
    ((splits + 1) as i64) + (a as i64) + (b as i64)
}

// Whether a valid velocity is above Nyquist or below -Nyquist.
#[tactic(auto, unfolding(crate::specs::Intervals::beyond))]
fn is_beyond(nyquist: f64, e: Extremes) -> bool
    ensures { result ≡ I.beyond nyquist e.least e.greatest }
{
    e.greatest > nyquist || e.least < -nyquist
}

// The adds where a velocity is beyond Nyquist.
fn widened(nyquist: f64, splits: u32, e: Extremes) -> Plan
    requires asked { Asked nyquist splits }
    requires extremes_in_range { ExtremesInRange (Some e) }
    ensures { result ≡ I.plan_of splits (I.widened nyquist (I.width nyquist splits) e.least e.greatest) }
{
    let w = width(nyquist, splits);
    let a = ceil_of(e.greatest - nyquist, w);
    let b = ceil_of(-(e.least + nyquist), w);
    Plan {
        add_start: a,
        add_end: b,
        number: count(splits, a, b),
    }
}

fn plain(splits: u32) -> Plan
    requires { splits ≤ 9999 }
    ensures { result ≡ I.plan_of splits I.no_adds }
{
    Plan {
        add_start: 0,
        add_end: 0,
        number: (splits + 1) as i64,
    }
}

#[tactic(auto, unfolding(crate::specs::Intervals::adds))]
pub fn plan_limits(nyquist: f32, splits: u32, e: Option<Extremes>) -> Plan
    requires asked { Asked nyquist splits }
    requires extremes_in_range { ExtremesInRange e }
    ensures { result ≡ I.plan_of splits (I.adds nyquist splits e) }
{
    let nyq = nyquist as f64;
    match e {
        Some(e) if is_beyond(nyq, e) => widened(nyq, splits, e),
        _ => plain(splits),
    }
}

// The limits of a plan, at the front of `out`.
pub fn limits(nyquist: f32, splits: u32, p: Plan, out: &mut [f64])
    requires not_nan { T (not (is_nan nyquist)) }
    requires number_in_bounds { (I.at_least0 p.number ≤ length out.old) × (I.at_least0 p.number ≤ 10000) }
    ensures { out.new ≡ front (I.limits_of nyquist splits p.add_start p.add_end p.number) out.old }
{
    let nyq = nyquist as f64;
    let w = width(nyq, splits);
    let start = -nyq - (p.add_start as f64) * w;
    let end = nyq + (p.add_end as f64) * w;
    linspace(start, end, p.how_many(), out);
}
