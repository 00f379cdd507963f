// A float to a whole number, behind a range test, each exact against its definition in specs/Rounding.antt.
ghost use Rattle.std.specs.Prelude.{◌≡◌};
ghost use Rattle.std.specs.Float.{float_to_signed};
ghost use Rattle.std.specs.Int.{w32};
ghost use Rattle.arithmetic.specs.Rounding.{within, if_within, round_even, ceil_of};

// 2^30.
const BOUND: f64 = 1073741824.0;

// `whole`, which is x rounded, as an i32; none where x is beyond 2^30 either way, an infinity or a NaN.
fn if_within(x: f64, whole: f64) -> Option<i32>
    ensures { result ≡ if_within (within x) (float_to_signed w32 whole) }
{
    if x.abs() <= BOUND {
        Some(std::num::saturating_f64_to_i32(whole))
    } else {
        None
    }
}

// The whole number nearest to x, ties to even.
#[tactic(auto, using(crate::proofs::RangeLaws::even_is))]
pub fn round_even(x: f64) -> Option<i32>
    ensures { result ≡ round_even x }
{
    if_within(x, x.round_ties_even())
}

// The least whole number that is not below x.
#[tactic(auto, using(crate::proofs::RangeLaws::ceiling_is))]
pub fn ceil(x: f64) -> Option<i32>
    ensures { result ≡ ceil_of x }
{
    if_within(x, x.ceil())
}
