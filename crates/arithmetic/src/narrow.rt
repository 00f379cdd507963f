// An f64 to the nearest f32, ties to even: Rust's `as f32` of an f64.
ghost use Rattle.std.specs.Prelude.{◌≡◌};
ghost use Rattle.arithmetic.specs.Rounding.{narrowed};

// The f32 nearest to x.
#[tactic(auto, using(crate::proofs::NarrowLaws::narrowed_is))]
pub fn to_f32(x: f64) -> f32
    ensures { result ≡ narrowed x }
{
    std::num::nearest_f64_to_f32_with_nan(x)
}
