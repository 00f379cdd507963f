// Whether a merge is doubtful: its difference, in folds, lies within one sixteenth of a whole number plus a half.
ghost use Rattle.std.specs.Prelude.{◌≡◌};
ghost use Rattle.arithmetic.specs.Doubtful.{doubtful};

// Whether q lies within one sixteenth of a whole number plus a half. What the size of q has above its whole number is exact in f64; of an infinity
// and of a NaN it is a NaN.
pub fn is_doubtful(q: f64) -> bool
    ensures { result ≡ doubtful q }
{
    let part = q.abs().fract();
    part >= 0.4375 && part <= 0.5625
}
