// Questions 5 and 7 of the number that a bit pattern is, and the numbers of patterns.
// The bits are compared, as `sweep` compares the numbers: a NaN's pattern then needs no test of its own.
ghost use Rattle.std.specs.Prelude.{◌≡◌, map, length};
ghost use Rattle.std.specs.Float.{binary32};
ghost use Rattle.std.specs.Float.Ieee.{of_bits};
ghost use Rattle.arithmetic.specs.Intervals.{nyquist_in_range, velocity_in_range};

use std::num::f32_from_bits_with_nan;

// Question 5: from 0.125 to 1,024. Patterns of positive numbers are in the order of the numbers.
pub fn nyquist_in_range(bits: u32) -> bool
    ensures { result ≡ nyquist_in_range (of_bits binary32 bits) }
{
    0x3e000000 <= bits && bits <= 0x44800000
}

// Question 7, of one velocity: without its sign at most 16,384. A NaN's pattern lies above.
#[tactic(auto, using(crate::proofs::BitLaws::velocity_bits_lem))]
pub fn velocity_in_range(bits: u32) -> bool
    ensures { result ≡ velocity_in_range (of_bits binary32 bits) }
{
    bits % 0x80000000 <= 0x46800000
}

// The velocities of their bits. A NaN's pattern gives a NaN.
#[tactic(auto, using(sweep::proofs::FillLaws::fill_begin, sweep::proofs::FillLaws::fill_on))]
pub fn velocities_of(bits: &[u32], velocity: &mut [f32])
    requires { length velocity.old ≡ length bits.now }
    ensures { velocity.new ≡ map (of_bits binary32) bits.now }
{
    for (i, v) in velocity.iter_mut().enumerate() {
        *v = f32_from_bits_with_nan(bits[i]);
    }
}
