// The second entry, from fold counts and labels to unfolded velocities in f64, one rounding an operation.
ghost use Rattle.std.specs.Prelude.{◌≡◌, length, pos, slice_index, slice_index_or};
ghost use Rattle.std.specs.Float.{nan};
ghost use Rattle.lists.specs.Seq.{tabulate};
ghost use Rattle.sweep.specs.Entry.{answer_of};
ghost use Rattle.sweep.specs.Refusal.{missed_by};
ghost use Rattle.sweep.specs.Velocity.{unfolded_at, call_velocity, counted_in, velocity_answer_by};

use crate::input::Counted;
use crate::questions;
use crate::refusal::Refusal;

// A gate's unfolded velocity: 0 where it is masked or lies in no region.
fn unfolded_at(nyquist: f32, v: f32, valid: u8, count: i32, label: u32) -> f64
    ensures { result ≡ unfolded_at nyquist v valid count label }
{
    if questions::shows_wind(valid, label) {
        let fold = 2.0 * std::num::f32_to_f64_with_nan(nyquist);
        return std::num::f32_to_f64_with_nan(v) + (count as f64) * fold;
    }
    0.0
}

// Every gate's unfolded velocity.
pub fn unfold_gates(u: Counted, unfolded: &mut [f64])
    requires { let n = length unfolded.old in
        (length u.velocity.now ≡ n) × (length u.valid.now ≡ n) × (length u.folds.now ≡ n) × (length u.labels.now ≡ n) }
    ensures { let v = counted_in u.entry in
        unfolded.new ≡ tabulate (length unfolded.old)
        (λ g. unfolded_at v.nyquist (slice_index_or v.vel g nan) (slice_index v.mask g) (slice_index_or v.counts g (pos 0)) (slice_index v.labels g)) }
{
    for i in 0..unfolded.len() {
        unfolded[i] = unfolded_at(
            u.nyquist,
            u.velocity[i],
            u.valid[i],
            u.folds[i],
            u.labels[i],
        );
    }
}

// The call of the second entry: its questions, then every gate's unfolded velocity.
pub fn unfold_velocity(u: Counted, unfolded: &mut [f64]) -> Result<(), Refusal>
    ensures { velocity_answer_by (answer_of (missed_by result)) unfolded.new ≡ call_velocity (counted_in u.entry) unfolded.old }
{
    questions::first_missed_velocity(u, unfolded.len())?;
    unfold_gates(u, unfolded);
    Ok(())
}
