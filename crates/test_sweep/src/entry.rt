// The calls that fill a test sweep: questions 1 and 2, then every gate. A refusal changes nothing lent.
// Size and slices stay parameters: `network::input::Sweep` lends slices to be read, with all options, and a struct of these two `&mut` would be built only to be taken apart.
ghost use Rattle.std.specs.Prelude.{◌≡◌};
ghost use Rattle.std.specs.Result.{result_unwrap_or};
ghost use Rattle.sweep.specs.Entry.{answer_of};
ghost use Rattle.sweep.specs.Refusal.{missed_by};
ghost use Rattle.test_sweep.specs.Call.{slices_of, asked_test, fill_answer_by, call_fill, test_answer_by, call_test};

use sweep::questions;
use sweep::refusal::Refusal;

// Questions 1 and 2: the first that gets a no refuses. `own` is what question 2 asks of an entry's own slices.
#[tactic(auto, unfolding(crate::specs::Call::asked_test, sweep::specs::Questions::first_no))]
fn first_missed(
    rays: u32,
    gates: u32,
    velocity: &[f32],
    valid: &[u8],
    own: bool,
) -> Result<(), Refusal>
    ensures { missed_by result ≡ asked_test rays gates (slices_of velocity.now valid.now) own }
{
    if !questions::size_in_range(rays, gates) {
        return Err(Refusal::Size);
    }
    let n = questions::gates_in(rays, gates);
    if !questions::lengths_fit(n, velocity, valid, own) {
        return Err(Refusal::Lengths);
    }
    Ok(())
}

// The test sweep of a state. It answers the state after the last gate; where it is refused the state given stays the state.
pub fn fill_sweep(
    rays: u32,
    gates: u32,
    state: u32,
    velocity: &mut [f32],
    valid: &mut [u8],
) -> Result<u32, Refusal>
    ensures { fill_answer_by (answer_of (missed_by result)) (result_unwrap_or result state) (slices_of velocity.new valid.new)
        ≡ call_fill rays gates state (slices_of velocity.old valid.old) }
{
    first_missed(rays, gates, velocity, valid, true)?;
    Ok(crate::generator::fill_gates(state, velocity, valid))
}

// The same for a host: the one word of state is replaced. Another length is a no to question 2, which question 1 comes before.
#[tactic(auto, using(crate::proofs::CallLaws::test_other))]
pub fn test_sweep(
    rays: u32,
    gates: u32,
    state: &mut [u32],
    velocity: &mut [f32],
    valid: &mut [u8],
) -> Result<(), Refusal>
    ensures { test_answer_by (answer_of (missed_by result)) state.new (slices_of velocity.new valid.new)
        ≡ call_test rays gates state.old (slices_of velocity.old valid.old) }
{
    if state.len() != 1 {
        return first_missed(rays, gates, velocity, valid, false);
    }
    state[0] = fill_sweep(rays, gates, state[0], velocity, valid)?;
    Ok(())
}
