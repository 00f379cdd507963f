// The generator of test sweeps: the state that follows a state, the gate that a state makes, and the gates of a sweep.
ghost use Rattle.std.specs.Prelude.{◌≡◌, ◌<◌, length};
ghost use Rattle.test_sweep.specs.Generator.{next_state, state_after, is_masked, twelve_bits, velocity_of, gate_of, velocities, mask_bytes};

const MULTIPLIER: u32 = 1664525;

const INCREMENT: u32 = 1013904223;

// A gate of a test sweep.
#[derive(Clone, Copy, Debug, PartialEq)]
pub struct Gate {
    pub velocity: f32,
    pub valid: u8,
}

// The state that follows a state, kept modulo 2^32.
#[tactic(auto, unfolding(crate::specs::Generator::next_state))]
fn next_state(state: u32) -> u32
    ensures { result ≡ next_state state }
{
    state.wrapping_mul(MULTIPLIER).wrapping_add(INCREMENT)
}

// Whether the gate of a state is masked: its top three bits are all zero, so that it is below 2^29.
#[tactic(auto, unfolding(crate::specs::Generator::is_masked))]
fn is_masked(state: u32) -> bool
    ensures { result ≡ is_masked state }
{
    state / 536870912 == 0
}

// Bits 8 to 19.
#[tactic(auto, unfolding(crate::specs::Generator::twelve_bits))]
fn twelve_bits(state: u32) -> u32
    ensures { result ≡ twelve_bits state }
{
    state / 256 % 4096
}

// (k - 2,048) / 128, which is exact.
fn velocity_of(k: u32) -> f32
    requires { k < 4096 }
    ensures { result ≡ velocity_of k }
{
    let units = (k as i32) - 2048;
    (units as f32) / 128.0
}

// The gate that a state makes: it has a velocity, masked or not.
#[tactic(auto, using(crate::proofs::StateLaws::bits_few), unfolding(crate::specs::Generator::gate_of))]
fn gate_of(state: u32) -> Gate
    ensures { result ≡ gate_of state }
{
    Gate {
        velocity: velocity_of(twelve_bits(state)),
        valid: if is_masked(state) { 0 } else { 1 },
    }
}

// All gates in scan order, each from the state that follows the one before. Gives the state after the last.
pub fn fill_gates(state: u32, velocity: &mut [f32], valid: &mut [u8]) -> u32
    requires { length valid.old ≡ length velocity.old }
    ensures after { result ≡ state_after (length velocity.old) state }
    ensures velocity { velocity.new ≡ velocities (length velocity.old) state }
    ensures valid { valid.new ≡ mask_bytes (length velocity.old) state }
{
    let mut here = state;
    for g in 0..velocity.len() {
        here = next_state(here);
        let gate = gate_of(here);
        velocity[g] = gate.velocity;
        valid[g] = gate.valid;
    }
    here
}
