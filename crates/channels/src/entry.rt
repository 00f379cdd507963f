// The call of two channels: questions 1 to 7 of horizontal, then of vertical, 8 of the limits that they share, then both by these.
ghost use Rattle.std.specs.Prelude.{◌≡◌, IfOk, length};
ghost use Rattle.std.proofs.Math.Option.{none};
ghost use Rattle.arithmetic.specs.Intervals.{range, over_both, valid as valid_of};
ghost use Rattle.network.specs.Inside.Find.{limits_by};
ghost use Rattle.sweep.specs.Sweep.{unfolded};
ghost use Rattle.sweep.specs.Questions.{first_no, seven_of, asked9, gates_in};
ghost use Rattle.sweep.specs.Call.{lengths};
ghost use Rattle.sweep.specs.Entry.{sweep_in, answer_of};
ghost use Rattle.sweep.specs.Inside.Planning.{Fit};
ghost use Rattle.sweep.specs.Refusal.{missed_by};
ghost use Rattle.channels.specs.Call.{channel_of, two_memory_of, two_answer_by, lent_to, eight_both, cleared_for_two, ending_two, call_two, horizontal_in, vertical_in};
ghost use Rattle.channels.specs.Inside.Both.{shared_plan};

use crate::input::Channels;
use arithmetic::intervals::{self, Extremes, Plan};
use memory::layout;
use network::input::Sweep;
use sweep::questions::{self, Room};
use sweep::refusal::Refusal;

// The least and the greatest valid velocity over both channels.
fn shared_range(
    h_velocity: &[f32],
    h_valid: &[u8],
    v_velocity: &[f32],
    v_valid: &[u8],
) -> Option<Extremes>
    requires { (length h_valid.now ≡ length h_velocity.now) × (length v_valid.now ≡ length v_velocity.now) }
    ensures { result ≡ over_both (range (valid_of h_velocity.now h_valid.now)) (range (valid_of v_velocity.now v_valid.now)) }
{
    let h = intervals::least_and_greatest(h_velocity, h_valid);
    let v = intervals::least_and_greatest(v_velocity, v_valid);
    intervals::over_both(h, v)
}

// Questions 1 to 8 of both channels, each with what it is lent.
fn plan_two(h: Sweep, h_lent: Room, v: Sweep, v_lent: Room) -> Result<Plan, Refusal>
    ensures missed { missed_by result ≡ first_no (eight_both (sweep_in h.entry) h_lent (sweep_in v.entry) v_lent) }
    ensures plan { IfOk result (λ p. p ≡ shared_plan (sweep_in h.entry) (sweep_in v.entry)) }
    ensures fit { IfOk result (λ p. Fit h.entry.options p) }
{
    questions::first_missed(h, h_lent)?;
    questions::first_missed(v, v_lent)?;
    let range = shared_range(h.velocity, h.valid, v.velocity, v.valid);
    sweep::entry::plan_by(h.options, range)
}

// Both channels by the limits of a plan, questions 1 to 8 having got a yes: just as much of the work memory as is asked for is used.
// A twin of sweep's `unfold_sweep`: one function that takes the call as a closure leaves its callers' proofs nothing of what the closure writes behind a captured `&mut`.
fn unfold_two(
    h: Sweep,
    v: Sweep,
    p: Plan,
    h_folds: &mut [i32],
    h_doubtful: &mut [u8],
    h_pair: &mut [u32],
    v_folds: &mut [i32],
    v_doubtful: &mut [u8],
    v_pair: &mut [u32],
    words: &mut [u32],
    floats: &mut [f64],
) -> Result<(), Refusal>
    requires seven_yes { let m = two_memory_of (channel_of h_folds.old h_doubtful.old h_pair.old) (channel_of v_folds.old v_doubtful.old v_pair.old) words.old floats.old in
        (first_no (seven_of (sweep_in h) (lengths (lent_to m.horizontal m))) ≡ none)
        × (first_no (seven_of (sweep_in v) (lengths (lent_to m.vertical m))) ≡ none) }
    requires options { v.options ≡ h.options }
    requires fit { Fit h.options p }
    ensures { let m = two_memory_of (channel_of h_folds.old h_doubtful.old h_pair.old)
        (channel_of v_folds.old v_doubtful.old v_pair.old) words.old floats.old in
        two_answer_by (answer_of (missed_by result)) (channel_of h_folds.new h_doubtful.new h_pair.new)
        (channel_of v_folds.new v_doubtful.new v_pair.new) words.new floats.new
        ≡ ending_two (asked9 (unfolded (sweep_in h.entry) (limits_by h.entry.options p))) (asked9 (unfolded (sweep_in v.entry) (limits_by v.entry.options p)))
        (cleared_for_two (gates_in (sweep_in h.entry)) m) }
{
    let n = h.velocity.len();
    let w = layout::WORDS * n + layout::WORDS_MORE;
    let d = layout::FLOATS * n + layout::FLOATS_MORE;
    crate::both::solve_both(
        h,
        v,
        p,
        h_folds,
        h_doubtful,
        h_pair,
        v_folds,
        v_doubtful,
        v_pair,
        &mut words[..w],
        &mut floats[..d],
    )
}

// The fold counts of both channels and the marks of their doubtful merges, with the numbers of regions and of merges of each.
pub fn dealias_two(
    c: Channels,
    h_folds: &mut [i32],
    h_doubtful: &mut [u8],
    h_pair: &mut [u32],
    v_folds: &mut [i32],
    v_doubtful: &mut [u8],
    v_pair: &mut [u32],
    words: &mut [u32],
    floats: &mut [f64],
) -> Result<(), Refusal>
    ensures { let m = two_memory_of (channel_of h_folds.old h_doubtful.old h_pair.old)
        (channel_of v_folds.old v_doubtful.old v_pair.old) words.old floats.old in
        two_answer_by (answer_of (missed_by result)) (channel_of h_folds.new h_doubtful.new h_pair.new)
        (channel_of v_folds.new v_doubtful.new v_pair.new) words.new floats.new
        ≡ call_two (horizontal_in c.entry) (vertical_in c.entry) m }
{
    let h = Sweep {
        options: c.options,
        velocity: c.h_velocity,
        valid: c.h_valid,
    };
    let v = Sweep {
        options: c.options,
        velocity: c.v_velocity,
        valid: c.v_valid,
    };
    let n = questions::gates_in(c.options.rays, c.options.gates);
    let h_lent = questions::room_of(
        n,
        h_folds.len(),
        h_doubtful.len(),
        h_pair.len(),
        words.len(),
        floats.len(),
    );
    let v_lent = questions::room_of(
        n,
        v_folds.len(),
        v_doubtful.len(),
        v_pair.len(),
        words.len(),
        floats.len(),
    );
    let p = plan_two(h, h_lent, v, v_lent)?;
    unfold_two(
        h, v, p, h_folds, h_doubtful, h_pair, v_folds, v_doubtful, v_pair, words, floats,
    )
}
