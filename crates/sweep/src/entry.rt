// The call of the sweep entry: questions 1 to 8, then the sweep by its own limits. The slices that a call writes stay parameters here and in sweep, map and
// sweep_book: as `&mut` fields of a struct they would need a clause on the ghost name of each in every function.
ghost use Rattle.std.specs.Prelude.{◌≡◌, [], ◌∷◌, IfOk};
ghost use Rattle.std.proofs.Math.Option.{none};
ghost use Rattle.arithmetic.specs.Inside.Asked.{Asked, ExtremesInRange};
ghost use Rattle.network.specs.Inside.Find.{limits_by};
ghost use Rattle.sweep.specs.Sweep.{unfolded};
ghost use Rattle.sweep.specs.Questions.{ask, first_no, few_for, seven_of, eight, asked9, gates_in};
ghost use Rattle.sweep.specs.Refusal.{missed_by};
ghost use Rattle.sweep.specs.Call.{call, ending, cleared_for, lengths, memory_of, answer_by};
ghost use Rattle.sweep.specs.Entry.{sweep_in, answer_of};
ghost use Rattle.sweep.specs.Inside.Planning.{plan_for, own_plan, Fit};

use crate::questions::{self, Room};
use crate::refusal::Refusal;
use arithmetic::intervals::{self, Extremes, Plan};
use memory::layout;
use network::input::Sweep;
use network::options::Options;

// Question 8, of a least and a greatest velocity in range: the plan of their limits. A plan that is given has at most 10,000, and they never fall.
pub fn plan_by(o: Options, e: Option<Extremes>) -> Result<Plan, Refusal>
    requires { Asked o.nyquist o.splits × ExtremesInRange e }
    ensures missed { missed_by result ≡ first_no (ask 8 (few_for o.nyquist o.splits e) ∷ []) }
    ensures plan { IfOk result (λ p. p ≡ plan_for o.nyquist o.splits e) }
    ensures fit { IfOk result (λ p. Fit o p) }
{
    let p = intervals::plan_limits(o.nyquist, o.splits, e);
    if !questions::limits_few(p) {
        return Err(Refusal::Limits);
    }
    Ok(p)
}

// Questions 1 to 8 of an entry that works on a sweep.
pub fn plan_sweep(s: Sweep, lent: Room) -> Result<Plan, Refusal>
    ensures missed { missed_by result ≡ first_no (eight (sweep_in s.entry) lent) }
    ensures plan { IfOk result (λ p. p ≡ own_plan (sweep_in s.entry)) }
    ensures fit { IfOk result (λ p. Fit s.entry.options p) }
{
    questions::first_missed(s, lent)?;
    plan_by(
        s.options,
        intervals::least_and_greatest(s.velocity, s.valid),
    )
}

// The sweep by the limits of a plan, questions 1 to 8 having got a yes: just as much of the work memory as is asked for is used. Its twins in map, sweep_book and
// channels stay: one function that takes the call as a closure leaves its callers' proofs nothing of what the closure writes behind a captured `&mut`.
fn unfold_sweep(
    s: Sweep,
    p: Plan,
    folds: &mut [i32],
    doubtful: &mut [u8],
    pair: &mut [u32],
    words: &mut [u32],
    floats: &mut [f64],
) -> Result<(), Refusal>
    requires seven_yes { first_no (seven_of (sweep_in s) (lengths (memory_of folds.old doubtful.old pair.old words.old floats.old))) ≡ none }
    requires fit { Fit s.options p }
    ensures { let v = sweep_in s.entry in
        let m = memory_of folds.old doubtful.old pair.old words.old floats.old in
        answer_by (answer_of (missed_by result)) folds.new doubtful.new pair.new words.new floats.new
        ≡ ending (asked9 (unfolded v (limits_by s.entry.options p))) (cleared_for (gates_in v) m) }
{
    let n = s.velocity.len();
    let w = layout::WORDS * n + layout::WORDS_MORE;
    let d = layout::FLOATS * n + layout::FLOATS_MORE;
    crate::sweep::solve(
        s,
        p,
        folds,
        doubtful,
        pair,
        &mut words[..w],
        &mut floats[..d],
    )
}

// A sweep's fold counts and the marks of its doubtful merges, with the numbers of regions and of merges.
pub fn dealias_sweep(
    s: Sweep,
    folds: &mut [i32],
    doubtful: &mut [u8],
    pair: &mut [u32],
    words: &mut [u32],
    floats: &mut [f64],
) -> Result<(), Refusal>
    ensures { let m = memory_of folds.old doubtful.old pair.old words.old floats.old in
        answer_by (answer_of (missed_by result)) folds.new doubtful.new pair.new words.new floats.new
        ≡ call (sweep_in s.entry) m }
{
    let n = questions::gates_in(s.options.rays, s.options.gates);
    let lent = questions::room_of(
        n,
        folds.len(),
        doubtful.len(),
        pair.len(),
        words.len(),
        floats.len(),
    );
    let p = plan_sweep(s, lent)?;
    unfold_sweep(s, p, folds, doubtful, pair, words, floats)
}
