// Both channels by the limits of a plan, in one work memory. What finding leaves for writing lies before its tables (layout::TABLES);
// vertical works behind that place, so that what horizontal left stays, and no merge is done twice.
// Each channel's counts, marks and pair stay parameters here and in entry: as `&mut` fields of a struct they would need a clause on the ghost name of each in every function.
ghost use Rattle.std.specs.Prelude.{◌≡◌, length, []};
ghost use Rattle.network.specs.Inside.Find.{limits_by};
ghost use Rattle.sweep.specs.Sweep.{unfolded};
ghost use Rattle.sweep.specs.Questions.{asked9};
ghost use Rattle.sweep.specs.Entry.{sweep_in, answer_of};
ghost use Rattle.sweep.specs.Inside.Finish.{outcome_by};
ghost use Rattle.sweep.specs.Refusal.{missed_by};
ghost use Rattle.channels.specs.Call.{channel_of, two_memory_of, two_answer_by, ending_two};
ghost use Rattle.channels.specs.Inside.Both.{behind, FindsBoth, LeavesBoth, lengths_by, WritesBoth, lent_both, all_zero_two};

use arithmetic::intervals::Plan;
use memory::layout;
use network::find::{self, Finding};
use network::input::Sweep;
use sweep::refusal::Refusal;
use sweep::sweep::{clear, write};

// What was found of each channel.
#[derive(Clone, Copy)]
pub struct Findings {
    pub horizontal: Finding,
    pub vertical: Finding,
}

// The regions of both channels, merged.
fn find_both(h: Sweep, v: Sweep, p: Plan, words: &mut [u32], floats: &mut [f64]) -> Findings
    requires { FindsBoth h v p words.old floats.old }
    ensures { LeavesBoth h.entry v.entry p words.new result }
{
    let at = layout::TABLES * h.velocity.len();
    let horizontal = find::find(h, p, words, floats);
    let vertical = find::find(v, p, &mut words[at..], floats);
    Findings {
        horizontal,
        vertical,
    }
}

// What was found, written: counts, marks and pair of each channel, or nothing where question 9 refused one of them.
fn write_both(
    f: Findings,
    h: Sweep,
    v: Sweep,
    w: &[u32],
    h_folds: &mut [i32],
    h_doubtful: &mut [u8],
    h_pair: &mut [u32],
    v_folds: &mut [i32],
    v_doubtful: &mut [u8],
    v_pair: &mut [u32],
) -> Result<(), Refusal>
    requires { WritesBoth f w.now h.valid.now v.valid.now (lengths_by (length h_folds.old) (length h_doubtful.old) (length h_pair.old))
        (lengths_by (length v_folds.old) (length v_doubtful.old) (length v_pair.old)) }
    ensures { let m = lent_both (channel_of h_folds.old h_doubtful.old h_pair.old) (channel_of v_folds.old v_doubtful.old v_pair.old) in
        two_answer_by (answer_of (missed_by result)) (channel_of h_folds.new h_doubtful.new h_pair.new)
        (channel_of v_folds.new v_doubtful.new v_pair.new) [] []
        ≡ ending_two (outcome_by f.horizontal w.now h.entry.valid.now h.entry.options.centred)
        (outcome_by f.vertical (behind (length h.entry.valid.now) w.now) v.entry.valid.now v.entry.options.centred) m }
{
    if f.vertical.is_err() {
        return Err(Refusal::Merges);
    }
    let at = layout::TABLES * h.valid.len();
    write(
        f.horizontal,
        h.options.centred,
        h.valid,
        w,
        h_folds,
        h_doubtful,
        h_pair,
    )?;
    write(
        f.vertical,
        v.options.centred,
        v.valid,
        &w[at..],
        v_folds,
        v_doubtful,
        v_pair,
    )
}

// Two channels that passed questions 1 to 8, their limits planned: find both, write both, clear. Question 9 may still refuse one of them.
pub fn solve_both(
    h: Sweep,
    v: Sweep,
    p: Plan,
    h_folds: &mut [i32],
    h_doubtful: &mut [u8],
    h_pair: &mut [u32],
    v_folds: &mut [i32],
    v_doubtful: &mut [u8],
    v_pair: &mut [u32],
    words: &mut [u32],
    floats: &mut [f64],
) -> Result<(), Refusal>
    requires finds_both { FindsBoth h v p words.old floats.old }
    requires h_long { (length h_folds.old ≡ length h.velocity.now) × (length h_doubtful.old ≡ length h.velocity.now) × (length h_pair.old ≡ 2) }
    requires v_long { (length v_folds.old ≡ length v.velocity.now) × (length v_doubtful.old ≡ length v.velocity.now) × (length v_pair.old ≡ 2) }
    ensures { let m = two_memory_of (channel_of h_folds.old h_doubtful.old h_pair.old)
        (channel_of v_folds.old v_doubtful.old v_pair.old) words.old floats.old in
        two_answer_by (answer_of (missed_by result)) (channel_of h_folds.new h_doubtful.new h_pair.new)
        (channel_of v_folds.new v_doubtful.new v_pair.new) words.new floats.new
        ≡ ending_two (asked9 (unfolded (sweep_in h.entry) (limits_by h.entry.options p))) (asked9 (unfolded (sweep_in v.entry) (limits_by v.entry.options p))) (all_zero_two m) }
{
    let f = find_both(h, v, p, words, floats);
    let r = write_both(
        f, h, v, words, h_folds, h_doubtful, h_pair, v_folds, v_doubtful, v_pair,
    );
    clear(words, floats);
    r
}
