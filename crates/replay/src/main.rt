// Replays recorded sweeps: reads them from standard input, puts each to the exported entries and writes their answers, a line a call.
// Memory is for 128 gates. A longer sweep, or text that is no list of sweeps, ends the run with a line that says so.
#![tactic(auto)]

mod arrays;
mod gates;
mod left;
mod lines;
mod raise;
mod words;

ghost use Rattle.std.specs.Prelude.{◌≡◌, true, ◌≤◌, length};
ghost use Rattle.replay.specs.Record.{held};

use gates::Setting;
use jivakkol::exports;
use lines::Refusal;
use words::Malformed;

// A recorded sweep, whose gates and memory the arrays hold. Velocities and mask are two slices, as in the C interface.
#[derive(Clone, Copy)]
struct Sweep<'a> {
    setting: Setting,
    velocity: &'a [f32],
    valid: &'a [u8],
    ghost few_gates: { length velocity.now ≤ 128 },
    ghost fits: { held setting ≡ true },
}

// Calls the second entry with a sweep, its counts, each with the recorded number added, and its labels, and writes its answer.
fn call_velocity(sweep: Sweep, counts: &mut [i32], labels: &[u32]) {
    let s = sweep.setting;
    raise::raise(counts, s.more);
    let mut unfolded = [arrays::FLOAT; arrays::GATES];
    let unfolded = &mut unfolded[..sweep.velocity.len()];
    let number = exports::jivakkol_unfold_velocity(
        s.rays,
        s.gates,
        s.nyquist,
        sweep.velocity,
        sweep.valid,
        counts,
        labels,
        unfolded,
    );
    lines::write_velocities(number, unfolded);
}

// Calls the region map with a sweep, and writes its answer. Lends for the number of regions one word less than the record has for the pair.
#[tactic(auto, unfolding(crate::specs::Record::held))]
fn call_map(sweep: Sweep, labels: &mut [u32], words: &mut [u32], floats: &mut [f64]) {
    let s = sweep.setting;
    let mut regions = [arrays::WORD; arrays::PAIR];
    let regions = &mut regions[..s.pair.saturating_sub(1)];
    let number = exports::jivakkol_region_map(
        s.rays,
        s.gates,
        s.nyquist,
        s.splits,
        s.skip_between_rays,
        s.skip_along_ray,
        s.centred,
        s.wrap,
        sweep.velocity,
        sweep.valid,
        labels,
        regions,
        words,
        floats,
    );
    let kept = left::map_kept(labels, regions);
    let left = left::left_by(number, sweep.velocity.len(), kept, words, floats);
    lines::write_map(number, regions, labels, left);
}

// Calls the sweep entry with a sweep and memory that holds the pattern, and writes its answer; then the region map, with the work memory as it
// was left, and where the answer is 0 the second entry, with what the two wrote.
fn call_sweep(
    sweep: Sweep,
    counts: &mut [i32],
    doubtful: &mut [u8],
    pair: &mut [u32],
    labels: &mut [u32],
    words: &mut [u32],
    floats: &mut [f64],
) {
    let s = sweep.setting;
    let number = exports::jivakkol_dealias_sweep(
        s.rays,
        s.gates,
        s.nyquist,
        s.splits,
        s.skip_between_rays,
        s.skip_along_ray,
        s.centred,
        s.wrap,
        sweep.velocity,
        sweep.valid,
        counts,
        doubtful,
        pair,
        words,
        floats,
    );
    let kept = left::folds_kept(counts, doubtful, pair);
    let left = left::left_by(number, sweep.velocity.len(), kept, words, floats);
    lines::write_answer(number, pair, counts, doubtful, left);
    call_map(sweep, labels, words, floats);
    if number == 0 {
        call_velocity(sweep, counts, labels);
    }
}

// Lends memory as long as the record says, and as many labels as counts.
#[tactic(auto, unfolding(crate::specs::Record::held))]
fn answer(sweep: Sweep) {
    let s = sweep.setting;
    let mut counts = [arrays::COUNT; arrays::COUNTS];
    let mut doubtful = [arrays::MARK; arrays::COUNTS];
    let mut pair = [arrays::WORD; arrays::PAIR];
    let mut labels = [arrays::WORD; arrays::COUNTS];
    let mut words = [arrays::WORD; arrays::WORDS];
    let mut floats = [arrays::FLOAT; arrays::FLOATS];
    call_sweep(
        sweep,
        &mut counts[..s.counts],
        &mut doubtful[..s.doubtful],
        &mut pair[..s.pair],
        &mut labels[..s.counts],
        &mut words[..s.words],
        &mut floats[..s.floats],
    );
}

// Reads a sweep's gates and answers it.
#[tactic(auto, unfolding(crate::specs::Record::held))]
fn replay(s: Setting) -> Result<(), Malformed>
    requires { held s ≡ true }
{
    let mut velocity = [0.0; arrays::GATES];
    let mut valid = [0; arrays::GATES];
    let velocity = &mut velocity[..s.recorded];
    let valid = &mut valid[..s.recorded];
    gates::read_gates(velocity, valid)?;
    answer(Sweep {
        setting: s,
        velocity,
        valid,
    });
    Ok(())
}

// Whether the arrays hold the gates and the memory that a record asks for.
#[tactic(auto, unfolding(crate::specs::Record::held))]
fn holds(s: Setting) -> bool
    ensures { result ≡ held s }
{
    s.recorded <= arrays::GATES
        && s.counts <= arrays::COUNTS
        && s.doubtful <= arrays::COUNTS
        && s.pair <= arrays::PAIR
        && s.words <= arrays::WORDS
        && s.floats <= arrays::FLOATS
}

// The sweeps of the list. A loop has to end: this one has more turns than any list has sweeps.
fn replay_all() -> Result<(), Refusal> {
    for _ in 0..u64::MAX {
        let Some(s) = gates::read_start().map_err(|_| Refusal::Start)? else {
            break;
        };
        if !holds(s) {
            return Err(Refusal::Memory);
        }
        replay(s).map_err(|_| Refusal::Gates)?;
    }
    Ok(())
}

fn main() {
    if let Err(refusal) = replay_all() {
        lines::write_refusal(refusal);
    }
}
