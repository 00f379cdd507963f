// Finding: from a sweep's limits to its merged regions. Labels, sizes, counts, marks and the log of merges are left in the work memory; nothing
// else is written.
ghost use Rattle.std.specs.Prelude.{◌≡◌, ◌+◌, ◌*◌, ◌≤◌, length, drop, replicate};
ghost use Rattle.arithmetic.specs.Inside.Asked.{front};
ghost use Rattle.arithmetic.specs.Intervals.{at_least0};
ghost use Rattle.lists.specs.Inside.Seg.{seg, put};
ghost use Rattle.lists.specs.Seq.{tabulate};
ghost use Rattle.network.specs.Network.{size_in};
ghost use Rattle.network.specs.Inside.Find.{limits_by, regions_by, found_in, network_for, Planned, Limited, Labelled, Few, Merges, Finds, Leaves};

use crate::input::Sweep;
use crate::options::Options;
use arithmetic::intervals::Plan;
use edges::edges::Shape;
use memory::layout;
use merge::merge::MergeRefused;

// How many regions there are, and how many merges there were.
#[derive(Clone, Copy)]
pub struct Run {
    pub regions: usize,
    pub merges: usize,
}

// The regions found and merged, or the refusal by question 9.
pub type Finding = Result<Run, MergeRefused>;

// The limits of a plan at the front of `out`, and how many they are.
pub fn limits(o: Options, p: Plan, out: &mut [f64]) -> usize
    requires planned { Planned o p }
    requires in_bounds { 10000 ≤ length out.old }
    ensures value { result ≡ at_least0 p.number }
    ensures out_after { out.new ≡ front (limits_by o p) out.old }
{
    arithmetic::intervals::limits(o.nyquist, o.splits, p, out);
    p.how_many()
}

// The label of each gate, at the front of `work`, by the limits of a plan, which are written into `out`. The number of regions. Of `work` the
// labels and 2n + 64 words after them are lent on; the rest is not touched.
fn label_in(out: &mut [f64], s: Sweep, p: Plan, work: &mut [u32]) -> u32
    requires limited { Limited s.options p s.velocity.now s.valid.now (length work.old) }
    requires in_bounds { 10000 ≤ length out.old }
    ensures labelled { let v = s.entry in Labelled (regions_by v.options p v.velocity.now v.valid.now) (length v.velocity.now) result work.new }
    ensures work_unchanged { let k = 3 * length s.entry.velocity.now + 64 in drop k work.new ≡ drop k work.old }
{
    let m = limits(s.options, p, out);
    let end = 3 * s.velocity.len() + layout::WORDS_MORE;
    labels::regions::label_gates(
        s.options.gates,
        s.velocity,
        s.valid,
        &out[0..m],
        &mut work[0..end],
    )
}

// The same, with limits of its own: a sweep of few gates may have more limits than words lent.
pub fn label(s: Sweep, p: Plan, work: &mut [u32]) -> u32
    requires { Limited s.options p s.velocity.now s.valid.now (length work.old) }
    ensures labelled { let v = s.entry in Labelled (regions_by v.options p v.velocity.now v.valid.now) (length v.velocity.now) result work.new }
    ensures work_unchanged { let k = 3 * length s.entry.velocity.now + 64 in drop k work.new ≡ drop k work.old }
{
    let mut out = [0.0; 10000];
    label_in(&mut out, s, p, work)
}

// Below two regions there is nothing to merge: the sizes, every count 0, which is 1,000 in its table, and no mark.
fn leave_alone(w: &mut [u32], n: usize, k: usize)
    requires { Few w.old n k }
    ensures { let sized = put w.old n (tabulate (k + 1) (size_in (seg w.old 0 n))) in
        let counted = put sized (n + (k + 1)) (replicate (k + 1) 1000) in
        w.new ≡ put counted (n + (k + 1) + (k + 1)) (replicate (k + 1) 0) }
{
    let nodes = k + 1;
    crate::sizes::count_sizes(w, n, n, nodes);
    memory::words::fill(w, n + nodes, nodes, layout::ZERO);
    memory::words::fill(w, n + nodes + nodes, nodes, 0);
}

// The k regions of labelled gates, merged: the labels are the first words; sizes, counts, marks and the log of merges lie behind them afterwards.
pub fn merge_regions(s: Sweep, words: &mut [u32], floats: &mut [f64], k: usize) -> Finding
    requires { Merges s.options s.velocity.now words.old floats.old k }
    ensures { let v = s.entry in
        let f = found_in words.old (length v.velocity.now) k in
        Leaves f (network_for v.options f v.velocity.now) (length v.velocity.now) words.new result }
{
    let n = s.velocity.len();
    if k < 2 {
        leave_alone(words, n, k);
        return Ok(Run {
            regions: k,
            merges: 0,
        });
    }
    let two_nyquist = 2.0 * (s.options.nyquist as f64);
    let merges = crate::reduce::reduce(
        words,
        floats,
        s.velocity,
        Shape::from(s.options),
        n,
        k,
        two_nyquist,
    )?;
    Ok(Run { regions: k, merges })
}

// The regions of a sweep by the limits of a plan, merged.
pub fn find(s: Sweep, p: Plan, words: &mut [u32], floats: &mut [f64]) -> Finding
    requires { Finds s.options p s.velocity.now s.valid.now words.old floats.old }
    ensures { let v = s.entry in
        let f = regions_by v.options p v.velocity.now v.valid.now in
        Leaves f (network_for v.options f v.velocity.now) (length v.velocity.now) words.new result }
{
    let k = label(s, p, words) as usize;
    merge_regions(s, words, floats, k)
}
