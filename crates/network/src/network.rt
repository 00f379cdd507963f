// network.rs: choosing the heaviest edge and the run of merges to its end, over lent words and lent differences.
ghost use Rattle.std.specs.Prelude.{◌≡◌, ◌+◌, ◌*◌, ◌-◌, ◌/◌, ◌<◌, ◌^◌, get_or};
ghost use Rattle.arithmetic.specs.Rounding.{round_even};
ghost use Rattle.network.specs.Network.{whole};
ghost use Rattle.network.specs.Inside.Popped.{Pops, AnyPop};
ghost use Rattle.merge.specs.Inside.Tables.{view, HoldsTables, Sound};
ghost use Rattle.merge.specs.Inside.Table.{elen};
ghost use Rattle.network.specs.Inside.Rep.{Rep};
ghost use Rattle.network.specs.Inside.Settle.{number_by};
ghost use Rattle.network.specs.Inside.TurnIs.{Standing, AnyTurn, Chosen, AnyPick, gates_in, first_of, Unmarked, RunIs};
ghost use Rattle.network.specs.Inside.Begin.{regions_from, link_at, link_from, Space, Raw, Begun, Linkable, AllIs};
ghost use Rattle.merge.specs.Inside.Leaves.{LeavesTables};

use memory::layout;
use merge::merge::{MergeRefused, Step};
use merge::places::Places;

// The heaviest live edge: its ends, its difference after the division by its weight, whether that is doubtful, and its number.
#[derive(Clone, Copy)]
pub struct PoppedEdge {
    pub node1: u32,
    pub node2: u32,
    pub diff: f64,
    pub doubtful: bool,
    pub edge_number: u32,
}

// Chooses the heaviest live edge, the lowest number among equals: the tree's winner, as it stands. None where no edge is live.
fn pop_edge(w: &[u32], d: &[f64], at: Places) -> Option<PoppedEdge>
    requires holds_tables { HoldsTables at.edges at.nodes w.now d.now }
    requires sound { Sound at.edges at.nodes (view at.edges at.nodes w.now d.now) }
    requires some_edge { 0 < at.edges }
    ensures pops { Pops at.edges at.nodes w.now d.now result }
    ensures any_pop { AnyPop at.edges at.nodes (view at.edges at.nodes w.now d.now) result }
{
    let e = memory::tree::best(w, at.edges);
    let t = w[e as usize];
    if t == 0 {
        return None;
    }
    let x = w[at.first(e as usize)];
    let y = w[at.second(e as usize)];
    let z = d[e as usize];
    if w[at.stamp(x)] < w[at.stamp(y)] {
        let back = -z / (t as f64);
        return Some(PoppedEdge {
            node1: y,
            node2: x,
            diff: back,
            doubtful: arithmetic::doubtful::is_doubtful(back),
            edge_number: e,
        });
    }
    let q = z / (t as f64);
    Some(PoppedEdge {
        node1: x,
        node2: y,
        diff: q,
        doubtful: arithmetic::doubtful::is_doubtful(q),
        edge_number: e,
    })
}

// The rounded difference with 1000 added; a refusal where it is beyond 1000 either way.
#[tactic(auto, using(crate::proofs::NumberIs::too_large, crate::proofs::NumberIs::sum_is))]
fn number(q: f64) -> Result<u32, MergeRefused>
    ensures { result ≡ number_by (whole (round_even q)) }
{
    let k = arithmetic::rounding::round_even(q).ok_or(MergeRefused)?;
    if k.unsigned_abs() > 1000 {
        return Err(MergeRefused);
    }
    Ok((k + 1000) as u32)
}

// A turn that is not refused: a merge was done, or no edge is live.
#[derive(Clone, Copy, Debug, PartialEq, Eq)]
pub enum Turned {
    Merged,
    Ended,
}

// The merge of the edge chosen, whose number, with 1000 added, is g, after k merges: the larger node is the base, the second end's at equal sizes.
// It is entered in the log before it is done.
fn choose_base(
    w: &mut [u32],
    d: &mut [f64],
    at: Places,
    edge: PoppedEdge,
    g: u32,
    k: usize,
) -> Result<Turned, MergeRefused>
    requires holds_tables { HoldsTables at.edges at.nodes w.old d.old }
    requires standing { Standing at.edges at.nodes k (view at.edges at.nodes w.old d.old) }
    requires chosen { Chosen at.edges (view at.edges at.nodes w.old d.old) edge.edge_number edge.node1 edge.node2 g edge.doubtful }
    requires entry_in { k < at.edges }
    ensures { AnyPick at.edges at.nodes k (view at.edges at.nodes w.old d.old) edge.edge_number w.new d.new result }
{
    let e = edge.edge_number as usize;
    let step = if w[at.size(edge.node1)] > w[at.size(edge.node2)] {
        Step {
            base: edge.node1,
            moved: edge.node2,
            gain: g,
        }
    } else {
        Step {
            base: edge.node2,
            moved: edge.node1,
            gain: layout::MOST - g,
        }
    };
    merge::log::log_merge(w, d, at, e, step, k);
    merge::mark::merge_and_mark(w, d, at, e, step, (k + 1) as u32, edge.doubtful)?;
    Ok(Turned::Merged)
}

// The next merge after k of them.
fn turn(w: &mut [u32], d: &mut [f64], at: Places, k: usize) -> Result<Turned, MergeRefused>
    requires holds_tables { HoldsTables at.edges at.nodes w.old d.old }
    requires standing { Standing at.edges at.nodes k (view at.edges at.nodes w.old d.old) }
    requires entry_in { k < at.edges }
    ensures { AnyTurn at.edges at.nodes k (view at.edges at.nodes w.old d.old) w.new d.new result }
{
    let Some(edge) = pop_edge(w, d, at) else {
        return Ok(Turned::Ended);
    };
    let g = number(edge.diff)?;
    choose_base(w, d, at, edge, g, k)
}

// The run: how many merges there were.
fn run(w: &mut [u32], d: &mut [f64], at: Places) -> Result<usize, MergeRefused>
    requires holds_tables { HoldsTables at.edges at.nodes w.old d.old }
    requires rep { let s = view at.edges at.nodes w.old d.old in Rep at.edges at.nodes (gates_in s) 0 s (first_of at.edges at.nodes s) }
    requires unmarked { Unmarked at.nodes (view at.edges at.nodes w.old d.old) }
    ensures { let s = view at.edges at.nodes w.old d.old in RunIs at.edges at.nodes (gates_in s) (first_of at.edges at.nodes s) w.new d.new result }
{
    for k in 0..at.edges {
        match turn(w, d, at, k)? {
            Turned::Merged => {}
            Turned::Ended => {
                return Ok(k);
            }
        }
    }
    Ok(at.edges)
}

// Each region becomes a circle of its own, with count 0, that was never a base and is not marked.
fn fill_regions(w: &mut [u32], d: &mut [f64], at: Places)
    requires { HoldsTables at.edges at.nodes w.old d.old }
    ensures { LeavesTables at.edges at.nodes w.new d.new (regions_from at.nodes (view at.edges at.nodes w.old d.old) 0) }
{
    for x in 0..at.nodes as u32 {
        w[at.next_region(x)] = x;
        w[at.region_length(x)] = 1;
        w[at.slot_length(x)] = 1;
        w[at.count(x)] = layout::ZERO;
        w[at.stamp(x)] = 0;
        w[at.mark(x)] = 0;
    }
}

// Slot i goes into the circle of node a.
fn link(w: &mut [u32], d: &mut [f64], at: Places, a: u32, i: usize)
    requires holds_tables { HoldsTables at.edges at.nodes w.old d.old }
    requires node_in { a < at.nodes }
    requires slot_in { i < 2 * at.edges }
    requires length_fits { get_or ((view at.edges at.nodes w.old d.old).at elen) a 0 + 1 < 2 ^ 32 }
    ensures { LeavesTables at.edges at.nodes w.new d.new (link_at at.edges a i (view at.edges at.nodes w.old d.old)) }
{
    w.swap(at.head(a), at.slot(i as u32));
    w[at.slot_length(a)] += 1;
}

// Both slots of each edge go into the circles of its ends.
fn link_all(w: &mut [u32], d: &mut [f64], at: Places)
    requires holds_tables { HoldsTables at.edges at.nodes w.old d.old }
    requires linkable { Linkable at.edges at.nodes 0 (view at.edges at.nodes w.old d.old) }
    ensures { LeavesTables at.edges at.nodes w.new d.new (link_from at.edges at.edges (view at.edges at.nodes w.old d.old) 0) }
{
    for j in 0..at.edges {
        let a = w[at.first(j)];
        let b = w[at.second(j)];
        link(w, d, at, a, 2 * j);
        link(w, d, at, b, 2 * j + 1);
    }
}

// The tables before the first merge: each slot a circle of its own, each region too, then the edges' slots linked to their ends.
fn begin(w: &mut [u32], d: &mut [f64], at: Places)
    requires space { Space at.edges at.nodes w.old d.old }
    requires raw { Raw at.edges at.nodes (view at.edges at.nodes w.old d.old) }
    ensures { Begun at.edges at.nodes (view at.edges at.nodes w.old d.old) w.new d.new }
{
    memory::tree::build(w, at.edges);
    memory::words::number(w, at.slot(0), 2 * at.edges + at.nodes);
    fill_regions(w, d, at);
    link_all(w, d, at);
}

// All merges from the edges (ends, weights, differences) and the regions' sizes: how many, with counts, marks and log in their tables, or a
// refusal.
pub fn merge_all(w: &mut [u32], d: &mut [f64], at: Places) -> Result<usize, MergeRefused>
    requires space { Space at.edges at.nodes w.old d.old }
    requires raw { Raw at.edges at.nodes (view at.edges at.nodes w.old d.old) }
    ensures { AllIs at.edges at.nodes (view at.edges at.nodes w.old d.old) w.new d.new result }
{
    begin(w, d, at);
    run(w, d, at)
}
