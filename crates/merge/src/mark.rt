// Marks: the regions of the moved node of a doubtful merge, in their table of the lent words.
ghost use Rattle.std.specs.Prelude.{◌<◌};
ghost use Rattle.merge.specs.Inside.Tables.{view, HoldsTables, Sound, with_table};
ghost use Rattle.merge.specs.Inside.Table.{mark as markTable};
ghost use Rattle.merge.specs.Inside.Steps.{marked_all, mark_if, merged};
ghost use Rattle.merge.specs.Inside.Leaves.{LeavesTables, Raised, Gains, Fit};

use crate::merge::{MergeRefused, Step};
use crate::places::Places;

// The regions of node v are marked.
fn walk_mark(w: &mut [u32], d: &mut [f64], at: Places, v: u32)
    requires holds_tables { HoldsTables at.edges at.nodes w.old d.old }
    requires sound { Sound at.edges at.nodes (view at.edges at.nodes w.old d.old) }
    requires node_in { v < at.nodes }
    ensures { let s = view at.edges at.nodes w.old d.old in
        LeavesTables at.edges at.nodes w.new d.new (with_table markTable (marked_all v s) s) }
{
    let l = w[at.region_length(v)];
    let mut x = v;
    for _ in 0..l {
        w[at.mark(x)] = 1;
        x = w[at.next_region(x)];
    }
}

// The regions of v, the moved node, are marked if its merge is doubtful.
fn mark(w: &mut [u32], d: &mut [f64], at: Places, v: u32, doubtful: bool)
    requires holds_tables { HoldsTables at.edges at.nodes w.old d.old }
    requires sound { Sound at.edges at.nodes (view at.edges at.nodes w.old d.old) }
    requires node_in { v < at.nodes }
    ensures { LeavesTables at.edges at.nodes w.new d.new (mark_if doubtful v (view at.edges at.nodes w.old d.old)) }
{
    if doubtful {
        walk_mark(w, d, at, v);
    }
}

// Merge number k, of edge e, with the moved node's regions marked if it is doubtful.
pub fn merge_and_mark(
    w: &mut [u32],
    d: &mut [f64],
    at: Places,
    e: usize,
    step: Step,
    k: u32,
    doubtful: bool,
) -> Result<(), MergeRefused>
    requires holds_tables { HoldsTables at.edges at.nodes w.old d.old }
    requires sound { Sound at.edges at.nodes (view at.edges at.nodes w.old d.old) }
    requires gains { Gains at.nodes step.base step.moved step.gain }
    requires fit { Fit at.nodes step.base step.moved (view at.edges at.nodes w.old d.old) }
    requires edge_in { e < at.edges }
    ensures { Raised at.edges at.nodes w.new d.new (merged at.edges k e step.base step.moved step.gain (mark_if doubtful step.moved (view at.edges at.nodes w.old d.old))) result }
{
    mark(w, d, at, step.moved, doubtful);
    crate::merge::merge(w, d, at, e, step, k)
}
