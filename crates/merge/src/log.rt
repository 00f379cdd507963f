// The log of merges: one entry a merge, six words each, in its table of the lent words.
ghost use Rattle.std.specs.Prelude.{◌<◌};
ghost use Rattle.merge.specs.Inside.Tables.{view, HoldsTables};
ghost use Rattle.merge.specs.Inside.Steps.{logged};
ghost use Rattle.merge.specs.Inside.Leaves.{LeavesTables};

use crate::merge::Step;
use crate::places::Places;

// The merge of edge e is entered after k others, before it is done: base, moved node, the edge's weight and bridged pairs, what the
// moved node's counts gain, with 1,000 added, and its gates.
pub fn log_merge(w: &mut [u32], d: &[f64], at: Places, e: usize, step: Step, k: usize)
    requires holds_tables { HoldsTables at.edges at.nodes w.old d.now }
    requires edge_in { e < at.edges }
    requires node_in { step.moved < at.nodes }
    requires entry_in { k < at.edges }
    ensures { LeavesTables at.edges at.nodes w.new d.now (logged k e step.base step.moved step.gain (view at.edges at.nodes w.old d.now)) }
{
    let entry = at.entry(k);
    let weight = w[e];
    let bridged = w[at.bridged(e)];
    let gates = w[at.size(step.moved)];
    w[entry] = step.base;
    w[entry + 1] = step.moved;
    w[entry + 2] = weight;
    w[entry + 3] = bridged;
    w[entry + 4] = step.gain;
    w[entry + 5] = gates;
}
