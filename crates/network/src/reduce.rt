// From labels to the counts and marks of all regions and the log of merges: edges, sizes and all merges, over the layout of the work memory
// (Layout, of the crate memory).
ghost use Rattle.lists.specs.Inside.Seg.{seg};
ghost use Rattle.network.specs.Network.{network_by};
ghost use Rattle.std.specs.Prelude.{◌≡◌};
ghost use Rattle.network.specs.Inside.Reduce.{Reduces, Reduced, Keeps, kept_tables};

use memory::layout;
use merge::merge::MergeRefused;
use merge::places::Places;

// Counts, marks and log of k regions, merged over e edges of n gates, go from the tables to the places where callers look for them.
fn keep_tables(w: &mut [u32], n: usize, e: usize, k: usize)
    requires { Keeps n e k w.old }
    ensures { w.new ≡ kept_tables n e k w.old }
{
    let nodes = k + 1;
    // by sums, not by Places: the log has a place here where there is no edge, and Places's entry asks for one
    let from = layout::TABLES * n + layout::NODES * e;
    let at = n + nodes;
    memory::words::copy(w, from + layout::COUNTS * nodes, at, nodes);
    memory::words::copy(w, from + layout::MARKS * nodes, at + nodes, nodes);
    memory::words::copy(
        w,
        from + layout::NODE_TABLES * nodes,
        at + nodes + nodes,
        layout::ENTRY * (k - 1),
    );
    // label 0 is no region: its count is 0, and it is not marked
    w[at] = layout::ZERO;
    w[at + nodes] = 0;
}

// The labels of n gates are the first n words, k the number of regions.
pub fn reduce(
    w: &mut [u32],
    d: &mut [f64],
    vel: &[f32],
    f: edges::edges::Shape,
    n: usize,
    k: usize,
    two_nyquist: f64,
) -> Result<usize, MergeRefused>
    requires { Reduces f w.old d.old vel.now n k }
    ensures { Reduced (network_by two_nyquist f k (seg w.old 0 n) vel.now) n k w.old w.new result }
{
    let t = layout::TABLES * n;
    let nodes = k + 1;
    let e = edges::edges::find_edges(w, d, vel, f, n, k, t, two_nyquist);
    crate::sizes::count_sizes(w, n, n, nodes);
    let at = Places { edges: e, nodes };
    memory::words::copy(w, n, t + at.size(0), nodes);
    // by sums: the end of all tables is no table's place
    let end = t + layout::NODES * e + layout::NODE_TABLES * nodes + layout::ENTRY * e;
    let r = crate::network::merge_all(&mut w[t..end], d, at);
    keep_tables(w, n, e, k);
    r
}
