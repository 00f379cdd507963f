// edges.rs: the pairs of gates that see each other, as the lent work memory holds them: in parts side by side, since the library has no heap
// (memory: Layout). The words, n, the shape and the number of pairs are handed on one by one: of a struct with the `&mut` words in it each contract
// would have to say that n and the shape stay.
ghost use Rattle.std.specs.Prelude.{◌≡◌, ◌+◌, ◌-◌, ◌*◌, ◌^◌, ◌<◌, ◌≤◌, true, length, slice_index};
ghost use Rattle.std.proofs.Math.Option.{some};
ghost use Rattle.lists.specs.Inside.Seg.{seg};
ghost use Rattle.memory.specs.Inside.Layout.{gate_at, far_at};
ghost use Rattle.edges.specs.Inside.GatePairs.{coded, gates_by, gate_pair_to, gate_pair_along, gate_pairs_of, gate_pairs_at, gate_pairs};
ghost use Rattle.edges.specs.Inside.GatePairs.{AddsPairs, Sheet, Puts, Place, LabelledGate, Amid, LabelledAmid};

use crate::edges::{Direction, Shape};
use memory::layout;

// A gate, the gate that it sees, and whether the look was bridged.
#[derive(Clone, Copy)]
pub struct GatePair {
    pub gate: usize,
    pub far: usize,
    pub bridged: bool,
}

// The word of a gate of a pair.
#[tactic(auto, unfolding(crate::specs::Inside::GatePairs::coded, crate::specs::Edges::plus_one_if))]
fn coded(g: usize, bridged: bool) -> u32
    requires { 2 * g + 1 < 2 ^ 32 }
    ensures { result ≡ coded bridged g }
{
    2 * g as u32 + u32::from(bridged)
}

// Pair x, as it is stored.
pub(crate) fn stored_pair(w: &[u32], n: usize, x: usize) -> GatePair
    requires { far_at n + x < length w.now }
    ensures { result ≡ gates_by (slice_index w.now (gate_at n + x)) (slice_index w.now (far_at n + x)) }
{
    let far = w[layout::SEEN * n + x];
    GatePair {
        gate: (w[n + x] / 2) as usize,
        far: (far / 2) as usize,
        bridged: far % 2 == 1,
    }
}

// Gates g and h as pair c, if the first label is the greater. Gives how many pairs there are then.
fn put_pair(w: &mut [u32], n: usize, g: usize, h: usize, bridged: bool, c: usize) -> usize
    requires { Puts n w.old g h c }
    ensures { AddsPairs n w.old w.new c result (gate_pair_to (seg w.old 0 n) g bridged (some h)) }
{
    if w[g] <= w[h] {
        return c;
    }
    w[n + c] = coded(g, bridged);
    w[layout::SEEN * n + c] = coded(h, bridged);
    c + 1
}

// Gate g and the gate that it sees one way, as pair c, if its label is the greater. Gives how many pairs there are then.
fn pair_one(w: &mut [u32], n: usize, f: Shape, d: Direction, g: usize, c: usize) -> usize
    requires { Place f n w.old g c 1 }
    ensures { AddsPairs n w.old w.new c result (gate_pairs_of f (seg w.old 0 n) g d) }
{
    match f.sees(&w[..n], d, g) {
        Some(s) => put_pair(w, n, g, s.gate, s.bridged, c),
        None => c,
    }
}

// The pairs of a labelled gate, by looks in the four directions.
fn pair_looks(w: &mut [u32], n: usize, f: Shape, g: usize, c: usize) -> usize
    requires { LabelledGate f n w.old g c 4 }
    ensures { AddsPairs n w.old w.new c result (gate_pairs_at f (seg w.old 0 n) g) }
{
    let c1 = pair_one(w, n, f, Direction::Left, g, c);
    let c2 = pair_one(w, n, f, Direction::Right, g, c1);
    let c3 = pair_one(w, n, f, Direction::Top, g, c2);
    pair_one(w, n, f, Direction::Bottom, g, c3)
}

// Whether the gates beside gate g, on the rays before and after and just before and after it, are there and labelled.
fn is_amid(w: &[u32], n: usize, gates: usize, g: usize) -> bool
    requires { (g < n) × (n ≤ length w.now) × (0 < gates) }
    ensures { result ≡ true → Amid w.now n gates g }
{
    gates <= g
        && gates < n - g
        && w[g - gates] != 0
        && w[g + gates] != 0
        && w[g - 1] != 0
        && w[g + 1] != 0
}

// Gate g and the gate h just before or after it in the words, as pair c, if they lie on one ray and the first label is the greater. The labels
// are compared first, since most are equal. Gives how many pairs there are then.
fn pair_along(w: &mut [u32], n: usize, gates: usize, g: usize, h: usize, c: usize) -> usize
    requires puts { Puts n w.old g h c }
    requires some_gates { 0 < gates }
    ensures { AddsPairs n w.old w.new c result (gate_pair_along gates (seg w.old 0 n) g h) }
{
    if w[g] <= w[h] || g.max(h) % gates == 0 {
        return c;
    }
    put_pair(w, n, g, h, false, c)
}

// The pairs of a labelled gate amid labelled gates: comparisons decide them, with no look.
fn pair_amid(w: &mut [u32], n: usize, f: Shape, g: usize, c: usize) -> usize
    requires { LabelledAmid f n w.old g c 4 }
    ensures { AddsPairs n w.old w.new c result (gate_pairs_at f (seg w.old 0 n) g) }
{
    let gates = f.gates;
    let c1 = put_pair(w, n, g, g - gates, false, c);
    let c2 = put_pair(w, n, g, g + gates, false, c1);
    let c3 = pair_along(w, n, gates, g, g - 1, c2);
    pair_along(w, n, gates, g, g + 1, c3)
}

// The pairs of gate g.
fn pair_gate(w: &mut [u32], n: usize, f: Shape, g: usize, c: usize) -> usize
    requires { Place f n w.old g c 4 }
    ensures { AddsPairs n w.old w.new c result (gate_pairs_at f (seg w.old 0 n) g) }
{
    if w[g] == 0 {
        return c;
    }
    if is_amid(w, n, f.gates, g) {
        return pair_amid(w, n, f, g, c);
    }
    pair_looks(w, n, f, g, c)
}

// All pairs, in scan order.
pub fn pair_all(w: &mut [u32], n: usize, f: Shape) -> usize
    requires { Sheet f n w.old }
    ensures adds_pairs { AddsPairs n w.old w.new 0 result (gate_pairs f (seg w.old 0 n)) }
    ensures upper_bound { result ≤ 4 * n }
{
    let mut c = 0;
    for g in 0..n {
        c = pair_gate(w, n, f, g, c);
    }
    c
}
