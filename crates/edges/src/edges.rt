// edges.rs: looks, and the edge records gathered from the pairs of pairs.rt into tables of the lent work memory, a table for each field, since the
// library has no heap (memory: Layout).
ghost use Rattle.std.specs.Prelude.{◌≡◌, ◌+◌, ◌-◌, ◌*◌, ◌/◌, ◌%◌, ◌^◌, ◌<◌, ◌≤◌, List, length, slice_set, Float};
ghost use Rattle.lists.specs.Inside.Seg.{seg};
ghost use Rattle.memory.specs.Inside.Layout.{enext_at};
ghost use Rattle.edges.specs.Edges.{next, sees, bridges, skip, begun, plus, difference, pairs, used};
ghost use Rattle.edges.specs.Inside.Whole.{FindsEdges, Edged};
ghost use Rattle.edges.specs.Inside.Gather.{sorted_at, pair_at, later, ReadsPairs, Legible, LabelsAt, written, Gathers, Gathered};
ghost use Rattle.edges.specs.Inside.Order.{runs};
ghost use Rattle.edges.specs.Inside.Sorts.{with_labels, Reads, Sorts, Sorted};
ghost use Rattle.edges.specs.Inside.Sees.{answer, sighted, Inside, Looks};

use crate::pairs::{GatePair, pair_all, stored_pair};
use memory::layout;

// Two labels, the number of their pairs, the sums of the velocities at either end, and how many of the pairs are bridged.
#[derive(Clone, Copy)]
pub struct EdgeRecord {
    pub one: u32,
    pub two: u32,
    pub count: u32,
    pub sum1: f64,
    pub sum2: f64,
    pub bridged: u32,
}

// Rays, gates per ray, the two skips, and whether rays wrap: 1, and a number, as `next` of specs/Edges and the options take it.
#[derive(Clone, Copy)]
pub struct Shape {
    pub rays: usize,
    pub gates: usize,
    pub skip_between_rays: usize,
    pub skip_along_ray: usize,
    pub wrap: u32,
}

#[derive(Clone, Copy)]
pub enum Direction {
    Left,
    Right,
    Top,
    Bottom,
}

// A look's gate, and whether the look took more than one step.
#[derive(Clone, Copy)]
pub struct Sight {
    pub gate: usize,
    pub bridged: bool,
}

impl Shape {
    // The gate one step from gate g; none where the step leaves the sweep.
    #[tactic(auto, unfolding(crate::specs::Edges::next))]
    fn next(self, d: Direction, g: usize) -> Option<usize>
        requires { Inside self g }
        ensures { answer result ≡ next self d g }
    {
        let gates = self.gates;
        match d {
            Direction::Left if gates <= g => Some(g - gates),
            Direction::Left if self.wrap == 1 => Some(g + (self.rays - 1) * gates),
            Direction::Right if g + gates < self.rays * gates => Some(g + gates),
            Direction::Right if self.wrap == 1 => Some(g % gates),
            Direction::Top if g % gates != 0 => Some(g - 1),
            Direction::Bottom if (g + 1) % gates != 0 => Some(g + 1),
            _ => None,
        }
    }

    // How many further steps a look takes.
    #[tactic(auto, unfolding(crate::specs::Edges::skip))]
    fn skip(self, d: Direction) -> usize
        ensures { result ≡ skip self d }
    {
        match d {
            Direction::Left | Direction::Right => self.skip_between_rays,
            Direction::Top | Direction::Bottom => self.skip_along_ray,
        }
    }

    // The gate that gate g sees, over no more gates of label 0 than the skip allows.
    pub fn sees(self, labels: &[u32], d: Direction, g: usize) -> Option<Sight>
        requires { Looks self labels.now g }
        ensures { result ≡ sighted (bridges self labels.now d g) (sees self labels.now d g) }
    {
        let most = self.skip(d);
        let mut h = g;
        for skipped in 0..=most {
            h = self.next(d, h)?;
            if labels[h] != 0 {
                return Some(Sight {
                    gate: h,
                    bridged: skipped > 0,
                });
            }
        }
        None
    }
}

// The labels of the gates of m pairs, and of the gates that these see, where the sort looks for them.
fn labels_of(w: &mut [u32], n: usize, m: usize)
    requires { Reads w.old n m }
    ensures { w.new ≡ with_labels w.old n m m }
{
    let one = layout::ORDER * n + m + m;
    let two = one + m;
    for i in 0..m {
        let p = stored_pair(w, n, i);
        w[one + i] = w[p.gate];
        w[two + i] = w[p.far];
    }
}

// The pairs' numbers, by second label and then first.
pub fn sort_pairs(w: &mut [u32], n: usize, m: usize, k: usize)
    requires { Sorts w.old n m k }
    ensures { Sorted w.old w.new n m k }
{
    let base = layout::ORDER * n;
    memory::words::number(w, base, m);
    labels_of(w, n, m);
    memory::sort::sort2(w, base, m, m, k);
}

// Two labels, the velocities at either end, and whether the look was bridged.
#[derive(Clone, Copy)]
pub struct Pair {
    pub one: u32,
    pub two: u32,
    pub vel1: f64,
    pub vel2: f64,
    pub bridged: bool,
}

impl EdgeRecord {
    // The record of one pair.
    #[tactic(auto, unfolding(crate::specs::Edges::begun, crate::specs::Edges::plus_one_if))]
    fn begun(p: Pair) -> EdgeRecord
        ensures { result ≡ begun p }
    {
        EdgeRecord {
            one: p.one,
            two: p.two,
            count: 1,
            sum1: p.vel1,
            sum2: p.vel2,
            bridged: u32::from(p.bridged),
        }
    }

    // The same with one more pair.
    #[tactic(auto, unfolding(crate::specs::Edges::plus, crate::specs::Edges::plus_one_if))]
    fn plus(self, p: Pair) -> EdgeRecord
        requires { (self.count + 1 < 2 ^ 32) × (self.bridged ≤ self.count) }
        ensures { result ≡ plus self p }
    {
        EdgeRecord {
            one: self.one,
            two: self.two,
            count: self.count + 1,
            sum1: self.sum1 + p.vel1,
            sum2: self.sum2 + p.vel2,
            bridged: self.bridged + u32::from(p.bridged),
        }
    }

    // The difference of the sums, in f32.
    #[tactic(auto, unfolding(crate::specs::Edges::difference))]
    fn difference(self, two_nyquist: f64) -> f64
        ensures { result ≡ difference two_nyquist self }
    {
        let y = arithmetic::narrow::to_f32((self.sum1 - self.sum2) / two_nyquist);
        std::num::f32_to_f64_with_nan(y)
    }
}

// The i-th of the sorted pairs, as gates.
fn gates_at(w: &[u32], n: usize, m: usize, i: usize) -> GatePair
    requires legible { Legible w.now n m }
    requires i_lt_m { i < m }
    ensures sorted { result ≡ sorted_at w.now n i }
    ensures inside { (result.gate < n) × (result.far < n) }
{
    stored_pair(w, n, w[layout::ORDER * n + i] as usize)
}

// The i-th of the sorted pairs.
#[tactic(auto, using(crate::proofs::PairTurn::label_at), unfolding(crate::specs::Inside::Gather::pair_at, crate::specs::Inside::GatePairs::pair_of))]
fn pair_at(w: &[u32], vel: &[f32], n: usize, m: usize, i: usize) -> Pair
    requires reads_pairs { ReadsPairs w.now vel.now n m }
    requires i_lt_m { i < m }
    ensures { result ≡ pair_at w.now vel.now n i }
{
    let p = gates_at(w, n, m, i);
    Pair {
        one: w[p.gate],
        two: w[p.far],
        vel1: std::num::f32_to_f64_with_nan(vel[p.gate]),
        vel2: std::num::f32_to_f64_with_nan(vel[p.far]),
        bridged: p.bridged,
    }
}

// Its labels.
#[tactic(auto, using(crate::proofs::PairTurn::label_at), unfolding(crate::specs::Inside::Gather::pair_at, crate::specs::Inside::GatePairs::pair_of))]
fn labels_at(w: &[u32], n: usize, m: usize, i: usize) -> (u32, u32)
    requires legible { Legible w.now n m }
    requires i_lt_m { i < m }
    ensures { LabelsAt w.now n i result }
{
    let p = gates_at(w, n, m, i);
    (w[p.gate], w[p.far])
}

// The record written as edge e.
#[tactic(auto, unfolding(crate::specs::Inside::Gather::written))]
fn put_edge(
    w: &mut [u32],
    d: &mut [f64],
    t: usize,
    c: usize,
    two_nyquist: f64,
    s: EdgeRecord,
    e: usize,
)
    requires words { t + enext_at c ≤ length w.old }
    requires diffs { c ≤ length d.old }
    requires place { e < c }
    ensures w_after { w.new ≡ written w.old t c e s }
    ensures d_after { d.new ≡ slice_set d.old e (difference two_nyquist s) }
{
    w[t + e] = s.count;
    w[t + layout::FIRST * c + e] = s.one;
    w[t + layout::SECOND * c + e] = s.two;
    w[t + layout::BRIDGED * c + e] = s.bridged;
    d[e] = s.difference(two_nyquist);
}

// The sorted pairs gathered into edges: a pair goes on with the record before it, or that is written and another begun. Gives how many.
// The numbers stand one by one, as `Gathers` and `Gathered` take them: a struct would say no more.
pub fn gather(
    w: &mut [u32],
    d: &mut [f64],
    vel: &[f32],
    n: usize,
    m: usize,
    t: usize,
    c: usize,
    two_nyquist: f64,
) -> usize
    requires { Gathers w.old d.old vel.now n m t c }
    ensures { Gathered two_nyquist w.old w.new d.old d.new t c result (runs (later w.old vel.now n m 0)) }
{
    if m == 0 {
        return 0;
    }
    let mut s = EdgeRecord::begun(pair_at(w, vel, n, m, 0));
    let mut e = 0;
    for i in 1..m {
        let p = pair_at(w, vel, n, m, i);
        if (s.one, s.two) == (p.one, p.two) {
            s = s.plus(p);
        } else {
            put_edge(w, d, t, c, two_nyquist, s, e);
            s = EdgeRecord::begun(p);
            e += 1;
        }
    }
    put_edge(w, d, t, c, two_nyquist, s, e);
    e + 1
}

// How many runs of equal labels the sorted pairs have.
pub fn count_runs(w: &[u32], n: usize, m: usize) -> usize
    requires { Legible w.now n m }
    ensures { (vel : List Float) → result ≡ length (runs (later w.now vel n m 0)) }
{
    if m == 0 {
        return 0;
    }
    let mut p = labels_at(w, n, m, 0);
    let mut e = 1;
    for i in 1..m {
        let q = labels_at(w, n, m, i);
        e += usize::from(p != q);
        p = q;
    }
    e
}

// The edges of a labelled sweep, of labels 0 to k, in tables from t on. Gives how many.
pub fn find_edges(
    w: &mut [u32],
    d: &mut [f64],
    vel: &[f32],
    f: Shape,
    n: usize,
    k: usize,
    t: usize,
    two_nyquist: f64,
) -> usize
    requires { FindsEdges f w.old d.old vel.now n k t }
    ensures { Edged two_nyquist n w.old w.new d.new t result (used k (pairs f (seg w.old 0 n) vel.now)) }
{
    let m = pair_all(w, n, f);
    sort_pairs(w, n, m, k + 1);
    let e = count_runs(w, n, m);
    gather(w, d, vel, n, m, t, e, two_nyquist)
}
