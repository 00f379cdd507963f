// One merge of the network, over lent words and lent differences. Places says where each word of the tables lies, specs/Inside/Steps.antt
// what each function does to the tables.
// The words w and the differences d stay two parameters, and HoldsTables and Sound stay clauses on them: of a struct with two `&mut` fields, each
// function would have to ensure besides that they are still the same references.
ghost use Rattle.std.specs.Prelude.{◌≡◌, ◌<◌, ◌≤◌, T, slice_index};
ghost use Rattle.std.specs.Float.{binary32};
ghost use Rattle.std.specs.Float.Ieee.{fits};
ghost use Rattle.arithmetic.specs.Rounding.{scale};
ghost use Rattle.merge.specs.Inside.Tables.{view, HoldsTables, Sound, store};
ghost use Rattle.merge.specs.Inside.Table.{bridged, stamp, rlen};
ghost use Rattle.merge.specs.Inside.Steps.{unbias, spent, passed, kept, drop_at, pruned, face_at, joins_at, seek_all, mate, hand_over, absorb_at, attach_at, join_edge, shift};
ghost use Rattle.merge.specs.Inside.Steps.{moved_edge, take_edge, moved_all, walk_raise, splice, grow, handed, merged};
ghost use Rattle.merge.specs.Inside.Leaves.{LeavesTables, Raised, Passes, Slots, OtherEdge, Joins, Gains, Fit};

use crate::places::Places;
use memory::layout;

// Question 9 says no.
#[derive(Clone, Copy, Debug, PartialEq, Eq)]
pub struct MergeRefused;

// Node `moved` goes into node `base`, and the counts of its regions gain `gain` - 1000. What Gains and Fit say of it ties it to the tables, and what a
// step alone could keep of that would be asked of the log too, which takes any.
#[derive(Clone, Copy)]
pub struct Step {
    pub base: u32,
    pub moved: u32,
    pub gain: u32,
}

// The f32 that an f64 is.
fn single(x: f64) -> f32
    requires { T (fits binary32 x) }
    ensures { result ≡ x }
{
    if x.is_nan() {
        return f32::NAN;
    }
    x as f32
}

// weight times number, rounded to f32; the number is kept with 1000 added.
fn scaled(w: u32, g: u32) -> f32
    requires { g ≤ 2000 }
    ensures { result ≡ scale w (unbias g) }
{
    let folds = i64::from(g) - i64::from(layout::ZERO);
    let product = i64::from(w) * folds;
    arithmetic::whole::nearest_i64_to_f32(product)
}

// A difference that follows a gain, or with `minus` the same gain taken away.
fn shift(d: f32, w: u32, g: u32, minus: bool) -> f32
    requires { g ≤ 2000 }
    ensures { result ≡ shift minus g w d }
{
    if g == layout::ZERO {
        return d;
    }
    let gain = scaled(w, g);
    if minus {
        return d + -gain;
    }
    d + gain
}

// Edge f is stored as it stands: from the end that was a base later.
fn face(w: &mut [u32], d: &mut [f64], at: Places, f: usize)
    requires holds_tables { HoldsTables at.edges at.nodes w.old d.old }
    requires sound { Sound at.edges at.nodes (view at.edges at.nodes w.old d.old) }
    requires edge_in { f < at.edges }
    ensures { LeavesTables at.edges at.nodes w.new d.new (face_at (view at.edges at.nodes w.old d.old) f) }
{
    let x = w[at.first(f)];
    let y = w[at.second(f)];
    if w[at.stamp(y)] <= w[at.stamp(x)] {
        return;
    }
    w[at.first(f)] = y;
    w[at.second(f)] = x;
    d[f] = -d[f];
}

// Whether slot x is needed by no walk: an old header, or a slot of a dead edge.
fn is_spent(w: &[u32], d: &[f64], at: Places, x: u32) -> bool
    requires { HoldsTables at.edges at.nodes w.now d.now }
    ensures { result ≡ spent at.edges (view at.edges at.nodes w.now d.now) x }
{
    let f = (x / 2) as usize;
    if f >= at.edges {
        return true;
    }
    w[f] == 0
}

// Slot x, the next after p in node b's chain, becomes a circle of its own.
fn drop_slot(w: &mut [u32], d: &mut [f64], at: Places, b: u32, p: u32, x: u32)
    requires holds_tables { HoldsTables at.edges at.nodes w.old d.old }
    requires slots { Slots at.edges at.nodes b p x (view at.edges at.nodes w.old d.old) }
    ensures { LeavesTables at.edges at.nodes w.new d.new (drop_at b (view at.edges at.nodes w.old d.old) p x) }
{
    w[at.slot(p)] = w[at.slot(x)];
    w[at.slot(x)] = x;
    w[at.slot_length(b)] -= 1;
}

// Slot x of node b's chain is dropped where it is spent; the last slot kept is returned.
fn pass_slot(w: &mut [u32], d: &mut [f64], at: Places, b: u32, p: u32, x: u32) -> u32
    requires holds_tables { HoldsTables at.edges at.nodes w.old d.old }
    requires slots { Slots at.edges at.nodes b p x (view at.edges at.nodes w.old d.old) }
    ensures { Passes at.edges at.nodes w.new d.new (passed at.edges b (view at.edges at.nodes w.old d.old) p x) (kept at.edges (view at.edges at.nodes w.old d.old) p x) result }
{
    if is_spent(w, d, at, x) {
        drop_slot(w, d, at, b, p, x);
        return p;
    }
    x
}

// The spent slots of node b's chain are dropped.
fn prune(w: &mut [u32], d: &mut [f64], at: Places, b: u32)
    requires holds_tables { HoldsTables at.edges at.nodes w.old d.old }
    requires sound { Sound at.edges at.nodes (view at.edges at.nodes w.old d.old) }
    requires node_in { b < at.nodes }
    ensures { LeavesTables at.edges at.nodes w.new d.new (pruned at.edges b (view at.edges at.nodes w.old d.old)) }
{
    let l = w[at.slot_length(b)];
    let mut p = at.header(b);
    let mut x = w[at.head(b)];
    for _ in 1..l {
        let next = w[at.slot(x)];
        p = pass_slot(w, d, at, b, p, x);
        x = next;
    }
}

// Whether edge f is live and joins b and c.
fn joins(w: &[u32], d: &[f64], at: Places, b: u32, c: u32, f: usize) -> bool
    requires { HoldsTables at.edges at.nodes w.now d.now }
    ensures { result ≡ joins_at at.edges b c (view at.edges at.nodes w.now d.now) f }
{
    if f >= at.edges {
        return false;
    }
    if w[f] == 0 {
        return false;
    }
    let x = w[at.first(f)];
    let y = w[at.second(f)];
    if x == b {
        return y == c;
    }
    if x == c {
        return y == b;
    }
    false
}

// The first edge of node h's chain that joins b and c.
fn seek(w: &[u32], d: &[f64], at: Places, b: u32, c: u32, h: u32) -> Option<usize>
    requires holds_tables { HoldsTables at.edges at.nodes w.now d.now }
    requires sound { Sound at.edges at.nodes (view at.edges at.nodes w.now d.now) }
    requires node_in { h < at.nodes }
    ensures { result ≡ seek_all at.edges b c (view at.edges at.nodes w.now d.now) h }
{
    let l = w[at.slot_length(h)];
    let mut x = w[at.head(h)];
    for _ in 1..l {
        let f = (x / 2) as usize;
        if joins(w, d, at, b, c, f) {
            return Some(f);
        }
        x = w[at.slot(x)];
    }
    None
}

// The base's live edge to c, looked for along the shorter of their chains.
fn mate(w: &[u32], d: &[f64], at: Places, b: u32, c: u32) -> Option<usize>
    requires holds_tables { HoldsTables at.edges at.nodes w.now d.now }
    requires sound { Sound at.edges at.nodes (view at.edges at.nodes w.now d.now) }
    requires nodes_in { (b < at.nodes) × (c < at.nodes) }
    ensures { result ≡ mate at.edges b (view at.edges at.nodes w.now d.now) c }
{
    let h = if w[at.slot_length(b)] < w[at.slot_length(c)] {
        b
    } else {
        c
    };
    seek(w, d, at, b, c, h)
}

// Edge f's bridged pairs go to edge q.
fn hand_bridged(w: &mut [u32], d: &mut [f64], at: Places, q: usize, f: usize)
    requires holds_tables { HoldsTables at.edges at.nodes w.old d.old }
    requires sound { Sound at.edges at.nodes (view at.edges at.nodes w.old d.old) }
    requires other_edge { OtherEdge at.edges q f }
    ensures { LeavesTables at.edges at.nodes w.new d.new (hand_over bridged (view at.edges at.nodes w.old d.old) q f) }
{
    let b = w[at.bridged(f)];
    if b == 0 {
        return;
    }
    let t = w[at.bridged(q)] + b;
    w[at.bridged(q)] = t;
    w[at.bridged(f)] = 0;
}

// Edge q takes up edge f, whose difference is x.
fn absorb(w: &mut [u32], d: &mut [f64], at: Places, q: usize, f: usize, x: f32)
    requires holds_tables { HoldsTables at.edges at.nodes w.old d.old }
    requires sound { Sound at.edges at.nodes (view at.edges at.nodes w.old d.old) }
    requires other_edge { OtherEdge at.edges q f }
    ensures { LeavesTables at.edges at.nodes w.new d.new (absorb_at (view at.edges at.nodes w.old d.old) q f x) }
{
    d[q] = std::num::f32_to_f64_with_nan(single(d[q]) + x);
    hand_bridged(w, d, at, q, f);
    let t = w[q] + w[f];
    memory::tree::weigh(w, at.edges, q, t);
    memory::tree::weigh(w, at.edges, f, 0);
}

// Edge f becomes the base's edge to c.
fn attach(w: &mut [u32], d: &mut [f64], at: Places, b: u32, f: usize, c: u32, x: f32)
    requires holds_tables { HoldsTables at.edges at.nodes w.old d.old }
    requires edge_in { f < at.edges }
    ensures { LeavesTables at.edges at.nodes w.new d.new (attach_at b (view at.edges at.nodes w.old d.old) f c x) }
{
    w[at.first(f)] = b;
    w[at.second(f)] = c;
    d[f] = std::num::f32_to_f64_with_nan(x);
}

// Edge f, of the moved node, becomes the base's edge to c, or goes into the one that the base has.
fn join_edge(w: &mut [u32], d: &mut [f64], at: Places, b: u32, f: usize, c: u32, x: f32)
    requires holds_tables { HoldsTables at.edges at.nodes w.old d.old }
    requires sound { Sound at.edges at.nodes (view at.edges at.nodes w.old d.old) }
    requires joins { Joins at.edges at.nodes b (view at.edges at.nodes w.old d.old) f c }
    ensures { LeavesTables at.edges at.nodes w.new d.new (join_edge at.edges b (view at.edges at.nodes w.old d.old) f c x) }
{
    match mate(w, d, at, b, c) {
        Some(q) => {
            face(w, d, at, q);
            absorb(w, d, at, q, f, x);
        }
        None => attach(w, d, at, b, f, c, x),
    }
}

// Edge f, if it is live and the moved node's, goes to the base.
fn moved_edge(w: &mut [u32], d: &mut [f64], at: Places, step: Step, f: usize)
    requires holds_tables { HoldsTables at.edges at.nodes w.old d.old }
    requires sound { Sound at.edges at.nodes (view at.edges at.nodes w.old d.old) }
    requires gains { Gains at.nodes step.base step.moved step.gain }
    requires edge_in { f < at.edges }
    ensures { LeavesTables at.edges at.nodes w.new d.new (moved_edge at.edges step.base step.moved step.gain (view at.edges at.nodes w.old d.old) f) }
{
    let t = w[f];
    if t == 0 {
        return;
    }
    let x = w[at.first(f)];
    let y = w[at.second(f)];
    let z = single(d[f]);
    if x == step.moved {
        join_edge(w, d, at, step.base, f, y, shift(z, t, step.gain, false));
    } else if y == step.moved {
        join_edge(w, d, at, step.base, f, x, -shift(z, t, step.gain, true));
    }
}

// The same of any slot's edge number: edge f is first stored as it stands; the numbers from `at.edges` on are those of headers, and nothing is done.
fn take_edge(w: &mut [u32], d: &mut [f64], at: Places, step: Step, f: usize)
    requires holds_tables { HoldsTables at.edges at.nodes w.old d.old }
    requires sound { Sound at.edges at.nodes (view at.edges at.nodes w.old d.old) }
    requires gains { Gains at.nodes step.base step.moved step.gain }
    ensures { LeavesTables at.edges at.nodes w.new d.new (take_edge at.edges step.base step.moved step.gain (view at.edges at.nodes w.old d.old) f) }
{
    if f >= at.edges {
        return;
    }
    face(w, d, at, f);
    moved_edge(w, d, at, step, f);
}

// All of the moved node's edges go to the base.
fn walk_moved(w: &mut [u32], d: &mut [f64], at: Places, step: Step)
    requires holds_tables { HoldsTables at.edges at.nodes w.old d.old }
    requires sound { Sound at.edges at.nodes (view at.edges at.nodes w.old d.old) }
    requires gains { Gains at.nodes step.base step.moved step.gain }
    ensures { LeavesTables at.edges at.nodes w.new d.new (moved_all at.edges step.base step.moved step.gain (view at.edges at.nodes w.old d.old)) }
{
    let l = w[at.slot_length(step.moved)];
    let mut x = w[at.head(step.moved)];
    for _ in 1..l {
        let next = w[at.slot(x)];
        take_edge(w, d, at, step, (x / 2) as usize);
        x = next;
    }
}

// The counts of v's regions gain g - 1000, none of which may leave -1000 to 1000.
fn walk_raise(w: &mut [u32], d: &mut [f64], at: Places, v: u32, g: u32) -> Result<(), MergeRefused>
    requires holds_tables { HoldsTables at.edges at.nodes w.old d.old }
    requires sound { Sound at.edges at.nodes (view at.edges at.nodes w.old d.old) }
    requires node_in { v < at.nodes }
    requires gain_in { g ≤ 2000 }
    ensures { Raised at.edges at.nodes w.new d.new (walk_raise (slice_index ((view at.edges at.nodes w.old d.old).at rlen) v) g (view at.edges at.nodes w.old d.old) v) result }
{
    let l = w[at.region_length(v)];
    let mut x = v;
    for _ in 0..l {
        let t = w[at.count(x)] + g;
        if t < layout::ZERO {
            return Err(MergeRefused);
        }
        if t > 3000 {
            return Err(MergeRefused);
        }
        w[at.count(x)] = t - layout::ZERO;
        x = w[at.next_region(x)];
    }
    Ok(())
}

// v's chains are joined to b's: each of the two first links becomes the other's.
fn splice(w: &mut [u32], d: &mut [f64], at: Places, b: u32, v: u32)
    requires holds_tables { HoldsTables at.edges at.nodes w.old d.old }
    requires nodes_in { (b < at.nodes) × (v < at.nodes) }
    ensures { LeavesTables at.edges at.nodes w.new d.new (splice at.edges b v (view at.edges at.nodes w.old d.old)) }
{
    w.swap(at.head(b), at.head(v));
    w.swap(at.next_region(b), at.next_region(v));
}

// The base's size and the lengths of its chains grow by v's.
fn grow(w: &mut [u32], d: &mut [f64], at: Places, b: u32, v: u32)
    requires holds_tables { HoldsTables at.edges at.nodes w.old d.old }
    requires fit { Fit at.nodes b v (view at.edges at.nodes w.old d.old) }
    ensures { LeavesTables at.edges at.nodes w.new d.new (grow b v (view at.edges at.nodes w.old d.old)) }
{
    w[at.size(b)] += w[at.size(v)];
    w[at.slot_length(b)] += w[at.slot_length(v)];
    w[at.region_length(b)] += w[at.region_length(v)];
}

// Node b is the base of merge number k.
fn stamp(w: &mut [u32], d: &mut [f64], at: Places, b: u32, k: u32)
    requires holds_tables { HoldsTables at.edges at.nodes w.old d.old }
    requires node_in { b < at.nodes }
    ensures { LeavesTables at.edges at.nodes w.new d.new (store stamp (view at.edges at.nodes w.old d.old) b k) }
{
    w[at.stamp(b)] = k;
}

// The moved node's edges and regions go to the base, the spent slots of its chain dropped before.
fn hand(w: &mut [u32], d: &mut [f64], at: Places, step: Step)
    requires holds_tables { HoldsTables at.edges at.nodes w.old d.old }
    requires sound { Sound at.edges at.nodes (view at.edges at.nodes w.old d.old) }
    requires gains { Gains at.nodes step.base step.moved step.gain }
    requires fit { Fit at.nodes step.base step.moved (view at.edges at.nodes w.old d.old) }
    ensures { LeavesTables at.edges at.nodes w.new d.new (handed at.edges step.base step.moved step.gain (view at.edges at.nodes w.old d.old)) }
{
    prune(w, d, at, step.moved);
    walk_moved(w, d, at, step);
    splice(w, d, at, step.base, step.moved);
    grow(w, d, at, step.base, step.moved);
}

// Merge number k, of edge e.
pub fn merge(
    w: &mut [u32],
    d: &mut [f64],
    at: Places,
    e: usize,
    step: Step,
    k: u32,
) -> Result<(), MergeRefused>
    requires holds_tables { HoldsTables at.edges at.nodes w.old d.old }
    requires sound { Sound at.edges at.nodes (view at.edges at.nodes w.old d.old) }
    requires gains { Gains at.nodes step.base step.moved step.gain }
    requires fit { Fit at.nodes step.base step.moved (view at.edges at.nodes w.old d.old) }
    requires edge_in { e < at.edges }
    ensures { Raised at.edges at.nodes w.new d.new (merged at.edges k e step.base step.moved step.gain (view at.edges at.nodes w.old d.old)) result }
{
    memory::tree::weigh(w, at.edges, e, 0);
    stamp(w, d, at, step.base, k);
    walk_raise(w, d, at, step.moved, step.gain)?;
    hand(w, d, at, step);
    Ok(())
}
