// label.rs: the areas of gates that touch, by union-find, and their numbers by first gate.
// One lent slice holds it all (fixed memory), so its parts are offsets by n: a band for each of n gates, then a word of the union-find for each, then
// a counter for each band.
// A band is 0 for a gate in no interval; gates are joined within their band. Gates are placed in scan order: the words of those before gate g
// hold their areas, and nothing is known of the rest.
ghost use Rattle.std.specs.Prelude.{◌≡◌, ℕ, suc, ◌+◌, ◌-◌, ◌^◌, ◌<◌, ◌≤◌, Bool, true, not, List, length, if◌then◌else◌, ◌==◌, ◌≢◌, slice_index, slice_set};
ghost use Rattle.lists.specs.Inside.Seg.{seg};
ghost use Rattle.labels.specs.Label.{join};
ghost use Rattle.labels.specs.Inside.Forest.{Forest, Some, Gate, Root};
ghost use Rattle.labels.specs.Inside.Areas.{Next, Corner, Placed, LabelsGate, LabelsGates};
ghost use Rattle.labels.specs.Inside.Bands.{band_before};
ghost use Rattle.labels.specs.Inside.Numbering.{Ahead, NumbersGates};
ghost use Rattle.labels.specs.Inside.Sheet.{bands_of, words_of, counts_of};

// The first gate of the area of gate `start`. Halves the path there: a while, since it goes from word to word and counts nothing.
fn find(w: &mut [u32], start: u32) -> u32
    requires some { Some w.old }
    requires gate { Gate w.old start }
    ensures { (inside : List Bool) (rs : List ℕ) → Forest inside w.old rs → Root inside w.new rs start result }
{
    let mut x = start;
    let mut p = w[x as usize];
    while p != x + 1 {
        let q = w[(p - 1) as usize];
        w[x as usize] = q;
        x = q - 1;
        p = w[x as usize];
    }
    x
}

// The areas of the gates `a` and `b` made one. Whether they were two.
fn unite(w: &mut [u32], a: u32, b: u32) -> bool
    requires some { Some w.old }
    requires gate { Gate w.old a × Gate w.old b }
    ensures value { (inside : List Bool) (rs : List ℕ) → Forest inside w.old rs → result ≡ not (slice_index rs a == slice_index rs b) }
    ensures forest { (inside : List Bool) (rs : List ℕ) → Forest inside w.old rs → Forest inside w.new (join rs (record { a = a; b = b })) }
{
    let r = find(w, a);
    let s = find(w, b);
    if r < s {
        w[s as usize] = r + 1;
        return true;
    }
    w[r as usize] = s + 1;
    s < r
}

// The next gate to be placed: gate `g` of n, of band `b`; there are `gates` gates to a ray.
#[derive(Clone, Copy)]
pub struct NextGate {
    pub n: usize,
    pub gates: usize,
    pub g: usize,
    pub b: u32,
}

// The gate begins an area of its band, which has one more. Its word: itself.
fn begin(u: &mut [u32], x: NextGate) -> u32
    requires some { 0 < x.b }
    requires word_bound { x.g + 1 < 2 ^ 32 }
    requires counter_in_bounds { x.n + x.n + (x.b - 1) < length u.old }
    requires counter_bound { slice_index u.old (x.n + x.n + (x.b - 1)) + 1 < 2 ^ 32 }
    ensures value { result ≡ suc x.g }
    ensures u_after { u.new ≡ slice_set u.old (x.n + x.n + (x.b - 1)) (slice_index u.old (x.n + x.n + (x.b - 1)) + 1) }
{
    u[x.n + x.n + (x.b - 1) as usize] += 1;
    x.g as u32 + 1
}

// Its band has one area less, if two were made one.
fn one_less(u: &mut [u32], x: NextGate, two: bool)
    requires some { 0 < x.b }
    requires counter_in_bounds { x.n + x.n + (x.b - 1) < length u.old }
    requires nonzero { two ≡ true → 0 < slice_index u.old (x.n + x.n + (x.b - 1)) }
    ensures { u.new ≡ (if two then slice_set u.old (x.n + x.n + (x.b - 1)) (slice_index u.old (x.n + x.n + (x.b - 1)) - 1) else u.old) }
{
    if two {
        u[x.n + x.n + (x.b - 1) as usize] -= 1;
    }
}

// The areas of the gates before and above the gate made one, which it joins. Its word: that of the gate before.
fn meet(u: &mut [u32], x: NextGate) -> u32
    requires next { Next x.gates u.old x.n x.g x.b }
    requires corner { Corner x.gates (bands_of u.old x.g) x.g x.b }
    ensures { Placed x.gates u.old u.new x.n x.g x.b result }
{
    let h = x.g - x.gates;
    let e = x.n + x.g;
    let two = unite(&mut u[x.n..e], h as u32, (x.g - 1) as u32);
    one_less(u, x, two);
    u[x.n + (x.g - 1)]
}

// The gate joins the area of the gate before, whose word it gets. Where the gate above is of its band too, their areas are made one, unless the
// gate before that one is of the band: then they are one already.
fn beside(u: &mut [u32], x: NextGate, word: u32) -> u32
    requires next { Next x.gates u.old x.n x.g x.b }
    requires some { 0 < x.b }
    requires goes_on { band_before x.gates (bands_of u.old x.g) x.g ≡ x.b }
    requires word_value { word ≡ slice_index (seg u.old x.n x.g) (x.g - 1) }
    ensures { Placed x.gates u.old u.new x.n x.g x.b result }
{
    if x.g < x.gates {
        return word;
    }
    let h = x.g - x.gates;
    if u[h] != x.b {
        return word;
    }
    if u[h - 1] == x.b {
        return word;
    }
    meet(u, x)
}

// The gate, which does not go with the gate before, joins the area of the gate above or begins one.
fn below(u: &mut [u32], x: NextGate) -> u32
    requires next { Next x.gates u.old x.n x.g x.b }
    requires some { 0 < x.b }
    requires stops { band_before x.gates (bands_of u.old x.g) x.g ≢ x.b }
    ensures { Placed x.gates u.old u.new x.n x.g x.b result }
{
    if x.g < x.gates {
        return begin(u, x);
    }
    let h = x.g - x.gates;
    if u[h] == x.b {
        return u[x.n + h];
    }
    begin(u, x)
}

// The gate joined with the gates before and above that are of its band: `before` is the band of the gate before on its ray, `word` that gate's
// word. Gives its own word.
pub fn place(u: &mut [u32], x: NextGate, before: u32, word: u32) -> u32
    requires next { Next x.gates u.old x.n x.g x.b }
    requires before_value { before ≡ band_before x.gates (bands_of u.old x.g) x.g }
    requires word_value { 0 < x.g → word ≡ slice_index (seg u.old x.n x.g) (x.g - 1) }
    ensures { Placed x.gates u.old u.new x.n x.g x.b result }
{
    if x.b == 0 {
        return 0;
    }
    if x.b == before {
        return beside(u, x, word);
    }
    below(u, x)
}

// The label of gate `g` over its band, where all gates before have theirs.
fn label_gate(u: &mut [u32], n: usize, g: usize)
    requires in_bounds { n + n ≤ length u.old }
    requires ahead { Ahead (words_of u.old n) (bands_of u.old n) (counts_of u.old n) g }
    ensures labels_gate { LabelsGate u.old u.new n g }
    ensures words_unchanged { words_of u.new n ≡ words_of u.old n }
{
    let v = u[n + g];
    if v == 0 {
        return;
    }
    let p = (v - 1) as usize;
    if p == g {
        let b = (u[g] - 1) as usize;
        let at = n + n + b;
        let k = u[at] + 1;
        u[at] = k;
        u[g] = k;
        return;
    }
    u[g] = u[p];
}

// All labels over the bands, from the counters' starts.
pub fn number(u: &mut [u32], n: usize)
    requires in_bounds { n + n ≤ length u.old }
    requires numbers_gates { NumbersGates (words_of u.old n) (bands_of u.old n) (counts_of u.old n) }
    ensures { LabelsGates u.old u.new n }
{
    for g in 0..n {
        label_gate(u, n, g);
    }
}
