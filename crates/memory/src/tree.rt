// A winner tree over the first m words of a lent slice, the weights: the word at m + k is the winner below place k, for k from 1
// to 2m - 1. Places m and up are the leaves, place k has the children 2k and 2k + 1, and 1 is the root.
ghost use Rattle.std.specs.Prelude.{◌≡◌, ◌+◌, ◌*◌, ◌/◌, ◌≤◌, ◌<◌, ◌^◌, length, set, slice_set};
ghost use Rattle.memory.specs.Inside.Tree.{pick, winner, Game, Dirty, Tree, Weighed, Best};

// The heavier of i and j, of weights a and b; the lower at equal weights.
#[tactic(auto, unfolding(crate::specs::Inside::Tree::pick))]
fn pick(a: u32, b: u32, i: u32, j: u32) -> u32
    ensures { result ≡ pick a b i j }
{
    if a > b {
        return i;
    }
    if a < b {
        return j;
    }
    if i < j {
        return i;
    }
    j
}

// The winner of the two children of place k goes to place k.
#[tactic(auto, unfolding(crate::specs::Inside::Tree::winner))]
fn game(w: &mut [u32], m: usize, k: usize)
    requires { Game m w.old k }
    ensures { w.new ≡ slice_set w.old (m + k) (winner m w.old k) }
{
    let i = w[m + 2 * k];
    let j = w[m + 2 * k + 1];
    w[m + k] = pick(w[i as usize], w[j as usize], i, j);
}

// Plays again on the way from place k to the root. A while: the place is halved, not counted.
fn play(w: &mut [u32], m: usize, mut k: usize)
    requires dirty { Dirty m w.old k }
    requires k_lt_m { k < m }
    ensures { Weighed m w.old w.new }
{
    while k > 0 {
        game(w, m, k);
        k /= 2;
    }
}

// The weight of e becomes v.
pub fn weigh(w: &mut [u32], m: usize, e: usize, v: u32)
    requires tree { Tree m w.old }
    requires e_lt_m { e < m }
    ensures { Weighed m (set w.old e v) w.new }
{
    w[e] = v;
    play(w, m, (m + e) / 2);
}

// The tree of any weights.
pub fn build(w: &mut [u32], m: usize)
    requires { (3 * m ≤ length w.old) × (m < 2 ^ 32) }
    ensures { Weighed m w.old w.new }
{
    crate::words::number(w, m + m, m);
    for k in (1..m).rev() {
        game(w, m, k);
    }
}

// The heaviest of all, the lowest among equals.
pub fn best(w: &[u32], m: usize) -> u32
    requires tree { Tree m w.now }
    requires m_nonzero { 0 < m }
    ensures { Best m w.now result }
{
    w[m + 1]
}
