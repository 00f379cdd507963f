// A sweep by its limits: find, then write the offset, the counts of all gates and the pair, then clear the work memory.
ghost use Rattle.std.specs.Prelude.{◌≡◌, ◌+◌, ◌*◌, ◌^◌, ◌<◌, ◌≤◌, [], ◌∷◌, length, replicate, pos, slice_index, unsigned_abs};
ghost use Rattle.std.proofs.Math.IntN.{sub_ℕ};
ghost use Rattle.std.specs.Float.{binary64};
ghost use Rattle.std.specs.Float.Ieee.{div};
ghost use Rattle.lists.specs.Seq.{tabulate};
ghost use Rattle.arithmetic.specs.Rounding.{round_even, real};
ghost use Rattle.merge.specs.Inside.Steps.{unbias};
ghost use Rattle.memory.specs.Inside.Layout.{counts_at};
ghost use Rattle.memory.specs.Size.{gates_of_largest};
ghost use Rattle.network.specs.Inside.Find.{limits_by, Finds};
ghost use Rattle.sweep.specs.Sweep.{or_zero, gate_count, unfolded};
ghost use Rattle.sweep.specs.Inside.Mean.{sum_from, size_at, held_at, Tabled, Writes};
ghost use Rattle.sweep.specs.Questions.{asked9};
ghost use Rattle.sweep.specs.Call.{ending, memory_of, answer_by};
ghost use Rattle.sweep.specs.Entry.{sweep_in, answer_of};
ghost use Rattle.sweep.specs.Refusal.{missed_by};
ghost use Rattle.sweep.specs.Inside.Finish.{offset_by, counts_by, marks_by, WritesMarks, Finishes, WritesFound, lent, outcome_by, all_zero};

use crate::refusal::Refusal;
use arithmetic::intervals::Plan;
use memory::layout;
use network::find::Finding;
use network::input::Sweep;

// The gates of all regions, and their counts, with 1,000 added to each, summed over them.
#[derive(Clone, Copy)]
struct Totals {
    pub gates: u64,
    pub held: u64,
}

// The sums over regions 1 to k of n gates.
fn add_up(w: &[u32], n: usize, k: usize) -> Totals
    requires { Tabled w.now n k }
    ensures { (result.gates ≡ sum_from (size_at w.now n) 1 k) × (result.held ≡ sum_from (held_at w.now n k) 1 k) }
{
    let mut gates: u64 = 0;
    let mut held: u64 = 0;
    for l in (1..k + 1).rev() {
        let s = w[n + l] as u64;
        let c = w[n + (k + 1) + l] as u64;
        gates += s;
        held += s * c;
    }
    Totals { gates, held }
}

// The mean count, rounded; 0 where it is no number.
fn mean(s: Totals) -> i32
    requires { (s.gates ≤ gates_of_largest) × (s.held ≤ 2000 * gates_of_largest) }
    ensures { result ≡ or_zero (round_even (div binary64 (real (sub_ℕ s.held (1000 * s.gates))) (real (pos s.gates)))) }
{
    let total = (s.held as i64) - (((layout::ZERO as u64) * s.gates) as i64);
    let x = std::num::nearest_i64_to_f64(total) / std::num::nearest_u64_to_f64(s.gates);
    arithmetic::rounding::round_even(x).unwrap_or(0)
}

// The count of a gate with mask byte m, whose region's count, with 1,000 added, is c.
fn fold_of(m: u8, c: u32, offset: i32) -> i32
    requires { (c ≤ 2000) × (unsigned_abs offset ≤ 2 ^ 30) }
    ensures { result ≡ gate_count offset m (unbias c) }
{
    if m != 1 {
        return 0;
    }
    ((c as i32) - (layout::ZERO as i32)) - offset
}

// The counts of all gates: labels are the first n words, counts lie in their table.
fn write_folds(w: &[u32], n: usize, k: usize, valid: &[u8], offset: i32, folds: &mut [i32])
    requires { Writes w.now n k valid.now offset (length folds.old) }
    ensures { folds.new ≡ tabulate n (λ g. gate_count offset (slice_index valid.now g) (unbias (slice_index w.now (counts_at n k + slice_index w.now g)))) }
{
    for g in 0..n {
        let l = w[g] as usize;
        let c = w[n + (k + 1) + l];
        folds[g] = fold_of(valid[g], c, offset);
    }
}

// What centring takes away.
fn offset_of(w: &[u32], n: usize, k: usize, centred: u32) -> i32
    requires { Tabled w.now n k }
    ensures { result ≡ offset_by w.now n k centred }
{
    if centred != 1 {
        return 0;
    }
    mean(add_up(w, n, k))
}

// The numbers of regions and of merges.
fn write_pair(pair: &mut [u32], regions: usize, merges: usize)
    requires { (length pair.old ≡ 2) × ((regions < 2 ^ 32) × (merges < 2 ^ 32)) }
    ensures { pair.new ≡ regions ∷ merges ∷ [] }
{
    pair[0] = regions as u32;
    pair[1] = merges as u32;
}

// The counts of all gates, less the offset where asked.
pub fn settle(w: &[u32], n: usize, k: usize, valid: &[u8], centred: u32, folds: &mut [i32])
    requires { Finishes w.now n k valid.now (length folds.old) }
    ensures { folds.new ≡ counts_by w.now n k valid.now centred }
{
    let offset = offset_of(w, n, k, centred);
    write_folds(w, n, k, valid, offset, folds);
}

// The marks of all gates: labels are the first n words, marks lie in their table.
pub fn write_marks(w: &[u32], n: usize, k: usize, doubtful: &mut [u8])
    requires { WritesMarks w.now n k (length doubtful.old) }
    ensures { doubtful.new ≡ marks_by w.now n k }
{
    for g in 0..n {
        let l = w[g] as usize;
        doubtful[g] = w[n + (k + 1) + (k + 1) + l] as u8;
    }
}

// What was found, written: counts, marks and pair, or nothing where question 9 refused.
pub fn write(
    f: Finding,
    centred: u32,
    valid: &[u8],
    w: &[u32],
    folds: &mut [i32],
    doubtful: &mut [u8],
    pair: &mut [u32],
) -> Result<(), Refusal>
    requires { WritesFound f w.now valid.now (length folds.old) (length doubtful.old) (length pair.old) }
    ensures { record { number = answer_of (missed_by result); memory = lent folds.new doubtful.new pair.new }
        ≡ ending (outcome_by f w.now valid.now centred) (lent folds.old doubtful.old pair.old) }
{
    let found = f?;
    let n = valid.len();
    settle(w, n, found.regions, valid, centred, folds);
    write_marks(w, n, found.regions, doubtful);
    write_pair(pair, found.regions, found.merges);
    Ok(())
}

// All words and all floats are zero.
pub fn clear(words: &mut [u32], floats: &mut [f64])
    ensures words_after { words.new ≡ replicate (length words.old) 0 }
    ensures floats_after { floats.new ≡ replicate (length floats.old) (real (pos 0)) }
{
    words.fill(0);
    floats.fill(0.0);
}

// A sweep that passed questions 1 to 8, its limits planned: find, write, clear. Question 9 may still refuse it.
pub fn solve(
    s: Sweep,
    p: Plan,
    folds: &mut [i32],
    doubtful: &mut [u8],
    pair: &mut [u32],
    words: &mut [u32],
    floats: &mut [f64],
) -> Result<(), Refusal>
    requires finds { Finds s.options p s.velocity.now s.valid.now words.old floats.old }
    requires long { (length folds.old ≡ length s.velocity.now) × (length doubtful.old ≡ length s.velocity.now) × (length pair.old ≡ 2) }
    ensures { let m = memory_of folds.old doubtful.old pair.old words.old floats.old in
        answer_by (answer_of (missed_by result)) folds.new doubtful.new pair.new words.new floats.new
        ≡ ending (asked9 (unfolded (sweep_in s.entry) (limits_by s.entry.options p))) (all_zero m) }
{
    let f = network::find::find(s, p, words, floats);
    let r = write(f, s.options.centred, s.valid, words, folds, doubtful, pair);
    clear(words, floats);
    r
}
