// What a call left of the memory lent to it. Before it, what it writes holds the pattern, 7 in each place, and so does the work memory, but for
// the words that a call before has cleared.
ghost use Rattle.std.specs.Prelude.{◌≡◌, ◌↔◌, ℕ, ◌&&◌, ◌≤◌, ◌<◌, IsTrue, true, length, slice_index_or, nat_lt, if◌then◌else◌};
ghost use Rattle.replay.specs.Left.{words_left, floats_left, counts_kept, marks_kept, clears_work, left_by};

use crate::arrays;
use memory::layout;

// All of it unchanged; the work memory asked for zero and any further one unchanged; or neither.
#[derive(Clone, Copy, Debug, PartialEq, Eq)]
pub enum Left {
    Kept,
    Cleared,
    Wrong,
}

// Whether the first k elements are cleared and any further ones the pattern.
fn holds_due<T: Copy + PartialEq>(items: &[T], k: usize, cleared: T, pattern: T) -> bool
    ensures { IsTrue result ↔ ((i : ℕ) → i < length items.now → T.eq (slice_index_or items.now i pattern) (if nat_lt i k then cleared else pattern) ≡ true) }
{
    items
        .iter()
        .enumerate()
        .all(|(i, &x)| x == if i < k { cleared } else { pattern })
}

// Whether the first k words are zero and any further ones the pattern.
fn words_left(words: &[u32], k: usize) -> bool
    ensures { result ≡ words_left k words.now }
{
    holds_due(words, k, 0, arrays::WORD)
}

// The same of the f64.
fn floats_left(floats: &[f64], k: usize) -> bool
    ensures { result ≡ floats_left k floats.now }
{
    holds_due(floats, k, 0.0, arrays::FLOAT)
}

// Whether every count is the pattern.
fn counts_kept(counts: &[i32]) -> bool
    ensures { result ≡ counts_kept counts.now }
{
    counts.iter().all(|&count| count == arrays::COUNT)
}

// Whether every mark is the pattern. A chain like that of the counts: a third function that both call would be no plainer than the chain.
fn marks_kept(doubtful: &[u8]) -> bool
    ensures { result ≡ marks_kept doubtful.now }
{
    doubtful.iter().all(|&mark| mark == arrays::MARK)
}

// Whether the call of an answer clears the work memory that it asks for. Answers are numbers here as in the C interface: 0 is an accepted call, 9 a
// merge that question 9 refuses.
#[tactic(auto, unfolding(crate::specs::Left::clears_work))]
fn clears(number: u32) -> bool
    ensures { result ≡ clears_work number }
{
    matches!(number, 0 | 9)
}

// How much the call of an answer clears of a work memory of which it asks for so much.
fn cleared(number: u32, asked: usize) -> usize
    ensures { result ≡ (if clears_work number then asked else 0) }
{
    if clears(number) { asked } else { 0 }
}

// Whether the counts, the marks and the pair, which a sweep call writes, still hold the pattern.
pub fn folds_kept(counts: &[i32], doubtful: &[u8], pair: &[u32]) -> bool
    ensures { result ≡ (counts_kept counts.now && marks_kept doubtful.now && words_left 0 pair.now) }
{
    counts_kept(counts) && marks_kept(doubtful) && words_left(pair, 0)
}

// The same of the labels and the number of regions, which a region map writes.
pub fn map_kept(labels: &[u32], regions: &[u32]) -> bool
    ensures { result ≡ (words_left 0 labels.now && words_left 0 regions.now) }
{
    words_left(labels, 0) && words_left(regions, 0)
}

// What a call on n gates left, by its answer's number and by whether what it writes beside the work memory is as before.
#[tactic(auto, unfolding(crate::specs::Left::left_by, crate::specs::Left::cleared_words, crate::specs::Left::cleared_floats, sweep::specs::Questions::words_for, sweep::specs::Questions::floats_for))]
pub fn left_by(number: u32, n: usize, kept: bool, words: &[u32], floats: &[f64]) -> Left
    requires { n ≤ 128 }
    ensures { result ≡ left_by number n kept words.now floats.now }
{
    let w = cleared(number, layout::WORDS * n + layout::WORDS_MORE);
    let d = cleared(number, layout::FLOATS * n + layout::FLOATS_MORE);
    if !(words_left(words, w) && floats_left(floats, d) && (number == 0 || kept)) {
        Left::Wrong
    } else if clears(number) {
        Left::Cleared
    } else {
        Left::Kept
    }
}
