// The call of the sweep entry with a book: questions 1 to 8, labels, question 13, then the merges. All else is the sweep entry's.
ghost use Rattle.std.specs.Prelude.{◌≡◌, length};
ghost use Rattle.std.proofs.Math.Option.{none};
ghost use Rattle.network.specs.Inside.Find.{limits_by, Finds};
ghost use Rattle.sweep.specs.Questions.{first_no, seven_of, gates_in};
ghost use Rattle.sweep.specs.Call.{cleared_for, lengths, memory_of, answer_by};
ghost use Rattle.sweep.specs.Entry.{sweep_in, answer_of};
ghost use Rattle.sweep.specs.Inside.Finish.{all_zero};
ghost use Rattle.sweep.specs.Inside.Planning.{Fit};
ghost use Rattle.sweep.specs.Refusal.{missed_by};
ghost use Rattle.sweep_book.specs.Book.{later, end_book, call_book, book_answer_by};
ghost use Rattle.sweep_book.specs.Inside.Entering.{Lends};

use crate::book::{book_holds, enter_found};
use arithmetic::intervals::Plan;
use memory::layout;
use network::input::Sweep;
use sweep::refusal::Refusal;

// A sweep that passed questions 1 to 8, its limits planned: labels, question 13, merges, then counts, marks, pair and book written and all work
// memory cleared. Question 13 or 9 may still refuse it.
fn solve(
    s: Sweep,
    p: Plan,
    folds: &mut [i32],
    doubtful: &mut [u8],
    pair: &mut [u32],
    book: &mut [i32],
    words: &mut [u32],
    floats: &mut [f64],
) -> Result<(), Refusal>
    requires finds { Finds s.options p s.velocity.now s.valid.now words.old floats.old }
    requires lends { Lends (length s.velocity.now) folds.old doubtful.old pair.old }
    ensures { let v = sweep_in s.entry in
        let l = limits_by s.entry.options p in
        let m = memory_of folds.old doubtful.old pair.old words.old floats.old in
        book_answer_by (answer_by (answer_of (missed_by result)) folds.new doubtful.new pair.new words.new floats.new) book.new
        ≡ end_book (first_no (later v l (length book.old))) v l (all_zero m) book.old }
{
    let k = network::find::label(s, p, words);
    if !book_holds(k, book.len()) {
        sweep::sweep::clear(words, floats);
        return Err(Refusal::Book);
    }
    let f = network::find::merge_regions(s, words, floats, k as usize);
    let r = sweep::sweep::write(f, s.options.centred, s.valid, words, folds, doubtful, pair);
    enter_found(f, words, s.velocity.len(), book);
    sweep::sweep::clear(words, floats);
    r
}

// The same, questions 1 to 8 having got a yes: just as much of the work memory as is asked for is used.
// A twin of sweep's `unfold_sweep`: one function that takes the call as a closure leaves its callers' proofs nothing of what the closure writes behind a captured `&mut`.
fn unfold_sweep(
    s: Sweep,
    p: Plan,
    folds: &mut [i32],
    doubtful: &mut [u8],
    pair: &mut [u32],
    book: &mut [i32],
    words: &mut [u32],
    floats: &mut [f64],
) -> Result<(), Refusal>
    requires seven_yes { first_no (seven_of (sweep_in s) (lengths (memory_of folds.old doubtful.old pair.old words.old floats.old))) ≡ none }
    requires fit { Fit s.options p }
    ensures { let v = sweep_in s.entry in
        let l = limits_by s.entry.options p in
        let m = memory_of folds.old doubtful.old pair.old words.old floats.old in
        book_answer_by (answer_by (answer_of (missed_by result)) folds.new doubtful.new pair.new words.new floats.new) book.new
        ≡ end_book (first_no (later v l (length book.old))) v l (cleared_for (gates_in v) m) book.old }
{
    let n = s.velocity.len();
    let w = layout::WORDS * n + layout::WORDS_MORE;
    let d = layout::FLOATS * n + layout::FLOATS_MORE;
    solve(
        s,
        p,
        folds,
        doubtful,
        pair,
        book,
        &mut words[..w],
        &mut floats[..d],
    )
}

// What the sweep entry gives, and the entries of its merges in the book.
pub fn dealias_sweep_book(
    s: Sweep,
    folds: &mut [i32],
    doubtful: &mut [u8],
    pair: &mut [u32],
    book: &mut [i32],
    words: &mut [u32],
    floats: &mut [f64],
) -> Result<(), Refusal>
    ensures { let m = memory_of folds.old doubtful.old pair.old words.old floats.old in
        book_answer_by (answer_by (answer_of (missed_by result)) folds.new doubtful.new pair.new words.new floats.new) book.new
        ≡ call_book (sweep_in s.entry) m book.old }
{
    let n = sweep::questions::gates_in(s.options.rays, s.options.gates);
    let lent = sweep::questions::room_of(
        n,
        folds.len(),
        doubtful.len(),
        pair.len(),
        words.len(),
        floats.len(),
    );
    let p = sweep::entry::plan_sweep(s, lent)?;
    unfold_sweep(s, p, folds, doubtful, pair, book, words, floats)
}
