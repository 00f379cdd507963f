// From the log of merges in the work memory into a lent book, and question 13.
ghost use Rattle.std.specs.Prelude.{◌≡◌, ℕ, ◌+◌, ◌≤◌, ◌<◌, ◌^◌, length, slice_index};
ghost use Rattle.merge.specs.Inside.Steps.{unbias};
ghost use Rattle.sweep_book.specs.Book.{book_holds};
ghost use Rattle.sweep_book.specs.Inside.Entering.{numbers_at, Enters, entered_from, EntersFound, entered_by};

use memory::layout;
use network::find::Finding;

// Question 13: a book of this length holds as many entries as there are regions, less one.
#[tactic(auto, unfolding(crate::specs::Book::book_holds, crate::specs::Book::holds))]
pub fn book_holds(regions: u32, long: usize) -> bool
    ensures { result ≡ book_holds regions long }
{
    (regions as usize).saturating_sub(1) <= long / layout::ENTRY
}

// The folds of an entry, kept with 1,000 added.
fn folds_of(g: u32) -> i32
    requires { g ≤ 2000 }
    ensures { result ≡ unbias g }
{
    (g as i32) - layout::ZERO as i32
}

// The six numbers of the entry whose words begin at `at`.
fn numbers_at(w: &[u32], at: usize) -> [i32; layout::ENTRY]
    requires in_bounds { at + 6 ≤ length w.now }
    requires low { (j : ℕ) → j < 6 → slice_index w.now (at + j) < 2 ^ 31 }
    requires gain { slice_index w.now (at + 4) ≤ 2000 }
    ensures { result ≡ numbers_at w.now at }
{
    [
        w[at] as i32,
        w[at + 1] as i32,
        w[at + 2] as i32,
        w[at + 3] as i32,
        folds_of(w[at + 4]),
        w[at + 5] as i32,
    ]
}

// k entries, whose words begin at `from`.
fn enter_all(w: &[u32], from: usize, k: usize, book: &mut [i32])
    requires { Enters w.now from k (length book.old) }
    ensures { book.new ≡ entered_from w.now from k book.old }
{
    for j in 0..k {
        let at = layout::ENTRY * j;
        book[at..at + layout::ENTRY].copy_from_slice(&numbers_at(w, from + at));
    }
}

// What was found of n gates, entered; nothing where question 9 refused.
#[tactic(auto, unfolding(memory::specs::Inside::Layout::book_at))]
pub fn enter_found(f: Finding, w: &[u32], n: usize, book: &mut [i32])
    requires { EntersFound f w.now n (length book.old) }
    ensures { book.new ≡ entered_by f w.now n book.old }
{
    if let Ok(r) = f {
        let nodes = r.regions + 1;
        enter_all(w, n + nodes + nodes + nodes, r.merges, book);
    }
}
