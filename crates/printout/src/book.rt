// What the program `book` prints for a file: a line an entry, and a last line of totals. It assumes nothing of the file.
ghost use Rattle.std.specs.Prelude.{◌≡◌, ◌+◌, ◌*◌, ◌<◌, ◌≤◌, [], length, OnErr};
ghost use Rattle.printout.specs.Unfold.{file_outcome, printed_of};
ghost use Rattle.printout.specs.Book.{book_text, file_book, printed_book};
ghost use Rattle.printout.specs.Inside.Folds.{Shape, printed_in, put_in};
ghost use Rattle.printout.specs.Inside.Booked.{rows_text};

use crate::lines::Text;
use crate::numbers;
use crate::unfold::{self, MOST_PRINTED};
use memory::layout;
use sweep::refusal::Refusal;

// Six numbers an entry: 128 gates have at most 128 regions, and those at most 127 merges.
const MOST_BOOK: usize = layout::ENTRY * 127;

// Where the weight and the gates of an entry stand among its numbers.
const WEIGHT: usize = 2;

const GATES: usize = 5;

// The text of a book's entries: a line an entry, and a last line with how many they are and the sums of their weights and gates.
fn put_rows(text: &mut Text, rows: &[[i32; layout::ENTRY]])
    requires few { length rows.now ≤ 127 }
    requires empty { text.old.bytes ≡ [] }
    ensures { text.new.bytes ≡ rows_text rows.now }
{
    for row in rows {
        numbers::put_line_into(text, row);
    }
    let weights = rows
        .iter()
        .map(|row| u64::from(row[WEIGHT].unsigned_abs()))
        .sum();
    let gates = rows
        .iter()
        .map(|row| u64::from(row[GATES].unsigned_abs()))
        .sum();
    numbers::put_line_into(text, &[rows.len() as u64, weights, gates]);
}

// The text of the merge book of a file's sweep, rays and gates being the file's, in memory lent. A refusal leaves it empty.
fn put_entries(file: &[u8], rays: usize, gates: usize, text: &mut Text) -> Result<(), Refusal>
    requires shape { Shape file.now rays gates }
    requires empty { text.old.bytes ≡ [] }
    ensures empty { OnErr result (text.new.bytes ≡ []) }
    ensures printed { put_in result text.new.bytes ≡ printed_of (λ counts. book_text (file_book file.now)) (file_outcome file.now) }
{
    let mut counts = [0i32; MOST_PRINTED];
    let mut pair = [0u32; 2];
    let mut book = [0i32; MOST_BOOK];
    unfold::unfold_with_book(file, &mut counts[..rays * gates], &mut pair, &mut book)?;
    let (rows, _) = book[..layout::ENTRY * pair[1] as usize].as_chunks();
    put_rows(text, rows);
    Ok(())
}

// The same as a value.
fn entries_text(file: &[u8], rays: usize, gates: usize) -> Result<Text, Refusal>
    requires { Shape file.now rays gates }
    ensures { printed_in result ≡ printed_of (λ counts. book_text (file_book file.now)) (file_outcome file.now) }
{
    let mut text = Text::new();
    put_entries(file, rays, gates, &mut text)?;
    Ok(text)
}

// The text that the program `book` prints for a file.
pub fn print_book(file: &[u8]) -> Result<Text, Refusal>
    ensures { printed_in result ≡ printed_book file.now }
{
    unfold::print_by(file, entries_text)
}

// The same in memory lent.
pub fn put_book(file: &[u8], text: &mut Text) -> Result<(), Refusal>
    ensures { put_in result text.new.bytes ≡ printed_book file.now }
{
    unfold::put_by(file, text, put_entries)
}
