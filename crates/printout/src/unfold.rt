// What the program `unfold` prints for a file, and the steps that `book` shares with it. It assumes nothing of the file.
ghost use Rattle.std.specs.Prelude.{◌≡◌, ℕ, ◌≤◌, List, [], ℤ, length, get_or, IfOk, IfErr, OnErr};
ghost use Rattle.sweep.specs.Entry.{sweep_in as sweep_of, answer_of};
ghost use Rattle.sweep.specs.Questions.{refused, outcome};
ghost use Rattle.sweep.specs.Refusal.{number_of, missed_by};
ghost use Rattle.files.specs.Format.{u16_at, sweep_in};
ghost use Rattle.files.specs.Questions.{as_sweep};
ghost use Rattle.printout.specs.Text.{ray_lines};
ghost use Rattle.printout.specs.Unfold.{file_gates, lent_for, file_outcome, printed_of, printed_with, printed};
ghost use Rattle.printout.specs.Book.{file_book};
ghost use Rattle.printout.specs.Inside.Folds.{folds_by, folds_of, Shape, printed_in, put_in};
ghost use Rattle.printout.specs.Inside.Booked.{booked_by, booked_of};

use crate::lines::{self, Text};
use files::bits::velocities_of;
use files::format::read_u16;
use files::reader;
use memory::layout;
use network::input::Sweep;
use sweep::entry::dealias_sweep;
use sweep::refusal::Refusal;
use sweep_book::entry::dealias_sweep_book;

// The most gates of a sweep that is printed.
pub const MOST_PRINTED: usize = 128;

// The work memory that they take.
const MOST_WORDS: usize = layout::WORDS * MOST_PRINTED + layout::WORDS_MORE;

const MOST_FLOATS: usize = layout::FLOATS * MOST_PRINTED + layout::FLOATS_MORE;

// Memory for a file's sweep and a call on it, but for what the call answers.
#[derive(Drop)]
struct Memory {
    bits: [u32; MOST_PRINTED],
    valid: [u8; MOST_PRINTED],
    velocity: [f32; MOST_PRINTED],
    doubtful: [u8; MOST_PRINTED],
    words: [u32; MOST_WORDS],
    floats: [f64; MOST_FLOATS],
}

impl Memory {
    fn new() -> Memory {
        Memory {
            bits: [0; MOST_PRINTED],
            valid: [0; MOST_PRINTED],
            velocity: [0.0; MOST_PRINTED],
            doubtful: [0; MOST_PRINTED],
            words: [0; MOST_WORDS],
            floats: [0.0; MOST_FLOATS],
        }
    }
}

// Reads a file's sweep, its velocities and mask in the memory lent.
fn read_sweep<'a>(
    file: &[u8],
    bits: &mut [u32],
    valid: &'a mut [u8],
    velocity: &'a mut [f32],
) -> Result<Sweep<'a>, Refusal>
    requires { (length bits.old ≡ file_gates file.now) × (length valid.old ≡ file_gates file.now) × (length velocity.old ≡ file_gates file.now) }
    ensures refused { IfErr result (λ e. file_outcome file.now ≡ refused (number_of e)) }
    ensures read { IfOk result (λ s. (sweep_of s ≡ as_sweep (sweep_in file.now))
        × (file_outcome file.now ≡ outcome (as_sweep (sweep_in file.now)) (lent_for (file_gates file.now)))) }
{
    let header = reader::read(file, bits, valid)?;
    velocities_of(bits, velocity);
    Ok(Sweep {
        options: header.into(),
        velocity,
        valid,
    })
}

// The fold counts of a file's sweep, with memory of its own but for counts and pair.
pub fn unfold_file(file: &[u8], counts: &mut [i32], pair: &mut [u32]) -> Result<(), Refusal>
    requires { (length counts.old ≡ file_gates file.now) × (length counts.old ≤ 128) × (length pair.old ≡ 2) }
    ensures { folds_by (answer_of (missed_by result)) counts.new ≡ folds_of (file_outcome file.now) counts.old }
{
    let n = counts.len();
    let mut m = Memory::new();
    let s = read_sweep(
        file,
        &mut m.bits[..n],
        &mut m.valid[..n],
        &mut m.velocity[..n],
    )?;
    let w = layout::WORDS * n + layout::WORDS_MORE;
    let d = layout::FLOATS * n + layout::FLOATS_MORE;
    dealias_sweep(
        s,
        counts,
        &mut m.doubtful[..n],
        pair,
        &mut m.words[..w],
        &mut m.floats[..d],
    )
}

// The same with the merge book: the entries go to the book, and how many they are to the pair.
// A twin of `unfold_file`: one function that takes the call as a closure leaves its proof nothing of what the closure writes behind a captured `&mut`.
pub fn unfold_with_book(
    file: &[u8],
    counts: &mut [i32],
    pair: &mut [u32],
    book: &mut [i32],
) -> Result<(), Refusal>
    requires lent { (length counts.old ≡ file_gates file.now) × (length counts.old ≤ 128) × (length pair.old ≡ 2) }
    requires room { 762 ≤ length book.old }
    ensures counts_after { folds_by (answer_of (missed_by result)) counts.new ≡ folds_of (file_outcome file.now) counts.old }
    ensures book_after { booked_by (answer_of (missed_by result)) (get_or pair.new 1 0) book.new
        ≡ booked_of (file_outcome file.now) (file_book file.now) (get_or pair.old 1 0) book.old }
{
    let n = counts.len();
    let mut m = Memory::new();
    let s = read_sweep(
        file,
        &mut m.bits[..n],
        &mut m.valid[..n],
        &mut m.velocity[..n],
    )?;
    let w = layout::WORDS * n + layout::WORDS_MORE;
    let d = layout::FLOATS * n + layout::FLOATS_MORE;
    dealias_sweep_book(
        s,
        counts,
        &mut m.doubtful[..n],
        pair,
        book,
        &mut m.words[..w],
        &mut m.floats[..d],
    )
}

// The text for a file: nothing for a sweep of more than 128 gates, else what `text_of` gives of the file with its rays and gates.
pub fn print_by<F: FnOnce(&[u8], usize, usize) -> Result<Text, Refusal>>(
    file: &[u8],
    text_of: F,
) -> Result<Text, Refusal>
    ghost text: { List ℤ → List ℕ }
    requires callable { (rays gates : ℕ) → Shape file.now rays gates → F.pre text_of file rays gates }
    requires prints { (rays gates : ℕ) (r : _) → Shape file.now rays gates → F.post text_of file rays gates r
        → printed_in r ≡ printed_of text (file_outcome file.now) }
    ensures { printed_in result ≡ printed_with text file.now }
{
    reader::header_fault(file)?;
    let rays = usize::from(read_u16(file, 3));
    let gates = usize::from(read_u16(file, 5));
    if rays * gates > MOST_PRINTED {
        return Ok(Text::new());
    }
    text_of(file, rays, gates)
}

// The same in memory lent, which the programs go by: a text is long, and one that is handed back is copied.
pub fn put_by<F: FnOnce(&[u8], usize, usize, &mut Text) -> Result<(), Refusal>>(
    file: &[u8],
    text: &mut Text,
    put_text: F,
) -> Result<(), Refusal>
    ghost form: { List ℤ → List ℕ }
    requires callable { (rays gates : ℕ) (t : _) → Shape file.now rays gates → t.now.bytes ≡ [] → F.pre put_text file rays gates t }
    requires prints { (rays gates : ℕ) (t u : _) (r : _) → Shape file.now rays gates → t.now.bytes ≡ [] → F.post put_text file rays gates t r u
        → put_in r u.now.bytes ≡ printed_of form (file_outcome file.now) }
    ensures { put_in result text.new.bytes ≡ printed_with form file.now }
{
    text.clear();
    reader::header_fault(file)?;
    let rays = usize::from(read_u16(file, 3));
    let gates = usize::from(read_u16(file, 5));
    if rays * gates > MOST_PRINTED {
        return Ok(());
    }
    put_text(file, rays, gates, text)
}

// The text of a sweep's counts, rays and gates being the file's, in memory lent. A refusal leaves it empty.
fn put_counts(file: &[u8], rays: usize, gates: usize, text: &mut Text) -> Result<(), Refusal>
    requires shape { Shape file.now rays gates }
    requires empty { text.old.bytes ≡ [] }
    ensures empty { OnErr result (text.new.bytes ≡ []) }
    ensures printed { put_in result text.new.bytes ≡ printed_of (ray_lines (u16_at file.now 3) (u16_at file.now 5)) (file_outcome file.now) }
{
    let mut counts = [0i32; MOST_PRINTED];
    let counts = &mut counts[..rays * gates];
    let mut pair = [0u32; 2];
    unfold_file(file, counts, &mut pair)?;
    lines::put_rays(text, counts, rays, gates);
    Ok(())
}

// The same as a value.
fn counts_text(file: &[u8], rays: usize, gates: usize) -> Result<Text, Refusal>
    requires { Shape file.now rays gates }
    ensures { printed_in result ≡ printed_of (ray_lines (u16_at file.now 3) (u16_at file.now 5)) (file_outcome file.now) }
{
    let mut text = Text::new();
    put_counts(file, rays, gates, &mut text)?;
    Ok(text)
}

// The text that the program `unfold` prints for a file.
pub fn print_file(file: &[u8]) -> Result<Text, Refusal>
    ensures { printed_in result ≡ printed file.now }
{
    print_by(file, counts_text)
}

// The same in memory lent.
pub fn put_file(file: &[u8], text: &mut Text) -> Result<(), Refusal>
    ensures { put_in result text.new.bytes ≡ printed file.now }
{
    put_by(file, text, put_counts)
}
