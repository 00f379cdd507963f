// The line of an answer: its number, where it is 0 the regions, the merges and the counts, in decimal, and the marks; and what is left of the memory.
// The line of a region map: the word map, the number, where it is 0 the regions and the labels, and what is left of the memory.
// The line of unfolded velocities: the number, and where it is 0 the bits of each, in hexadecimal.
// All is written by crate io's functions, which take no runtime and no buffer: Display and write! would be no plainer for words and numbers.
ghost use Rattle.std.specs.Prelude.{◌≡◌};

use crate::left::Left;

// Why a run ends before its list does: more gates or more memory than the arrays have, gates that cannot be read, or a start of a sweep that cannot.
#[derive(Clone, Copy, Debug, PartialEq, Eq)]
pub enum Refusal {
    Memory,
    Gates,
    Start,
}

// A space and a count.
fn write_count(count: i32) {
    io::write_all(1, b" ");
    if count < 0 {
        io::write_all(1, b"-");
    }
    io::print_decimal(1, u64::from(count.unsigned_abs()));
}

// A space and a number.
fn write_number(n: u32) {
    io::write_all(1, b" ");
    io::print_decimal(1, u64::from(n));
}

// Every gate's mark as a digit, all in one word; nothing where there is no gate.
fn write_marks(doubtful: &[u8]) {
    if !doubtful.is_empty() {
        io::write_all(1, b" ");
    }
    for &mark in doubtful {
        io::print_decimal(1, u64::from(mark));
    }
}

// What is left of the memory lent, in one word.
fn write_left(left: Left) {
    let word: &[u8] = match left {
        Left::Kept => b" kept\n",
        Left::Cleared => b" cleared\n",
        Left::Wrong => b" wrong\n",
    };
    io::write_all(1, word);
}

// The whole line.
pub fn write_answer(number: u32, pair: &[u32], counts: &[i32], doubtful: &[u8], left: Left) {
    io::print_decimal(1, u64::from(number));
    if number == 0 {
        pair.iter().copied().for_each(write_number);
        counts.iter().copied().for_each(write_count);
        write_marks(doubtful);
    }
    write_left(left);
}

// The whole line of a region map.
pub fn write_map(number: u32, regions: &[u32], labels: &[u32], left: Left) {
    io::write_all(1, b"map ");
    io::print_decimal(1, u64::from(number));
    if number == 0 {
        regions.iter().copied().for_each(write_number);
        labels.iter().copied().for_each(write_number);
    }
    write_left(left);
}

// A space and an f64's bits.
fn write_float(x: f64) {
    io::write_all(1, b" ");
    io::print_hex(1, std::num::f64_to_bits_with_nan(x), 16);
}

// The whole line of unfolded velocities.
pub fn write_velocities(number: u32, unfolded: &[f64]) {
    io::print_decimal(1, u64::from(number));
    if number == 0 {
        unfolded.iter().copied().for_each(write_float);
    }
    io::write_all(1, b"\n");
}

// The line that ends a run before its list does.
pub fn write_refusal(refusal: Refusal) {
    let line: &[u8] = match refusal {
        Refusal::Memory => b"refused: more gates or more memory than the arrays have\n",
        Refusal::Gates => b"refused: gates that are cut short or malformed\n",
        Refusal::Start => b"refused: a start of a sweep that is cut short or malformed\n",
    };
    io::write_all(1, line);
}
