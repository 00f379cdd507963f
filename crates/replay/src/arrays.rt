// Memory for one sweep of at most 128 gates, and what it holds before a call: the pattern, 7 in each place.
use memory::layout;

// The pattern, as a word, as a count, as a mark and as an f64.
pub const WORD: u32 = 7;

pub const COUNT: i32 = 7;

pub const MARK: u8 = 7;

pub const FLOAT: f64 = 7.0;

// How much there is: gates; counts, marks and labels; words of the pair, and of the number of regions; words and f64 of the work memory. All but the
// gates are a few more than a sweep of as many gates asks for, so that what is lent can be longer than asked.
pub const GATES: usize = 128;

pub const COUNTS: usize = GATES + 8;

pub const PAIR: usize = 4;

pub const WORDS: usize = layout::WORDS * GATES + layout::WORDS_MORE + 64;

pub const FLOATS: usize = layout::FLOATS * GATES + layout::FLOATS_MORE + 16;
