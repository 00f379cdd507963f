// Where the parts of the work memory lie: the multiples of specs/Inside/Layout, by name.

// What a sweep asks for: so many words and floats a gate, and so many more.
pub const WORDS: usize = 96;

pub const WORDS_MORE: usize = 64;

pub const FLOATS: usize = 16;

pub const FLOATS_MORE: usize = 16;

// In gates: where the gates that pairs see begin, the sorted numbers of the pairs, and the tables of edges and nodes.
pub const SEEN: usize = 5;

pub const ORDER: usize = 9;

pub const TABLES: usize = 13;

// In edges, from the tables on: where the first ends begin, the second ends, the numbers of bridged pairs, the slots of the chains, and what
// there is of each node.
pub const FIRST: usize = 3;

pub const SECOND: usize = 4;

pub const BRIDGED: usize = 5;

pub const SLOTS: usize = 6;

pub const NODES: usize = 8;

// In nodes, from there on: where the stamps begin, the sizes, the lengths of the chains of slots and of regions, the counts
// and the marks.
// The headers of the slots lie before them, and the chains of regions one table further on.
pub const STAMPS: usize = 2;

pub const SIZES: usize = 3;

pub const SLOT_LENGTHS: usize = 4;

pub const REGION_LENGTHS: usize = 5;

pub const COUNTS: usize = 6;

pub const MARKS: usize = 7;

pub const NODE_TABLES: usize = 8;

// The log of merges lies behind these tables: so many words an entry, and one entry an edge, since a merge consumes one.
pub const ENTRY: usize = 6;

// Counts, and the numbers that nodes are moved by, are kept as words with 1,000 added: the word of 0, and of 1,000.
pub const ZERO: u32 = 1000;

pub const MOST: u32 = 2000;
