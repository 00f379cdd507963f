// Where each word of the tables lies in the lent words: specs/Inside/Table's places, by edge, slot, node or merge.
// One method a table, and none that takes the table's number: two variables multiplied in it would leave each bound to a law of its own.
ghost use Rattle.std.specs.Prelude.{◌≡◌, ◌+◌, ◌*◌, ◌^◌, ◌<◌};
ghost use Rattle.merge.specs.Inside.Table.{first, second, bridged, enext, rnext, stamp, size, elen, rlen, count, mark, log, from};

use memory::layout;

// How many edges and nodes there are: the tables' places follow from these. A slot is an edge's end or a node's header, and its number is below 2^31.
#[derive(Clone, Copy)]
pub struct Places {
    pub edges: usize,
    pub nodes: usize,
    ghost small: { 2 * edges + nodes < 2 ^ 31 },
}

impl Places {
    // Edge e's first end.
    pub fn first(self, e: usize) -> usize
        requires { e < self.edges }
        ensures { result ≡ from first self.edges self.nodes + e }
    {
        layout::FIRST * self.edges + e
    }

    // Edge e's second end.
    pub fn second(self, e: usize) -> usize
        requires { e < self.edges }
        ensures { result ≡ from second self.edges self.nodes + e }
    {
        layout::SECOND * self.edges + e
    }

    // How many of edge e's pairs are bridged.
    pub fn bridged(self, e: usize) -> usize
        requires { e < self.edges }
        ensures { result ≡ from bridged self.edges self.nodes + e }
    {
        layout::BRIDGED * self.edges + e
    }

    // The slot after slot x.
    pub fn slot(self, x: u32) -> usize
        ensures { result ≡ from enext self.edges self.nodes + x }
    {
        layout::SLOTS * self.edges + x as usize
    }

    // The number of node v's header among the slots.
    pub fn header(self, v: u32) -> u32
        requires { v < self.nodes }
        ensures { result ≡ 2 * self.edges + v }
    {
        (2 * self.edges + v as usize) as u32
    }

    // The slot after node v's header.
    pub fn head(self, v: u32) -> usize
        ensures { result ≡ from enext self.edges self.nodes + (2 * self.edges + v) }
    {
        layout::SLOTS * self.edges + (2 * self.edges + v as usize)
    }

    // The region after v.
    pub fn next_region(self, v: u32) -> usize
        ensures { result ≡ from rnext self.edges self.nodes + v }
    {
        layout::NODES * self.edges + self.nodes + v as usize
    }

    // Node v's stamp.
    pub fn stamp(self, v: u32) -> usize
        ensures { result ≡ from stamp self.edges self.nodes + v }
    {
        layout::NODES * self.edges + layout::STAMPS * self.nodes + v as usize
    }

    // Node v's gates.
    pub fn size(self, v: u32) -> usize
        ensures { result ≡ from size self.edges self.nodes + v }
    {
        layout::NODES * self.edges + layout::SIZES * self.nodes + v as usize
    }

    // The length of node v's chain of slots.
    pub fn slot_length(self, v: u32) -> usize
        ensures { result ≡ from elen self.edges self.nodes + v }
    {
        layout::NODES * self.edges + layout::SLOT_LENGTHS * self.nodes + v as usize
    }

    // The length of node v's chain of regions.
    pub fn region_length(self, v: u32) -> usize
        ensures { result ≡ from rlen self.edges self.nodes + v }
    {
        layout::NODES * self.edges + layout::REGION_LENGTHS * self.nodes + v as usize
    }

    // Region v's count.
    pub fn count(self, v: u32) -> usize
        ensures { result ≡ from count self.edges self.nodes + v }
    {
        layout::NODES * self.edges + layout::COUNTS * self.nodes + v as usize
    }

    // Region v's mark.
    pub fn mark(self, v: u32) -> usize
        ensures { result ≡ from mark self.edges self.nodes + v }
    {
        layout::NODES * self.edges + layout::MARKS * self.nodes + v as usize
    }

    // The first word of merge k's entry in the log.
    pub fn entry(self, k: usize) -> usize
        requires { k < self.edges }
        ensures { result ≡ from log self.edges self.nodes + 6 * k }
    {
        layout::NODES * self.edges + layout::NODE_TABLES * self.nodes + layout::ENTRY * k
    }
}
