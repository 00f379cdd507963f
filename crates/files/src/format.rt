// What reader and writer share: the header, numbers of two and four bytes, and where a ray or a gate begins.
ghost use Rattle.std.specs.Prelude.{◌≡◌, ◌+◌, ◌<◌, ◌≤◌, length};
ghost use Rattle.lists.specs.Inside.Seg.{put};
ghost use Rattle.files.specs.Format.{header_by, options_by, u16_at, u32_at, u16_bytes, u32_bytes, ray_at, gate_at};
ghost use Rattle.files.specs.Calls.{header_words};

use network::options::Options;
use std::num::{f32_from_bits_with_nan, f32_to_bits_with_nan};

// The header's numbers. Nyquist is given by its bits. In a file rays begin at byte 3, gates at 5, Nyquist at 7, splits at 11, the skips at 13 and 15,
// and byte 17 has the options.
#[derive(Clone, Copy, Debug, PartialEq, Eq)]
pub struct Header {
    pub rays: u32,
    pub gates: u32,
    pub nyquist: u32,
    pub splits: u32,
    pub skip_between_rays: u32,
    pub skip_along_ray: u32,
    pub centred: u32,
    pub wrap: u32,
}

impl Header {
    // The numbers as the words of an exported entry.
    #[tactic(auto, unfolding(crate::specs::Calls::header_words))]
    pub fn words(self) -> [u32; 8]
        ensures { result ≡ header_words self }
    {
        [
            self.rays,
            self.gates,
            self.nyquist,
            self.splits,
            self.skip_between_rays,
            self.skip_along_ray,
            self.centred,
            self.wrap,
        ]
    }
}

// The header of options.
impl From<Options> for Header {
    ghost from_gives = { λ o h. h ≡ header_by o };

    fn from(o: Options) -> Header {
        Header {
            rays: o.rays,
            gates: o.gates,
            nyquist: f32_to_bits_with_nan(o.nyquist),
            splits: o.splits,
            skip_between_rays: o.skip_between_rays,
            skip_along_ray: o.skip_along_ray,
            centred: o.centred,
            wrap: o.wrap,
        }
    }
}

// The options of a header.
impl From<Header> for Options {
    ghost from_gives = { λ h o. o ≡ options_by h };

    fn from(h: Header) -> Options {
        Options {
            rays: h.rays,
            gates: h.gates,
            nyquist: f32_from_bits_with_nan(h.nyquist),
            splits: h.splits,
            skip_between_rays: h.skip_between_rays,
            skip_along_ray: h.skip_along_ray,
            centred: h.centred,
            wrap: h.wrap,
        }
    }
}

// Numbers of two and of four bytes: std has their bytes for each type, and no trait for both.

// The number of two bytes.
#[tactic(auto, unfolding(crate::specs::Format::u16_at))]
pub fn read_u16(file: &[u8], at: usize) -> u16
    requires { at + 2 ≤ length file.now }
    ensures { result ≡ u16_at file.now at }
{
    u16::from_be_bytes([file[at], file[at + 1]])
}

// The number of four bytes.
#[tactic(auto, unfolding(crate::specs::Format::u16_at, crate::specs::Format::u32_at))]
pub fn read_u32(file: &[u8], at: usize) -> u32
    requires { at + 4 ≤ length file.now }
    ensures { result ≡ u32_at file.now at }
{
    u32::from_be_bytes([file[at], file[at + 1], file[at + 2], file[at + 3]])
}

// Stores a number as two bytes.
pub fn put_u16(file: &mut [u8], at: usize, number: u16)
    requires { at + 2 ≤ length file.old }
    ensures { file.new ≡ put file.old at (u16_bytes number) }
{
    file[at..at + 2].copy_from_slice(&number.to_be_bytes());
}

// Stores a number as four bytes.
pub fn put_u32(file: &mut [u8], at: usize, number: u32)
    requires { at + 4 ≤ length file.old }
    ensures { file.new ≡ put file.old at (u32_bytes number) }
{
    file[at..at + 4].copy_from_slice(&number.to_be_bytes());
}

// Where ray r begins.
#[tactic(auto, using(crate::proofs::CodeLaws::ray_room), unfolding(crate::specs::Format::ray_at))]
pub fn ray_at(gates: usize, r: usize) -> usize
    requires { (gates < 65536) × (r < 65536) }
    ensures { (result ≡ ray_at gates r) × (result < 30000000000) }
{
    18 + r * (3 + 5 * gates)
}

// Where gate i of the sweep begins.
#[tactic(auto, unfolding(crate::specs::Format::gate_at))]
pub fn gate_at(gates: usize, i: usize) -> usize
    requires { (0 < gates) × (i < 4294967296) }
    ensures { result ≡ gate_at gates i }
{
    21 + 3 * (i / gates) + 5 * i
}
