// The calls of the exported entries: the reader with its header as words, the writer of options, and a file's size.
ghost use Rattle.std.specs.Prelude.{◌≡◌};
ghost use Rattle.sweep.specs.Entry.{answer_of};
ghost use Rattle.sweep.specs.Refusal.{missed_by};
ghost use Rattle.files.specs.Calls.{call_read, read_answer_by, call_write, written_by, call_size, size_answer_by};

use crate::format::Header;
use crate::writer::{self, Stored};
use crate::{format, reader};
use network::options::Options;
use sweep::refusal::Refusal;

// Reads a sweep file. The header's eight numbers go to a slice of 8 words; those of a refused file are 0.
#[tactic(auto, using(crate::proofs::CallLaws::words_long, crate::proofs::CallLaws::words_done), unfolding(crate::specs::Calls::header_words))]
pub fn read_sweep(
    file: &[u8],
    velocity_bits: &mut [u32],
    valid: &mut [u8],
    header: &mut [u32],
) -> Result<(), Refusal>
    ensures { read_answer_by (answer_of (missed_by result)) velocity_bits.new valid.new header.new
        ≡ call_read file.now velocity_bits.old valid.old header.old }
{
    if header.len() != 8 {
        return Err(Refusal::Lengths);
    }
    match reader::read(file, velocity_bits, valid) {
        Ok(h) => {
            header.copy_from_slice(&h.words());
            Ok(())
        }
        Err(refusal) => {
            header.fill(0);
            Err(refusal)
        }
    }
}

// Writes a sweep file.
#[tactic(auto, unfolding(crate::specs::Calls::call_write))]
pub fn write_sweep(
    o: Options,
    velocity_bits: &[u32],
    valid: &[u8],
    file: &mut [u8],
) -> Result<(), Refusal>
    ensures { written_by (answer_of (missed_by result)) file.new ≡ call_write o velocity_bits.now valid.now file.old }
{
    let header = Header::from(o);
    writer::write(
        Stored {
            header,
            velocity: velocity_bits,
            valid,
        },
        file,
    )
}

// Rays and gates of a file's header, so that a host knows how much memory to lend.
#[tactic(auto, using(crate::proofs::CallLaws::of_size))]
pub fn sweep_size(file: &[u8], size: &mut [u32]) -> Result<(), Refusal>
    ensures { size_answer_by (answer_of (missed_by result)) size.new ≡ call_size file.now size.old }
{
    if size.len() != 2 {
        return Err(Refusal::Lengths);
    }
    reader::header_fault(file)?;
    size[0] = format::read_u16(file, 3) as u32;
    size[1] = format::read_u16(file, 5) as u32;
    Ok(())
}
