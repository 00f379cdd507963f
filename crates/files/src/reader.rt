// The reader: from a file to a sweep, its velocities as bits.
// Velocities and mask go to two slices: a struct of two `&mut` would be built only to be taken apart.
ghost use Rattle.std.specs.Prelude.{◌≡◌, map, ◌*◌, ◌<◌, ◌≤◌, length, IfOk};
ghost use Rattle.std.specs.Result.{result_unwrap_or};
ghost use Rattle.std.specs.Float.{binary32};
ghost use Rattle.std.specs.Float.Ieee.{of_bits};
ghost use Rattle.sweep.specs.Questions.{first_no, mask_is_bits, velocities_in_range};
ghost use Rattle.sweep.specs.Entry.{answer_of};
ghost use Rattle.sweep.specs.Refusal.{missed_by};
ghost use Rattle.files.specs.Format.{u16_at, file_length, header_in, bits_in, mask_in};
ghost use Rattle.files.specs.Inside.Gates.{mask_at, bits_at};
ghost use Rattle.files.specs.Questions.{field_questions, header_questions, rays_questions, body_questions, content_questions};
ghost use Rattle.files.specs.Calls.{no_header, read_by, read};

use crate::format::Header;
use crate::{bits, format};
use sweep::questions;
use sweep::refusal::Refusal;

// The first fault of a field that is to begin at a place.
#[tactic(auto, unfolding(crate::specs::Inside::Asking::asking))]
fn field_fault(file: &[u8], at: usize, tag: u8, len: usize) -> Result<(), Refusal>
    requires { (at < 30000000000) × (len < 400000) }
    ensures { missed_by result ≡ first_no (field_questions file.now at tag len) }
{
    let end = at + 3 + len;
    if file.len() <= at {
        return Err(Refusal::CutShort);
    }
    if file[at] != tag {
        return Err(Refusal::Malformed);
    }
    if file.len() < end {
        return Err(Refusal::CutShort);
    }
    if format::read_u16(file, at + 1) as usize != len {
        return Err(Refusal::CutShort);
    }
    Ok(())
}

// The first fault of the header, question 1 with it.
#[tactic(auto, unfolding(crate::specs::Inside::Asking::asking))]
pub fn header_fault(file: &[u8]) -> Result<(), Refusal>
    ensures { missed_by result ≡ first_no (header_questions file.now) }
{
    field_fault(file, 0, 1, 15)?;
    if file[17] >= 4 {
        return Err(Refusal::Malformed);
    }
    let rays = format::read_u16(file, 3);
    let gates = format::read_u16(file, 5);
    if !questions::size_in_range(rays as u32, gates as u32) {
        return Err(Refusal::Size);
    }
    Ok(())
}

// The first fault of the rays' fields.
#[tactic(auto, using(crate::proofs::CodeLaws::of_rays))]
fn rays_fault(file: &[u8], rays: u16, gates: u16) -> Result<(), Refusal>
    ensures { missed_by result ≡ first_no (rays_questions file.now gates rays 0) }
{
    for r in 0..rays {
        let at = format::ray_at(gates as usize, r as usize);
        field_fault(file, at, 2, 5 * gates as usize)?;
    }
    Ok(())
}

// A file whose fields are whole: rays and gates are those of its header, and it ends after the last ray.
#[derive(Clone, Copy)]
struct Whole<'a> {
    file: &'a [u8],
    rays: u16,
    gates: u16,
    ghost rays_read: { rays ≡ u16_at file.now 3 },
    ghost gates_read: { gates ≡ u16_at file.now 5 },
    ghost long: { length file.now ≡ file_length rays gates },
}

// The file after a whole header, or its first fault.
#[tactic(auto, using(crate::proofs::CodeLaws::of_body), unfolding(crate::specs::Format::file_length))]
fn whole_file(file: &[u8]) -> Result<Whole, Refusal>
    requires { 18 ≤ length file.now }
    ensures missed { missed_by result ≡ first_no (body_questions file.now) }
    ensures same { IfOk result (λ w. w.file.now ≡ file.now) }
{
    let rays = format::read_u16(file, 3);
    let gates = format::read_u16(file, 5);
    rays_fault(file, rays, gates)?;
    if file.len() != format::ray_at(gates as usize, rays as usize) {
        return Err(Refusal::Malformed);
    }
    Ok(Whole { file, rays, gates })
}

impl Whole<'_> {
    // How many gates it has.
    fn gates_in(self) -> usize
        ensures { result ≡ self.entry.rays * self.entry.gates }
    {
        questions::gates_in(self.rays as u32, self.gates as u32)
    }

    // A gate's mask byte.
    #[tactic(auto, using(crate::proofs::CodeLaws::gate_inside), unfolding(crate::specs::Inside::Gates::mask_at))]
    fn mask(self, i: usize) -> u8
        requires { i < self.rays * self.gates }
        ensures { result ≡ mask_at self.entry.file.now self.entry.gates i }
    {
        self.file[format::gate_at(self.gates as usize, i)]
    }

    // The bits of a gate's velocity.
    #[tactic(auto, using(crate::proofs::CodeLaws::gate_inside), unfolding(crate::specs::Inside::Gates::bits_at))]
    fn bits(self, i: usize) -> u32
        requires { i < self.rays * self.gates }
        ensures { result ≡ bits_at self.entry.file.now self.entry.gates i }
    {
        format::read_u32(self.file, format::gate_at(self.gates as usize, i) + 1)
    }

    // Question 3.
    fn mask_is_bits(self) -> bool
        ensures { result ≡ mask_is_bits (mask_in self.entry.file.now self.entry.rays self.entry.gates) }
    {
        (0..self.gates_in()).all(|i| self.mask(i) <= 1)
    }

    // Question 7. What stands at a masked gate does not matter.
    fn velocities_in_range(self) -> bool
        ensures { result ≡ velocities_in_range (map (of_bits binary32) (bits_in self.entry.file.now self.entry.rays self.entry.gates)) (mask_in self.entry.file.now self.entry.rays self.entry.gates) }
    {
        (0..self.gates_in()).all(|i| self.mask(i) != 1 || bits::velocity_in_range(self.bits(i)))
    }

    // Questions 2, 3, 5, 6 and 7, h being the file's header. `velocity` and `valid` are lengths.
    #[tactic(auto, unfolding(crate::specs::Inside::Asking::asking))]
    fn content_missed(self, h: Header, velocity: usize, valid: usize) -> Result<(), Refusal>
        requires { h ≡ header_in self.file.now }
        ensures { missed_by result ≡ first_no (content_questions self.entry.file.now velocity valid) }
    {
        let n = self.gates_in();
        if !questions::two_long(velocity, n, valid, n) {
            return Err(Refusal::Lengths);
        }
        if !self.mask_is_bits() {
            return Err(Refusal::Mask);
        }
        if !bits::nyquist_in_range(h.nyquist) {
            return Err(Refusal::Nyquist);
        }
        if !questions::options_in_range(
            h.splits,
            h.skip_between_rays,
            h.skip_along_ray,
            h.centred,
            h.wrap,
        ) {
            return Err(Refusal::Options);
        }
        if !self.velocities_in_range() {
            return Err(Refusal::Velocities);
        }
        Ok(())
    }

    // Velocities' bits and mask bytes.
    #[tactic(auto, using(sweep::proofs::FillLaws::fill_begin, sweep::proofs::FillLaws::fill_on))]
    fn read_gates(self, velocity: &mut [u32], valid: &mut [u8])
        requires velocity_long { length velocity.old ≡ self.rays * self.gates }
        requires valid_long { length valid.old ≡ self.rays * self.gates }
        ensures velocity { velocity.new ≡ bits_in self.entry.file.now self.entry.rays self.entry.gates }
        ensures valid { valid.new ≡ mask_in self.entry.file.now self.entry.rays self.entry.gates }
    {
        for i in 0..velocity.len() {
            velocity[i] = self.bits(i);
            valid[i] = self.mask(i);
        }
    }
}

// The header's numbers.
#[tactic(auto, unfolding(crate::specs::Format::header_in))]
fn read_header(file: &[u8]) -> Header
    requires { 18 ≤ length file.now }
    ensures { result ≡ header_in file.now }
{
    let options = file[17] as u32;
    Header {
        rays: format::read_u16(file, 3) as u32,
        gates: format::read_u16(file, 5) as u32,
        nyquist: format::read_u32(file, 7),
        splits: format::read_u16(file, 11) as u32,
        skip_between_rays: format::read_u16(file, 13) as u32,
        skip_along_ray: format::read_u16(file, 15) as u32,
        centred: options % 2,
        wrap: options / 2 % 2,
    }
}

// The reader's call.
#[tactic(auto, using(crate::proofs::CallLaws::of_read))]
pub fn read(file: &[u8], velocity: &mut [u32], valid: &mut [u8]) -> Result<Header, Refusal>
    ensures { read_by (answer_of (missed_by result)) (result_unwrap_or result no_header) velocity.new valid.new
        ≡ read file.now velocity.old valid.old }
{
    header_fault(file)?;
    let whole = whole_file(file)?;
    let h = read_header(file);
    whole.content_missed(h, velocity.len(), valid.len())?;
    whole.read_gates(velocity, valid);
    Ok(h)
}
