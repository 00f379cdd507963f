// The writer: from a sweep, its velocities as bits, to a file.
ghost use Rattle.std.specs.Prelude.{◌≡◌, [], ◌∷◌, ◌++◌, map, ◌+◌, ◌*◌, ◌<◌, ◌≤◌, length};
ghost use Rattle.std.specs.Float.{binary32};
ghost use Rattle.std.specs.Float.Ieee.{of_bits};
ghost use Rattle.lists.specs.Inside.Seg.{put};
ghost use Rattle.sweep.specs.Questions.{first_no, velocities_in_range};
ghost use Rattle.sweep.specs.Entry.{answer_of};
ghost use Rattle.sweep.specs.Refusal.{missed_by};
ghost use Rattle.files.specs.Format.{stored, u32_bytes, file_length, option_bytes, field, ray_bytes, rays_bytes};
ghost use Rattle.files.specs.Inside.Header.{size_bytes};
ghost use Rattle.files.specs.Questions.{slices_fit, write_questions};
ghost use Rattle.files.specs.Calls.{written_by, write};

use crate::format::Header;
use crate::{bits, format};
use sweep::questions;
use sweep::refusal::Refusal;

// A sweep as a file holds it: the header's numbers, and for each gate its velocity's bits and its mask byte.
#[derive(Clone, Copy)]
pub struct Stored<'a> {
    pub header: Header,
    pub velocity: &'a [u32],
    pub valid: &'a [u8],
}

// Stores a gate.
fn put_gate(file: &mut [u8], at: usize, mask: u8, bits: u32)
    requires { at + 5 ≤ length file.old }
    ensures { file.new ≡ put file.old at (mask ∷ [] ++ u32_bytes bits) }
{
    file[at] = mask;
    format::put_u32(file, at + 1, bits);
}

// Stores the gates of a ray, the first being gate `first` of the sweep.
#[tactic(auto, using(crate::proofs::CodeLaws::gates_begin, crate::proofs::CodeLaws::gates_more))]
fn put_gates(file: &mut [u8], at: usize, s: Stored, first: usize)
    requires room { at + 5 * s.header.gates ≤ length file.old }
    requires velocity_holds { first + s.header.gates ≤ length s.velocity.now }
    requires valid_holds { first + s.header.gates ≤ length s.valid.now }
    ensures { file.new ≡ put file.old at (ray_bytes s.entry.velocity.now s.entry.valid.now s.entry.header.gates first) }
{
    for g in 0..s.header.gates as usize {
        let i = first + g;
        put_gate(file, at + 5 * g, s.valid[i], s.velocity[i]);
    }
}

// Stores the field of a ray.
#[tactic(auto, using(crate::proofs::CodeLaws::ray_stored))]
fn put_ray(file: &mut [u8], at: usize, s: Stored, first: usize)
    requires few { s.header.gates < 13108 }
    requires room { at + 3 + 5 * s.header.gates ≤ length file.old }
    requires velocity_holds { first + s.header.gates ≤ length s.velocity.now }
    requires valid_holds { first + s.header.gates ≤ length s.valid.now }
    ensures { file.new ≡ put file.old at (field 2 (ray_bytes s.entry.velocity.now s.entry.valid.now s.entry.header.gates first)) }
{
    file[at] = 2;
    format::put_u16(file, at + 1, (5 * s.header.gates) as u16);
    put_gates(file, at + 3, s, first);
}

// Stores the fields of all rays.
#[tactic(auto, using(crate::proofs::CodeLaws::rays_begin, crate::proofs::CodeLaws::rays_more, crate::proofs::CallLaws::ray_inside))]
fn put_rays(file: &mut [u8], s: Stored)
    requires file_long { length file.old ≡ file_length s.header.rays s.header.gates }
    requires few { (s.header.rays < 65536) × (s.header.gates < 13108) }
    requires velocity_long { length s.velocity.now ≡ s.header.rays * s.header.gates }
    requires valid_long { length s.valid.now ≡ s.header.rays * s.header.gates }
    ensures { file.new ≡ put file.old 18 (rays_bytes s.entry.velocity.now s.entry.valid.now s.entry.header.rays s.entry.header.gates) }
{
    let gates = s.header.gates as usize;
    for r in 0..s.header.rays as usize {
        put_ray(file, format::ray_at(gates, r), s, r * gates);
    }
}

// Stores the header's field up to Nyquist.
#[tactic(auto, using(crate::proofs::CodeLaws::size_stored))]
fn put_size(file: &mut [u8], h: Header)
    requires room { 18 ≤ length file.old }
    requires two_bytes { (h.rays < 65536) × (h.gates < 65536) }
    ensures { file.new ≡ put file.old 0 (size_bytes h) }
{
    file[0] = 1;
    format::put_u16(file, 1, 15);
    format::put_u16(file, 3, h.rays as u16);
    format::put_u16(file, 5, h.gates as u16);
    format::put_u32(file, 7, h.nyquist);
}

// Stores the rest of it.
#[tactic(auto, using(crate::proofs::CodeLaws::options_stored))]
fn put_options(file: &mut [u8], h: Header)
    requires room { 18 ≤ length file.old }
    requires two_bytes { (h.splits < 65536) × (h.skip_between_rays < 65536) × (h.skip_along_ray < 65536) }
    requires bits { (h.centred ≤ 1) × (h.wrap ≤ 1) }
    ensures { file.new ≡ put file.old 11 (option_bytes h) }
{
    format::put_u16(file, 11, h.splits as u16);
    format::put_u16(file, 13, h.skip_between_rays as u16);
    format::put_u16(file, 15, h.skip_along_ray as u16);
    file[17] = (h.centred + 2 * h.wrap) as u8;
}

// Question 7. What stands at a masked gate does not matter.
fn velocities_in_range(velocity: &[u32], valid: &[u8]) -> bool
    requires { length valid.now ≡ length velocity.now }
    ensures { result ≡ velocities_in_range (map (of_bits binary32) velocity.now) valid.now }
{
    velocity
        .iter()
        .zip(valid)
        .all(|(&v, &m)| m != 1 || bits::velocity_in_range(v))
}

// Question 2, of the lengths of velocities, mask and buffer.
#[tactic(auto, unfolding(crate::specs::Questions::slices_fit, crate::specs::Format::file_length))]
fn slices_fit(s: Stored, buffer: usize) -> bool
    requires { (s.header.rays < 65536) × (s.header.gates < 65536) }
    ensures { result ≡ slices_fit (stored s.entry.header s.entry.velocity.now s.entry.valid.now) buffer }
{
    let n = questions::gates_in(s.header.rays, s.header.gates);
    let end = format::ray_at(s.header.gates as usize, s.header.rays as usize);
    questions::two_long(s.velocity.len(), n, s.valid.len(), n) && buffer == end
}

// The questions of the writer: the first that gets a no refuses.
#[tactic(auto, using(sweep::proofs::PassedLaws::size_rays, sweep::proofs::PassedLaws::size_gates), unfolding(crate::specs::Inside::Asking::asking))]
fn missed(s: Stored, buffer: usize) -> Result<(), Refusal>
    ensures { missed_by result ≡ first_no (write_questions (stored s.entry.header s.entry.velocity.now s.entry.valid.now) buffer) }
{
    let h = s.header;
    if !questions::size_in_range(h.rays, h.gates) {
        return Err(Refusal::Size);
    }
    if !slices_fit(s, buffer) {
        return Err(Refusal::Lengths);
    }
    if !questions::mask_is_bits(s.valid) {
        return Err(Refusal::Mask);
    }
    if !bits::nyquist_in_range(h.nyquist) {
        return Err(Refusal::Nyquist);
    }
    if !questions::options_in_range(
        h.splits,
        h.skip_between_rays,
        h.skip_along_ray,
        h.centred,
        h.wrap,
    ) {
        return Err(Refusal::Options);
    }
    if !velocities_in_range(s.velocity, s.valid) {
        return Err(Refusal::Velocities);
    }
    Ok(())
}

// The writer's call.
#[tactic(auto, using(crate::proofs::CallLaws::of_write))]
pub fn write(s: Stored, file: &mut [u8]) -> Result<(), Refusal>
    ensures { written_by (answer_of (missed_by result)) file.new ≡ write (stored s.entry.header s.entry.velocity.now s.entry.valid.now) file.old }
{
    missed(s, file.len())?;
    put_size(file, s.header);
    put_options(file, s.header);
    put_rays(file, s);
    Ok(())
}
