// What region finding works on. Nothing is assumed of it.
use crate::options::Options;

// A sweep as a host lends it: the options of the call, and a velocity and a mask byte for each gate.
#[derive(Clone, Copy)]
pub struct Sweep<'a> {
    pub options: Options,
    pub velocity: &'a [f32],
    pub valid: &'a [u8],
}
