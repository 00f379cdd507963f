// What the call works on. Nothing is assumed of it.
use network::options::Options;

// Two channels as a host lends them: the options of the call, which both go by, and for each channel a velocity and a mask byte for each gate.
#[derive(Clone, Copy)]
pub struct Channels<'a> {
    pub options: Options,
    pub h_velocity: &'a [f32],
    pub h_valid: &'a [u8],
    pub v_velocity: &'a [f32],
    pub v_valid: &'a [u8],
}
