// What the second entry and the window work on, beside network's `Sweep`. Nothing is assumed of it.

// A sweep with the fold counts and the labels of its gates, which the second entry and the window take.
#[derive(Clone, Copy)]
pub struct Counted<'a> {
    pub rays: u32,
    pub gates: u32,
    pub nyquist: f32,
    pub velocity: &'a [f32],
    pub valid: &'a [u8],
    pub folds: &'a [i32],
    pub labels: &'a [u32],
}
