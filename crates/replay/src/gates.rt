// One recorded sweep: fifteen numbers that set it, then two numbers a gate.
// The first nine: rays, gates, Nyquist's bits, splits, the skip between rays and along a ray, centring, wrap, gates recorded.
// The other six: how long the counts, the marks, the pair, the words and the floats lent are to be, and what is added to each count.
ghost use Rattle.std.specs.Prelude.{◌≡◌, ◌*◌, ◌≤◌, OnOk, length};
ghost use Rattle.replay.specs.Inside.Gates.{Gates};
ghost use Rattle.replay.specs.Inside.Start.{setting_of, start_by};

use crate::arrays;
use crate::words::{self, Got, Malformed};

// What a sweep is called with, but for its gates, numbers all as in the C interface; how much memory it is lent; and what is added to each count
// before the second entry.
#[derive(Clone, Copy)]
pub struct Setting {
    pub rays: u32,
    pub gates: u32,
    pub nyquist: f32,
    pub splits: u32,
    pub skip_between_rays: u32,
    pub skip_along_ray: u32,
    pub centred: u32,
    pub wrap: u32,
    pub recorded: usize,
    pub counts: usize,
    pub doubtful: usize,
    pub pair: usize,
    pub words: usize,
    pub floats: usize,
    pub more: u32,
}

// The setting that fifteen numbers say, in the order of the record.
impl From<[u32; 15]> for Setting {
    ghost from_gives = { λ n s. s ≡ setting_of n };

    #[tactic(auto, unfolding(crate::specs::Inside::Start::setting_of))]
    fn from(n: [u32; 15]) -> Setting {
        Setting {
            rays: n[0],
            gates: n[1],
            nyquist: std::num::f32_from_bits_with_nan(n[2]),
            splits: n[3],
            skip_between_rays: n[4],
            skip_along_ray: n[5],
            centred: n[6],
            wrap: n[7],
            recorded: n[8] as usize,
            counts: n[9] as usize,
            doubtful: n[10] as usize,
            pair: n[11] as usize,
            words: n[12] as usize,
            floats: n[13] as usize,
            more: n[14],
        }
    }
}

// The setting of a sweep by what a read of its numbers got; none at the end of the list.
#[tactic(auto, unfolding(crate::specs::Inside::Start::start_by))]
fn start_of(got: Result<Got, Malformed>, n: [u32; 15]) -> Result<Option<Setting>, Malformed>
    ensures { result ≡ start_by got n }
{
    match got? {
        Got::Numbers => Ok(Some(Setting::from(n))),
        Got::End => Ok(None),
    }
}

// The setting of a sweep, read from standard input; none at the end of the list.
pub fn read_start() -> Result<Option<Setting>, Malformed> {
    let mut text = [0u8; 135];
    let mut n = [0u32; 15];
    let got = words::read(&mut text, &mut n);
    start_of(got, n)
}

// Mask bytes and velocities from their numbers, unless a number is no byte. One index goes over three slices, one of which has two numbers a gate: a
// zip of chunks would be no plainer.
fn gates_of(numbers: &[u32], velocity: &mut [f32], valid: &mut [u8]) -> Result<(), Malformed>
    requires { (length numbers.now ≡ 2 * length velocity.old) × (length valid.old ≡ length velocity.old) }
    ensures { OnOk result (Gates numbers.now velocity.new valid.new) }
{
    for i in 0..velocity.len() {
        valid[i] = u8::try_from(numbers[2 * i]).map_err(|_| Malformed)?;
        velocity[i] = std::num::f32_from_bits_with_nan(numbers[2 * i + 1]);
    }
    Ok(())
}

// Reads a sweep's gates; text that ends before them is malformed.
pub fn read_gates(velocity: &mut [f32], valid: &mut [u8]) -> Result<(), Malformed>
    requires { (length velocity.old ≤ 128) × (length valid.old ≡ length velocity.old) }
{
    let n = velocity.len();
    let mut text = [0u8; 18 * arrays::GATES];
    let mut numbers = [0u32; 2 * arrays::GATES];
    let text = &mut text[..18 * n];
    let numbers = &mut numbers[..2 * n];
    match words::read(text, numbers)? {
        Got::Numbers => gates_of(numbers, velocity, valid),
        Got::End => Err(Malformed),
    }
}
