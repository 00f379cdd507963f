// The median of the winds that a gate shows in the sweeps held: the four least of at most eight are kept, and the lower middle one is among them. No
// branch hangs on whether a gate is masked: at random masks those would cost more than all else.
ghost use Rattle.std.specs.Prelude.{◌≡◌, List, [], ◌≤◌, ◌<◌, length, Float};
ghost use Rattle.window.specs.Median as M;
ghost use Rattle.window.specs.Window as W;
ghost use Rattle.window.specs.Inside.Drawing.{four_of, floor_of, middle_of, drawn_of, Held};

use arithmetic::intervals::{greater, lesser};

// The four least so far; infinity where there are fewer.
#[derive(Clone, Copy)]
pub struct Four {
    pub a: f64,
    pub b: f64,
    pub c: f64,
    pub d: f64,
}

// No values yet.
fn no_values() -> Four
    ensures { result ≡ four_of [] }
{
    Four {
        a: f64::INFINITY,
        b: f64::INFINITY,
        c: f64::INFINITY,
        d: f64::INFINITY,
    }
}

// The four least with x among them.
fn with_value(s: Four, x: f64) -> Four
    ensures { (l : List Float) → s ≡ four_of l → result ≡ four_of (M.place x l) }
{
    let y = greater(x, s.a);
    let z = greater(y, s.b);
    let u = greater(z, s.c);
    Four {
        a: lesser(x, s.a),
        b: lesser(y, s.b),
        c: lesser(z, s.c),
        d: lesser(u, s.d),
    }
}

// Below every number where the byte is 1, else infinity.
fn floor_of(byte: u8) -> f64
    ensures { result ≡ floor_of byte }
{
    if byte == 1 {
        f64::NEG_INFINITY
    } else {
        f64::INFINITY
    }
}

// The lower middle one of k values, if there are any.
fn middle(s: Four, k: usize) -> Option<f64>
    requires { k ≤ 8 }
    ensures { (l : List Float) → s ≡ four_of l → k ≡ length l → result ≡ middle_of l }
{
    if k == 0 {
        return None;
    }
    let least = [s.a, s.b, s.c, s.d];
    let lower = (k - 1) / 2;
    Some(least[lower])
}

// The places of the ring.
pub(crate) const PLACES: usize = 8;

// The place after p: the first after the last.
#[tactic(auto, unfolding(crate::specs::Window::after))]
pub fn after(p: usize) -> usize
    requires { p < 8 }
    ensures { result ≡ W.after p }
{
    (p + 1) % PLACES
}

// What gate g of n shows: the median over `held` sweeps from place `first` on, if it shows a wind in any. A wind that is not shown is read as infinity, which
// takes no other's place.
pub fn drawn_at(
    winds: &[f64],
    shown: &[u8],
    n: usize,
    g: usize,
    first: usize,
    held: usize,
) -> Option<f64>
    requires { Held winds.now shown.now n first held × (g < n) }
    ensures { result ≡ drawn_of (W.winds_from winds.now shown.now n g first held) }
{
    let mut s = no_values();
    let mut k: usize = 0;
    let mut p = first;
    for _ in 0..held {
        let i = p * n + g;
        let byte = shown[i];
        s = with_value(s, greater(winds[i], floor_of(byte)));
        k += usize::from(byte == 1);
        p = after(p);
    }
    middle(s, k)
}
