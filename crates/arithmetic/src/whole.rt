// A whole number to the nearest f32, ties to even: Rust's `as f32` of an integer. std's `nearest_i64_to_f32` promises the same; this one stays because
// the edit `tie_to_odd` is one of `closest_to`.
ghost use Rattle.std.specs.Prelude.{◌≡◌, ◌^◌, ◌≤◌, pos};
ghost use Rattle.std.specs.Float.Ieee as Ieee;
ghost use Rattle.std.specs.Float.{binary32};
ghost use Rattle.std.specs.Float.Ieee.Nearest.{closest};

// n / unit to the nearest whole number, ties to even.
fn closest_to(n: u64, unit: u64) -> u64
    requires { (2 ≤ unit) × (unit ≤ 2 ^ 62) }
    ensures { result ≡ closest n unit }
{
    let q = n / unit;
    let twice = n % unit * 2;
    if twice < unit {
        return q;
    }
    if twice == unit {
        return q + q % 2;
    }
    q + 1
}

// The f32 nearest to n. The count of leading zeros says how many of n's digits are past the 24 that an f32 keeps.
fn nearest_u64_to_f32(n: u64) -> f32
    ensures { result ≡ Ieee.of_int binary32 (pos n) }
{
    let z = u64::leading_zeros(n);
    if z >= 40 {
        return n as f32;
    }
    let unit = 1u64 << (40 - z);
    let q = closest_to(n, unit);
    ((q as f64) * (unit as f64)) as f32
}

// The same of a number of either sign.
pub fn nearest_i64_to_f32(n: i64) -> f32
    ensures { result ≡ Ieee.of_int binary32 n }
{
    let size = nearest_u64_to_f32(n.unsigned_abs());
    if n < 0 { -size } else { size }
}
