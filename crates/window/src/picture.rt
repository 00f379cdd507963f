// An arrival written at its place in the window, and the picture drawn.
ghost use Rattle.std.specs.Prelude.{◌≡◌, cond, ◌+◌, ◌≤◌, length, get_or, pos};
ghost use Rattle.std.specs.Float.{nan};
ghost use Rattle.lists.specs.Seq.{tabulate};
ghost use Rattle.lists.specs.Inside.Seg.{put};
ghost use Rattle.sweep.specs.Velocity.{counted_in, shows_wind, unfolded_at};
ghost use Rattle.window.specs.Median.{median, mark};
ghost use Rattle.window.specs.Window.{winds_from};
ghost use Rattle.window.specs.Inside.Drawing.{Held};

use sweep::input::Counted;

// The bytes of an arrival, written from `base` on: 1 where a gate shows a wind, else 0.
pub fn write_shown(base: usize, valid: &[u8], labels: &[u32], shown: &mut [u8])
    requires { (length labels.now ≡ length valid.now) × (base + length valid.now ≤ length shown.old) }
    ensures { shown.new
        ≡ put shown.old base
        (tabulate (length valid.now) (λ g. cond (shows_wind (get_or valid.now g 0) (get_or labels.now g 0)) 1 0)) }
{
    for g in 0..valid.len() {
        shown[base + g] = u8::from(sweep::questions::shows_wind(valid[g], labels[g]));
    }
}

// Its winds.
pub fn write_winds(base: usize, u: Counted, winds: &mut [f64])
    requires { let n = length u.velocity.now in
        (length u.valid.now ≡ n) × (length u.folds.now ≡ n) × (length u.labels.now ≡ n) × (base + n ≤ length winds.old) }
    ensures { let v = counted_in u.entry in
        winds.new ≡ put winds.old base (tabulate (length v.vel)
        (λ g. unfolded_at v.nyquist (get_or v.vel g nan) (get_or v.mask g 0) (get_or v.counts g (pos 0)) (get_or v.labels g 0))) }
{
    let end = base + u.velocity.len();
    sweep::velocity::unfold_gates(u, &mut winds[base..end]);
}

// The picture and its marks: where a gate shows no wind, 0 and mark 1.
pub fn draw(
    winds: &[f64],
    shown: &[u8],
    n: usize,
    first: usize,
    held: usize,
    picture: &mut [f64],
    marks: &mut [u8],
)
    requires { Held winds.now shown.now n first held × (length picture.old ≡ n) × (length marks.old ≡ n) }
    ensures { (picture.new ≡ tabulate n (λ g. median (winds_from winds.now shown.now n g first held)))
        × (marks.new ≡ tabulate n (λ g. mark (winds_from winds.now shown.now n g first held))) }
{
    for g in 0..n {
        let wind = crate::median::drawn_at(winds, shown, n, g, first, held);
        picture[g] = wind.unwrap_or(0.0);
        marks[g] = u8::from(wind.is_none());
    }
}
