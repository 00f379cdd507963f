// The entries that a host calls, under the names and in the order of include/jivakkol.h. Each hands its parameters on whole, and
// answers by number: what C calls has no Result. The static library (crate jivakkol_c) exports them. Numbers, single slices and a function for each name stay:
// C takes no others, and README names these.
ghost use Rattle.std.specs.Prelude.{◌≡◌};
ghost use Rattle.sweep.specs.Call.{call, memory_of, answer_by};
ghost use Rattle.sweep.specs.Entry.{sweep_of};
ghost use Rattle.sweep_book.specs.Book.{call_book, book_answer_by};
ghost use Rattle.channels.specs.Call.{channel_of, two_memory_of, two_answer_by, call_two};
ghost use Rattle.map.specs.Map.{call_map, map_memory_of, map_answer_by};
ghost use Rattle.sweep.specs.Velocity.{call_velocity, counted, velocity_answer_by};
ghost use Rattle.window.specs.Window.{window_of, window_answer_by, call_window};
ghost use Rattle.files.specs.Format.{options_of};
ghost use Rattle.test_sweep.specs.Call.{slices_of, call_test, test_answer_by};
ghost use Rattle.files.specs.Calls.{call_read, read_answer_by, call_write, written_by, call_size, size_answer_by};

use channels::input::Channels;
use network::input::Sweep;
use network::options::Options;
use sweep::input::Counted;
use sweep::refusal::answer;

// A sweep's fold counts and the marks of its doubtful merges, with the numbers of regions and of merges.
pub fn jivakkol_dealias_sweep(
    rays: u32,
    gates: u32,
    nyquist: f32,
    interval_splits: u32,
    skip_between_rays: u32,
    skip_along_ray: u32,
    centered: u32,
    rays_wrap_around: u32,
    velocity: &[f32],
    valid: &[u8],
    folds: &mut [i32],
    doubtful: &mut [u8],
    pair: &mut [u32],
    work: &mut [u32],
    work_f64: &mut [f64],
) -> u32
    ensures { let s = sweep_of rays gates nyquist interval_splits skip_between_rays skip_along_ray centered rays_wrap_around velocity.now valid.now in
        let m = memory_of folds.old doubtful.old pair.old work.old work_f64.old in
        answer_by result folds.new doubtful.new pair.new work.new work_f64.new ≡ call s m }
{
    let options = Options::new(
        rays,
        gates,
        nyquist,
        interval_splits,
        skip_between_rays,
        skip_along_ray,
        centered,
        rays_wrap_around,
    );
    let s = Sweep {
        options,
        velocity,
        valid,
    };
    answer(sweep::entry::dealias_sweep(s, folds, doubtful, pair, work, work_f64))
}

// The same with a book of its merges, one entry a merge.
pub fn jivakkol_dealias_sweep_book(
    rays: u32,
    gates: u32,
    nyquist: f32,
    interval_splits: u32,
    skip_between_rays: u32,
    skip_along_ray: u32,
    centered: u32,
    rays_wrap_around: u32,
    velocity: &[f32],
    valid: &[u8],
    folds: &mut [i32],
    doubtful: &mut [u8],
    pair: &mut [u32],
    book: &mut [i32],
    work: &mut [u32],
    work_f64: &mut [f64],
) -> u32
    ensures { let s = sweep_of rays gates nyquist interval_splits skip_between_rays skip_along_ray centered rays_wrap_around velocity.now valid.now in
        let m = memory_of folds.old doubtful.old pair.old work.old work_f64.old in
        book_answer_by (answer_by result folds.new doubtful.new pair.new work.new work_f64.new) book.new ≡ call_book s m book.old }
{
    let options = Options::new(
        rays,
        gates,
        nyquist,
        interval_splits,
        skip_between_rays,
        skip_along_ray,
        centered,
        rays_wrap_around,
    );
    let s = Sweep {
        options,
        velocity,
        valid,
    };
    answer(sweep_book::entry::dealias_sweep_book(s, folds, doubtful, pair, book, work, work_f64))
}

// The fold counts of two polarisations of one antenna by limits that both share, with the marks, regions and merges of each.
pub fn jivakkol_dealias_two(
    rays: u32,
    gates: u32,
    nyquist: f32,
    interval_splits: u32,
    skip_between_rays: u32,
    skip_along_ray: u32,
    centered: u32,
    rays_wrap_around: u32,
    h_velocity: &[f32],
    h_valid: &[u8],
    v_velocity: &[f32],
    v_valid: &[u8],
    h_folds: &mut [i32],
    h_doubtful: &mut [u8],
    h_pair: &mut [u32],
    v_folds: &mut [i32],
    v_doubtful: &mut [u8],
    v_pair: &mut [u32],
    work: &mut [u32],
    work_f64: &mut [f64],
) -> u32
    ensures { let h = sweep_of rays gates nyquist interval_splits skip_between_rays skip_along_ray centered rays_wrap_around h_velocity.now h_valid.now in
        let v = sweep_of rays gates nyquist interval_splits skip_between_rays skip_along_ray centered rays_wrap_around v_velocity.now v_valid.now in
        let m = two_memory_of (channel_of h_folds.old h_doubtful.old h_pair.old)
        (channel_of v_folds.old v_doubtful.old v_pair.old) work.old work_f64.old in
        two_answer_by result (channel_of h_folds.new h_doubtful.new h_pair.new)
        (channel_of v_folds.new v_doubtful.new v_pair.new) work.new work_f64.new ≡ call_two h v m }
{
    let options = Options::new(
        rays,
        gates,
        nyquist,
        interval_splits,
        skip_between_rays,
        skip_along_ray,
        centered,
        rays_wrap_around,
    );
    let c = Channels {
        options,
        h_velocity,
        h_valid,
        v_velocity,
        v_valid,
    };
    answer(channels::entry::dealias_two(
        c, h_folds, h_doubtful, h_pair, v_folds, v_doubtful, v_pair, work, work_f64,
    ))
}

// A sweep's region map: the label of each gate, with the number of regions.
pub fn jivakkol_region_map(
    rays: u32,
    gates: u32,
    nyquist: f32,
    interval_splits: u32,
    skip_between_rays: u32,
    skip_along_ray: u32,
    centered: u32,
    rays_wrap_around: u32,
    velocity: &[f32],
    valid: &[u8],
    labels: &mut [u32],
    regions: &mut [u32],
    work: &mut [u32],
    work_f64: &mut [f64],
) -> u32
    ensures { let s = sweep_of rays gates nyquist interval_splits skip_between_rays skip_along_ray centered rays_wrap_around velocity.now valid.now in
        let m = map_memory_of labels.old regions.old work.old work_f64.old in
        map_answer_by result labels.new regions.new work.new work_f64.new ≡ call_map s m }
{
    let options = Options::new(
        rays,
        gates,
        nyquist,
        interval_splits,
        skip_between_rays,
        skip_along_ray,
        centered,
        rays_wrap_around,
    );
    let s = Sweep {
        options,
        velocity,
        valid,
    };
    answer(map::map::region_map(s, labels, regions, work, work_f64))
}

// Unfolded velocities from fold counts and labels.
pub fn jivakkol_unfold_velocity(
    rays: u32,
    gates: u32,
    nyquist: f32,
    velocity: &[f32],
    valid: &[u8],
    folds: &[i32],
    labels: &[u32],
    unfolded: &mut [f64],
) -> u32
    ensures { let u = counted rays gates nyquist velocity.now valid.now folds.now labels.now in
        velocity_answer_by result unfolded.new ≡ call_velocity u unfolded.old }
{
    let u = Counted {
        rays,
        gates,
        nyquist,
        velocity,
        valid,
        folds,
        labels,
    };
    answer(sweep::velocity::unfold_velocity(u, unfolded))
}

// A sweep's winds taken into the window of the last eight, and the picture of their medians drawn anew.
pub fn jivakkol_window_add(
    rays: u32,
    gates: u32,
    nyquist: f32,
    velocity: &[f32],
    valid: &[u8],
    folds: &[i32],
    labels: &[u32],
    window: &mut [u32],
    winds: &mut [f64],
    shown: &mut [u8],
    picture: &mut [f64],
    marks: &mut [u8],
) -> u32
    ensures { let u = counted rays gates nyquist velocity.now valid.now folds.now labels.now in
        let w = window_of window.old winds.old shown.old picture.old marks.old in
        window_answer_by result window.new winds.new shown.new picture.new marks.new ≡ call_window u w }
{
    let u = Counted {
        rays,
        gates,
        nyquist,
        velocity,
        valid,
        folds,
        labels,
    };
    answer(window::entry::window_add(u, window, winds, shown, picture, marks))
}

// Reads a sweep file: the velocities' bits and the mask of its gates, and the header's eight numbers.
pub fn jivakkol_read_sweep(
    file: &[u8],
    velocity_bits: &mut [u32],
    valid: &mut [u8],
    header: &mut [u32],
) -> u32
    ensures { read_answer_by result velocity_bits.new valid.new header.new
        ≡ call_read file.now velocity_bits.old valid.old header.old }
{
    answer(files::entry::read_sweep(file, velocity_bits, valid, header))
}

// Writes a sweep file.
pub fn jivakkol_write_sweep(
    rays: u32,
    gates: u32,
    nyquist: f32,
    interval_splits: u32,
    skip_between_rays: u32,
    skip_along_ray: u32,
    centered: u32,
    rays_wrap_around: u32,
    velocity_bits: &[u32],
    valid: &[u8],
    file: &mut [u8],
) -> u32
    ensures { let o = options_of rays gates nyquist interval_splits skip_between_rays skip_along_ray centered rays_wrap_around in
        written_by result file.new ≡ call_write o velocity_bits.now valid.now file.old }
{
    let options = Options::new(
        rays,
        gates,
        nyquist,
        interval_splits,
        skip_between_rays,
        skip_along_ray,
        centered,
        rays_wrap_around,
    );
    answer(files::entry::write_sweep(options, velocity_bits, valid, file))
}

// The rays and gates that a sweep file's header announces.
pub fn jivakkol_sweep_size(file: &[u8], size: &mut [u32]) -> u32
    ensures { size_answer_by result size.new ≡ call_size file.now size.old }
{
    answer(files::entry::sweep_size(file, size))
}

// A test sweep from a seed number; the one word of state is replaced.
pub fn jivakkol_test_sweep(
    rays: u32,
    gates: u32,
    state: &mut [u32],
    velocity: &mut [f32],
    valid: &mut [u8],
) -> u32
    ensures { test_answer_by result state.new (slices_of velocity.new valid.new)
        ≡ call_test rays gates state.old (slices_of velocity.old valid.old) }
{
    answer(test_sweep::entry::test_sweep(rays, gates, state, velocity, valid))
}
