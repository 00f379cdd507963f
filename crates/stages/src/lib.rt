// The stages of a sweep call, exported one by one so that bench/ can time them and tests can look at them. Each is a call of the functions
// that the entry uses, and asks of its caller what they ask, and promises what they promise: callers get there by the stages before, on sweeps that
// the entry accepts.
#![tactic(auto)]

ghost use Rattle.std.specs.Prelude.{◌≡◌, cond, List, ◌+◌, ◌*◌, ◌≤◌, pos, length, replicate, Float, T};
ghost use Rattle.lists.specs.Inside.Seg.{seg, put, Disjoint};
ghost use Rattle.lists.specs.Seq.{tabulate, all};
ghost use Rattle.arithmetic.specs.Inside.Asked.{Asked, front};
ghost use Rattle.arithmetic.specs.Intervals.{velocity_in_range};
ghost use Rattle.arithmetic.specs.Rounding.{real};
ghost use Rattle.arithmetic.specs.Doubtful.{doubtful};
ghost use Rattle.arithmetic.specs.Intervals as I;
ghost use Rattle.labels.specs.Regions.{regions};
ghost use Rattle.labels.specs.Inside.Sheet.{bands_of, FindsRegions};
ghost use Rattle.edges.specs.declared.edges.Shape.{Shape};
ghost use Rattle.edges.specs.Inside.GatePairs.{gate_pairs, AddsPairs, Sheet};
ghost use Rattle.edges.specs.Inside.Sorts.{Sorts, Sorted};
ghost use Rattle.edges.specs.Inside.Gather.{later, Legible, Gathers, Gathered};
ghost use Rattle.edges.specs.Inside.Order.{runs};
ghost use Rattle.merge.specs.Inside.Tables.{view};
ghost use Rattle.network.specs.Book.{book};
ghost use Rattle.network.specs.Network.{size_in, run, trace};
ghost use Rattle.network.specs.Inside.Sizes.{Sizes};
ghost use Rattle.network.specs.Inside.Begin.{raw_net, Space, Raw};
ghost use Rattle.network.specs.Inside.Settle.{settle, ran_of};
ghost use Rattle.network.specs.Inside.TurnIs.{gates_in, RunLeaves};
ghost use Rattle.sweep.specs.Questions.{first_no, seven_of};
ghost use Rattle.sweep.specs.Entry.{sweep_of, answer_of};
ghost use Rattle.sweep.specs.Inside.Finish.{counts_by, marks_by, WritesMarks, Finishes};
ghost use Rattle.stages.specs.Answers.{range_number, ran_number};

use merge::places::Places;
use network::input::Sweep;
use network::options::Options;

// Questions 1 to 7.
#[unsafe(no_mangle)]
pub extern "C" fn stage_questions(
    rays: u32,
    gates: u32,
    nyquist: f32,
    splits: u32,
    skip_between_rays: u32,
    skip_along_ray: u32,
    centred: u32,
    wrap: u32,
    velocity: &[f32],
    valid: &[u8],
    words: usize,
    floats: usize,
) -> u32
    ensures { let s = sweep_of rays gates nyquist splits skip_between_rays skip_along_ray centred wrap velocity.now valid.now in
        result ≡ answer_of (first_no (seven_of s (record { counts = length velocity.now; doubtful = length velocity.now; pair = 2; words = words; floats = floats }))) }
{
    let options = Options::new(
        rays,
        gates,
        nyquist,
        splits,
        skip_between_rays,
        skip_along_ray,
        centred,
        wrap,
    );
    let s = Sweep {
        options,
        velocity,
        valid,
    };
    let n = sweep::questions::gates_in(rays, gates);
    let lent = sweep::questions::room_of(n, velocity.len(), velocity.len(), 2, words, floats);
    sweep::refusal::answer(sweep::questions::first_missed(s, lent))
}

// The least and the greatest valid velocity: 1 where there is one.
#[unsafe(no_mangle)]
pub extern "C" fn stage_range(velocity: &[f32], valid: &[u8]) -> u32
    requires { length valid.now ≡ length velocity.now }
    ensures { result ≡ range_number (I.range (I.valid velocity.now valid.now)) }
{
    match arithmetic::intervals::least_and_greatest(velocity, valid) {
        Some(e) => u32::from(e.least <= e.greatest),
        None => 0,
    }
}

// The interval limits of a sweep, at the front of `out`: how many there are.
#[unsafe(no_mangle)]
pub extern "C" fn stage_limits(
    nyquist: f32,
    splits: u32,
    velocity: &[f32],
    valid: &[u8],
    out: &mut [f64],
) -> usize
    requires asked { Asked nyquist splits × T (all velocity_in_range (I.valid velocity.now valid.now)) }
    requires valid_len { (length valid.now ≡ length velocity.now) × (10000 ≤ length out.old) }
    requires valid_bound { I.at_least0 (I.number_for nyquist splits (I.range (I.valid velocity.now valid.now))) ≤ 10000 }
    ensures value { result ≡ I.at_least0 (I.number_for nyquist splits (I.range (I.valid velocity.now valid.now))) }
    ensures out_after { out.new ≡ front (I.limits_for nyquist splits (I.range (I.valid velocity.now valid.now))) out.old }
{
    let o = Options::new(0, 0, nyquist, splits, 0, 0, 0, 0);
    let e = arithmetic::intervals::least_and_greatest(velocity, valid);
    let p = arithmetic::intervals::plan_limits(nyquist, splits, e);
    network::find::limits(o, p, out)
}

// Labels, as the entry has them found: the words after them are left as they come.
#[unsafe(no_mangle)]
pub extern "C" fn stage_labels(
    gates: u32,
    velocity: &[f32],
    valid: &[u8],
    limits: &[f64],
    work: &mut [u32],
) -> u32
    requires { FindsRegions gates velocity.now valid.now limits.now work.old }
    ensures { let labels = bands_of work.new (length velocity.now) in
        record { labels = labels; number = result } ≡ regions gates velocity.now valid.now limits.now }
{
    labels::regions::label_gates(gates, velocity, valid, limits, work)
}

// Looks: how many pairs there are.
#[unsafe(no_mangle)]
pub extern "C" fn stage_looks(
    rays: usize,
    gates: usize,
    skip_between_rays: usize,
    skip_along_ray: usize,
    wrap: u32,
    work: &mut [u32],
    n: usize,
) -> usize
    requires { Sheet (record { rays = rays; gates = gates; skip_between_rays = skip_between_rays; skip_along_ray = skip_along_ray; wrap = wrap }) n work.old }
    ensures fact { (
        let f : Shape = record { rays = rays; gates = gates; skip_between_rays = skip_between_rays; skip_along_ray = skip_along_ray; wrap = wrap } in
        AddsPairs n work.old work.new 0 result (gate_pairs f (seg work.old 0 n))
        ) }
    ensures upper_bound { result ≤ 4 * n }
{
    let f = edges::edges::Shape {
        rays,
        gates,
        skip_between_rays,
        skip_along_ray,
        wrap,
    };
    edges::pairs::pair_all(work, n, f)
}

// The sort of m pairs with labels below k.
#[unsafe(no_mangle)]
pub extern "C" fn stage_sort(work: &mut [u32], n: usize, m: usize, k: usize)
    requires { Sorts work.old n m k }
    ensures { Sorted work.old work.new n m k }
{
    edges::edges::sort_pairs(work, n, m, k);
}

// How many edges the sorted pairs make.
#[unsafe(no_mangle)]
pub extern "C" fn stage_count(work: &[u32], n: usize, m: usize) -> usize
    requires { Legible work.now n m }
    ensures { (vel : List Float) → result ≡ length (runs (later work.now vel n m 0)) }
{
    edges::edges::count_runs(work, n, m)
}

// The edges.
#[unsafe(no_mangle)]
pub extern "C" fn stage_edges(
    work: &mut [u32],
    floats: &mut [f64],
    velocity: &[f32],
    n: usize,
    m: usize,
    t: usize,
    c: usize,
    two_nyquist: f64,
) -> usize
    requires { Gathers work.old floats.old velocity.now n m t c }
    ensures { let rs = runs (later work.old velocity.now n m 0) in
        Gathered two_nyquist work.old work.new floats.old floats.new t c result rs }
{
    edges::edges::gather(work, floats, velocity, n, m, t, c, two_nyquist)
}

// The regions' sizes.
#[unsafe(no_mangle)]
pub extern "C" fn stage_sizes(work: &mut [u32], n: usize, at: usize, k: usize)
    requires { Sizes work.old n at k }
    ensures { work.new ≡ put work.old at (tabulate k (size_in (seg work.old 0 n))) }
{
    network::sizes::count_sizes(work, n, at, k);
}

// A copy within the words.
#[unsafe(no_mangle)]
pub extern "C" fn stage_copy(work: &mut [u32], src: usize, dst: usize, len: usize)
    requires { (src + len ≤ length work.old) × (dst + len ≤ length work.old) × Disjoint src len dst len }
    ensures { work.new ≡ put work.old dst (seg work.old src len) }
{
    memory::words::copy(work, src, dst, len);
}

// All merges of e edges and v nodes, in their tables: 1 where question 9 got a yes at each.
#[unsafe(no_mangle)]
pub extern "C" fn stage_merges(tables: &mut [u32], floats: &mut [f64], e: usize, v: usize) -> u32
    requires space { Space e v tables.old floats.old }
    requires raw { Raw e v (view e v tables.old floats.old) }
    ensures value { result ≡ ran_number (ran_of (settle e (raw_net e v (view e v tables.old floats.old)) 0)) }
    ensures fact { let s = view e v tables.old floats.old in
        RunLeaves e v (gates_in s) (trace (raw_net e v s) (run e (raw_net e v s))) (book (raw_net e v s) (run e (raw_net e v s))) (settle e (raw_net e v s) 0) tables.new floats.new }
{
    let at = Places { edges: e, nodes: v };
    match network::network::merge_all(tables, floats, at) {
        Ok(_) => 1,
        Err(_) => 0,
    }
}

// Whether a difference in folds is doubtful: 1, or 0.
#[unsafe(no_mangle)]
pub extern "C" fn stage_doubtful(q: f64) -> u32
    ensures { result ≡ cond (doubtful q) 1 0 }
{
    u32::from(arithmetic::doubtful::is_doubtful(q))
}

// The counts and marks of all gates.
#[unsafe(no_mangle)]
pub extern "C" fn stage_output(
    work: &[u32],
    n: usize,
    k: usize,
    valid: &[u8],
    centred: u32,
    folds: &mut [i32],
    doubtful: &mut [u8],
)
    requires finishes { Finishes work.now n k valid.now (length folds.old) }
    requires writes_marks { WritesMarks work.now n k (length doubtful.old) }
    ensures folds_after { folds.new ≡ counts_by work.now n k valid.now centred }
    ensures doubtful_after { doubtful.new ≡ marks_by work.now n k }
{
    sweep::sweep::settle(work, n, k, valid, centred, folds);
    sweep::sweep::write_marks(work, n, k, doubtful);
}

// All of both work memories zero.
#[unsafe(no_mangle)]
pub extern "C" fn stage_clear(work: &mut [u32], floats: &mut [f64])
    ensures work_after { work.new ≡ replicate (length work.old) 0 }
    ensures floats_after { floats.new ≡ replicate (length floats.old) (real (pos 0)) }
{
    sweep::sweep::clear(work, floats);
}
