// The call of the region map: questions 1 to 8, then the labels by the sweep's own limits. Labelling knows no wrap.
ghost use Rattle.std.specs.Prelude.{◌≡◌, ◌≤◌, [], ◌∷◌, pos, length, take, replicate};
ghost use Rattle.std.proofs.Math.Option.{none};
ghost use Rattle.arithmetic.specs.Rounding.{real};
ghost use Rattle.network.specs.Inside.Find.{regions_by, Limited};
ghost use Rattle.sweep.specs.Questions.{first_no, seven, gates_in};
ghost use Rattle.sweep.specs.Entry.{sweep_in, answer_of};
ghost use Rattle.sweep.specs.Inside.Planning.{Fit};
ghost use Rattle.sweep.specs.Refusal.{missed_by};
ghost use Rattle.map.specs.Map.{map_room, map_lent, map_memory_of, map_answer_by, drawn, call_map};

use arithmetic::intervals::Plan;
use memory::layout;
use network::input::Sweep;
use sweep::questions::Room;
use sweep::refusal::Refusal;

// The map's own slices are the labels and the number of regions, n being the gates that the sweep should have.
#[tactic(auto, unfolding(crate::specs::Map::map_room))]
fn room_of(n: usize, labels: usize, regions: usize, words: usize, floats: usize) -> Room
    ensures { result ≡ map_room n labels regions words floats }
{
    Room {
        own: sweep::questions::two_long(labels, n, regions, 1),
        words,
        floats,
    }
}

// The labels, which lie at the front of the words. By a loop: `copy_from_slice` calls the C library's memmove, which a host need not bring (memory: words `copy`).
fn copy_labels(w: &[u32], labels: &mut [u32])
    requires { length labels.old ≤ length w.now }
    ensures { labels.new ≡ take (length labels.old) w.now }
{
    for g in 0..labels.len() {
        labels[g] = w[g];
    }
}

// The labels, which lie at the front of the words, and the number of regions, by the limits of a plan; all work memory lent is zero afterwards.
fn label_and_clear(
    s: Sweep,
    p: Plan,
    labels: &mut [u32],
    regions: &mut [u32],
    words: &mut [u32],
    floats: &mut [f64],
)
    requires limited { Limited s.options p s.velocity.now s.valid.now (length words.old) }
    requires long { (length labels.old ≡ length s.velocity.now) × (length regions.old ≡ 1) }
    ensures found { let f = regions_by s.entry.options p s.entry.velocity.now s.entry.valid.now in
        (labels.new ≡ f.labels) × (regions.new ≡ f.number ∷ []) }
    ensures words_after { words.new ≡ replicate (length words.old) 0 }
    ensures floats_after { floats.new ≡ replicate (length floats.old) (real (pos 0)) }
{
    let k = network::find::label(s, p, words);
    copy_labels(words, labels);
    regions[0] = k;
    sweep::sweep::clear(words, floats);
}

// The map by the limits of a plan, questions 1 to 8 having got a yes: just as much of the work memory as is asked for is used.
// A twin of sweep's `unfold_sweep`: one function that takes the call as a closure leaves its callers' proofs nothing of the labels, which the closure would write behind a captured `&mut`.
fn draw(
    s: Sweep,
    p: Plan,
    labels: &mut [u32],
    regions: &mut [u32],
    words: &mut [u32],
    floats: &mut [f64],
)
    requires seven_yes { let v = sweep_in s in
        first_no (seven v (map_lent (gates_in v) (map_memory_of labels.old regions.old words.old floats.old))) ≡ none }
    requires fit { Fit s.options p }
    ensures { let v = sweep_in s.entry in
        let m = map_memory_of labels.old regions.old words.old floats.old in
        map_answer_by 0 labels.new regions.new words.new floats.new
        ≡ drawn (regions_by s.entry.options p s.entry.velocity.now s.entry.valid.now) (gates_in v) m }
{
    let n = s.velocity.len();
    let w = layout::WORDS * n + layout::WORDS_MORE;
    let d = layout::FLOATS * n + layout::FLOATS_MORE;
    label_and_clear(s, p, labels, regions, &mut words[..w], &mut floats[..d]);
}

// The label of each gate, and the number of regions.
pub fn region_map(
    s: Sweep,
    labels: &mut [u32],
    regions: &mut [u32],
    words: &mut [u32],
    floats: &mut [f64],
) -> Result<(), Refusal>
    ensures { let m = map_memory_of labels.old regions.old words.old floats.old in
        map_answer_by (answer_of (missed_by result)) labels.new regions.new words.new floats.new
        ≡ call_map (sweep_in s.entry) m }
{
    let n = sweep::questions::gates_in(s.options.rays, s.options.gates);
    let lent = room_of(n, labels.len(), regions.len(), words.len(), floats.len());
    let p = sweep::entry::plan_sweep(s, lent)?;
    draw(s, p, labels, regions, words, floats);
    Ok(())
}
