// Counts with a number added, so that the second entry meets counts that no sweep gives.
ghost use Rattle.std.specs.Prelude.{◌≡◌, map};
ghost use Rattle.replay.specs.Record.{raised_by, is_near};

// Whether a count is -100,000 to 100,000.
fn is_near(count: i32) -> bool
    ensures { result ≡ is_near count }
{
    (-100_000..=100_000).contains(&count)
}

// A count with a number added, where neither is past 100,000.
fn raised(count: i32, more: u32) -> i32
    ensures { result ≡ raised_by more count }
{
    if more > 100_000 || !is_near(count) {
        return count;
    }
    count + more as i32
}

// Every count with a number added.
pub fn raise(counts: &mut [i32], more: u32)
    ensures { counts.new ≡ map (raised_by more) counts.old }
{
    for count in counts.iter_mut() {
        *count = raised(*count, more);
    }
}
