// Words of eight hexadecimal digits, each followed by a space or a line end: what the recorded list is written in.
// It assumes nothing of the text.
ghost use Rattle.std.specs.Prelude.{◌≡◌, ℕ, ◌+◌, ◌*◌, ◌≤◌, ◌<◌, IfSome, OnOk, is_ok, length};
ghost use Rattle.replay.specs.Inside.Words.{digit_of, digits_from, word_at, Words, all_words, got_by};

// Text that is cut short or is no list of words.
#[derive(Clone, Copy, Debug, PartialEq, Eq)]
pub struct Malformed;

// What a read of numbers found: all of them, or no byte more.
#[derive(Clone, Copy, Debug, PartialEq, Eq)]
pub enum Got {
    Numbers,
    End,
}

// A digit's value.
fn digit(b: u8) -> Option<u32>
    ensures value { result ≡ digit_of b }
    ensures small { IfSome result (λ d. d < 16) }
{
    match b {
        b'0'..=b'9' => Some(u32::from(b - b'0')),
        b'a'..=b'f' => Some(u32::from(b - b'a') + 10),
        _ => None,
    }
}

// The number of eight digits.
fn digits(text: &[u8], at: usize) -> Option<u32>
    requires { at + 8 ≤ length text.now }
    ensures { result ≡ digits_from text.now at 8 0 }
{
    let mut value = 0;
    for i in 0..8 {
        value = value * 16 + digit(text[at + i])?;
    }
    Some(value)
}

// The word at a place.
#[tactic(auto, unfolding(crate::specs::Inside::Words::word_at))]
fn word_at(text: &[u8], at: usize) -> Option<u32>
    requires { at + 9 ≤ length text.now }
    ensures { result ≡ word_at text.now at }
{
    match text[at + 8] {
        b' ' | b'\n' => digits(text, at),
        _ => None,
    }
}

// The numbers of as many words as `out` holds.
fn numbers(text: &[u8], out: &mut [u32]) -> Result<(), Malformed>
    requires { 9 * length out.old ≤ length text.now }
    ensures all { is_ok result ≡ all_words text.now (length out.old) }
    ensures words { OnOk result (Words text.now out.new) }
{
    for (i, n) in out.iter_mut().enumerate() {
        *n = word_at(text, 9 * i).ok_or(Malformed)?;
    }
    Ok(())
}

// What text says of which so many bytes could be read: the numbers of as many words as `out` holds, or the end.
#[tactic(auto, unfolding(crate::specs::Inside::Words::got_by))]
fn got_of(text: &[u8], got: usize, out: &mut [u32]) -> Result<Got, Malformed>
    requires { 9 * length out.old ≤ length text.now }
    ensures got { result ≡ got_by text.now got (length out.old) }
    ensures words { result ≡ Ok Got.Numbers → Words text.now out.new }
{
    if got >= text.len() {
        numbers(text, out)?;
        Ok(Got::Numbers)
    } else if got == 0 {
        Ok(Got::End)
    } else {
        Err(Malformed)
    }
}

// Reads as many words as `out` holds from standard input. `text` is the memory for them. How many bytes k there were, no contract says.
pub fn read(text: &mut [u8], out: &mut [u32]) -> Result<Got, Malformed>
    requires { 9 * length out.old ≤ length text.old }
    ensures got { (k : ℕ) × (result ≡ got_by text.new k (length out.old)) }
    ensures words { result ≡ Ok Got.Numbers → Words text.new out.new }
{
    let got = io::read_full(0, text);
    got_of(text, got, out)
}
