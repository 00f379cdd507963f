// A file on standard input, and its text on standard output.
use crate::lines::Text;
use sweep::refusal::Refusal;

// The longest file of at most 128 gates.
const LONGEST: usize = 2178;

// Prints the text that a program has for a file; nothing for a refused one. No file of at most 128 gates is longer than 2,178 bytes: a longer input prints
// nothing, and no more of it is read (`longer_prints_nothing`).
pub fn print_input<F: FnOnce(&[u8], &mut Text) -> Result<(), Refusal>>(put_text: F)
    requires { F.IsAlwaysCallable put_text }
{
    let mut file = [0u8; LONGEST + 1];
    let got = io::read_full(0, &mut file);
    if got > LONGEST {
        return;
    }
    let mut text = Text::new();
    if put_text(&file[..got], &mut text).is_ok() {
        io::write_all(1, text.as_bytes());
    }
}
