// A recorded list of files on standard input, and what is answered to each on standard output. An entry of the list is a file's length in two bytes,
// high byte first, and the file.
use crate::lines::Text;
use sweep::refusal::Refusal;

// The longest file of a list.
const LONGEST: usize = 4096;

// Reads the next file. There is none where the list ends, is cut short, or has a longer file.
fn read_file(memory: &mut [u8; LONGEST]) -> Option<&[u8]> {
    let mut head = [0u8; 2];
    if io::read_full(0, &mut head) < 2 {
        return None;
    }
    let n = usize::from(u16::from_be_bytes(head));
    if n > LONGEST || io::read_full(0, &mut memory[..n]) < n {
        return None;
    }
    Some(&memory[..n])
}

// Writes a line with `=` and the number of a file, and then its text.
fn write_answer(answer: Result<(), Refusal>, text: &Text) {
    io::write_all(1, b"= ");
    match answer {
        Ok(()) => {
            io::write_all(1, b"0\n");
            io::write_all(1, text.as_bytes());
        }
        Err(refusal) => {
            io::print_decimal(1, u64::from(refusal.number()));
            io::write_all(1, b"\n");
        }
    }
}

// Writes an answer to every file of the list.
pub fn print_list<F: Fn(&[u8], &mut Text) -> Result<(), Refusal>>(put_text: F)
    requires { F.IsAlwaysCallable put_text }
{
    let mut memory = [0u8; LONGEST];
    let mut text = Text::new();
    // A loop has to end: no list has as many files.
    for _ in 0..u64::MAX {
        let Some(file) = read_file(&mut memory) else {
            break;
        };
        let answer = put_text(file, &mut text);
        write_answer(answer, &text);
    }
}
