// Lines of numbers as text: the numbers of a line in decimal, parted by one space. The caller sees that the text has room. `Number` and `put_line` are for
// the text for a file alone; `put_rays` and the programs go by `NumberIn` and `put_line_into` (numbers.rt), which are for a text of any capacity.
ghost use Rattle.std.specs.Prelude.{◌≡◌, ℕ, ◌+◌, ◌*◌, ◌≤◌, List, [], ◌∷◌, ◌++◌, length};
ghost use Rattle.arrayvec.specs.ArrayString.{array_string_len};
ghost use Rattle.printout.specs.Text.{decimal, count_text, ray_lines};
ghost use Rattle.printout.specs.Inside.Lines.{line_by};

use crate::numbers::{self, NumberIn};
use arrayvec::ArrayString;

// The longest text is that of 127 entries of six numbers, twelve bytes a number and one a line, and a last line of three numbers of twenty digits, 21 bytes a
// number and one more. The text of 128 counts on 720 lines has at most 2,256 bytes.
pub const MOST_TEXT: usize = 127 * (6 * 12 + 1) + 3 * 21 + 1;

// The text for a file, in memory of its own.
pub type Text = ArrayString<MOST_TEXT>;

// A number of a line of the text for a file: its text, and how many bytes that has at most. Who implements it is given room for the most bytes; a
// `NumberIn` is given room for its own bytes alone.
pub trait Number: Copy {
    ghost MOST: { ℕ };

    ghost as_text: { Self → List ℕ };

    // Appends the number's text. The bound on its length is for callers, who need not know the number.
    fn put(self, text: &mut Text)
        requires { array_string_len text.old + MOST ≤ MOST_TEXT }
        ensures appended { text.new.bytes ≡ text.old.bytes ++ as_text self }
        ensures len { array_string_len text.new ≤ array_string_len text.old + MOST };
}

// A count. The longest is -2147483648.
impl Number for i32 {
    ghost MOST = { 11 };

    ghost as_text = { count_text };

    fn put(self, text: &mut Text) {
        self.put_into(text);
    }
}

// A total.
impl Number for u64 {
    ghost MOST = { 20 };

    ghost as_text = { decimal };

    fn put(self, text: &mut Text) {
        self.put_into(text);
    }
}

// Appends a line. A twin of `put_line_into`, which takes no `Number`: a number there is given room for its own bytes alone.
pub fn put_line<N: Number>(text: &mut Text, numbers: &[N])
    requires { array_string_len text.old + (N.MOST + 1) * length numbers.now + 1 ≤ MOST_TEXT }
    ensures appended { text.new.bytes ≡ text.old.bytes ++ line_by N.as_text numbers.now }
    ensures len { array_string_len text.new ≤ array_string_len text.old + (N.MOST + 1) * length numbers.now + 1 }
{
    for (i, n) in numbers.iter().enumerate() {
        let later = i != 0;
        if later {
            text.push(' ');
        }
        n.put(text);
    }
    text.push('\n');
}

// Appends a line for each ray. A ray may have no gates, which `chunks` could not take.
pub fn put_rays<const CAP: usize>(
    text: &mut ArrayString<CAP>,
    counts: &[i32],
    rays: usize,
    gates: usize,
)
    requires within { rays * gates ≤ length counts.now }
    requires room { array_string_len text.old + 12 * (rays * gates) + rays ≤ CAP }
    ensures appended { text.new.bytes ≡ text.old.bytes ++ ray_lines rays gates counts.now }
    ensures len { array_string_len text.new ≤ array_string_len text.old + 12 * (rays * gates) + rays }
{
    for r in 0..rays {
        let from = r * gates;
        numbers::put_line_into(text, &counts[from..from + gates]);
    }
}

#[cfg(test)]
mod tests {
    use super::*;

    // A number of a caller's own that takes more room than its text has bytes: nine digits are put and eight taken off. With room for its own byte alone it
    // could not be proved.
    #[derive(Clone, Copy)]
    struct FirstDigit;

    impl Number for FirstDigit {
        ghost MOST = { 9 };

        ghost as_text = { λ number. 55 ∷ [] };

        fn put(self, text: &mut Text) {
            let end = text.len() + 1;
            text.push('7');
            text.push_str("89012345");
            text.truncate(end);
        }
    }

    #[test]
    fn puts_numbers(rt: HostRuntime) {
        let mut text = Text::new();
        put_line(&mut text, &[0, -2147483648, 2147483647]);
        put_line(&mut text, &[18446744073709551615u64]);
        put_line(&mut text, &[FirstDigit, FirstDigit]);
        7i32.put(&mut text);
        10u64.put(&mut text);
        assert_eq!(rt;
            text.as_str(),
            "0 -2147483648 2147483647\n18446744073709551615\n7 7\n710"
        );
    }
}
