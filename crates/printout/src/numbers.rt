// Numbers in decimal and a line of them, parted by one space, in a text of any capacity. The caller sees that the text has room.
ghost use Rattle.std.specs.Prelude.{◌≡◌, ℕ, ◌+◌, ◌*◌, ◌≤◌, min, List, ◌++◌, length};
ghost use Rattle.arrayvec.specs.ArrayString.{array_string_len};
ghost use Rattle.printout.specs.Text.{decimal, count_text};
ghost use Rattle.printout.specs.Inside.Lines.{line_by};

use arrayvec::ArrayString;
use itoa::Buffer;

// A number of a line, for a text of capacity CAP: the number's text, and how many bytes that has at most.
pub trait NumberIn<const CAP: usize>: Copy {
    ghost MOST: { ℕ };

    ghost as_text: { Self → List ℕ };

    // Appends the number's text, where there is room for that. A caller who does not know the number gives it room for the most bytes.
    fn put_into(self, text: &mut ArrayString<CAP>)
        requires { array_string_len text.old + min (length (as_text self)) MOST ≤ CAP }
        ensures appended { text.new.bytes ≡ text.old.bytes ++ as_text self }
        ensures len { array_string_len text.new ≤ array_string_len text.old + MOST };
}

// A count. The longest is -2147483648.
impl<const CAP: usize> NumberIn<CAP> for i32 {
    ghost MOST = { 11 };

    ghost as_text = { count_text };

    fn put_into(self, text: &mut ArrayString<CAP>) {
        text.push_str(Buffer::new().format(self));
    }
}

// A total.
impl<const CAP: usize> NumberIn<CAP> for u64 {
    ghost MOST = { 20 };

    ghost as_text = { decimal };

    fn put_into(self, text: &mut ArrayString<CAP>) {
        text.push_str(Buffer::new().format(self));
    }
}

// Appends a line.
pub fn put_line_into<N: NumberIn<CAP>, const CAP: usize>(text: &mut ArrayString<CAP>, numbers: &[N])
    requires { array_string_len text.old + (N.MOST + 1) * length numbers.now + 1 ≤ CAP }
    ensures appended { text.new.bytes ≡ text.old.bytes ++ line_by N.as_text numbers.now }
    ensures len { array_string_len text.new ≤ array_string_len text.old + (N.MOST + 1) * length numbers.now + 1 }
{
    for (i, n) in numbers.iter().enumerate() {
        let later = i != 0;
        if later {
            text.push(' ');
        }
        n.put_into(text);
    }
    text.push('\n');
}
