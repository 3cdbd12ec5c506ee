// A line of text, put together field after field.
ghost use Rattle.std.specs.Prelude.{◌≡◌, ℕ, List, [], ◌∷◌, ◌++◌, length};
ghost use Rattle.lines.specs.Text.{decimal, field, line_of, text_of};
ghost use Rattle.text.specs.Room.{HasRoom};

use itoa::Buffer;
use lines::text::{LINE, Line};

pub fn empty() -> Line
    ensures { result ≡ line_of [] }
{
    Line {
        text: [0; LINE],
        len: 0,
    }
}

// A byte after the line's text.
pub fn put_byte(line: &mut Line, byte: u8)
    requires { HasRoom line.old 1 }
    ensures { line.new ≡ line_of (text_of line.old ++ (byte ∷ [])) }
{
    let at = line.len;
    line.text[at] = byte;
    line.len = at + 1;
}

// What a field of a line can hold: bytes, a word or a number.
pub trait Field {
    // its bytes
    ghost text: { Self → List ℕ };

    // Puts it after the line's text, where there is room: so it cannot fail, as `write!` may.
    fn put(self, line: &mut Line)
        requires { HasRoom line.old (length (text self)) }
        ensures { line.new ≡ line_of (text_of line.old ++ text self) };
}

impl Field for &[u8] {
    ghost text = { λ word. word.now };

    fn put(self, line: &mut Line) {
        let at = line.len;
        let end = at + self.len();
        line.text[at..end].copy_from_slice(self);
        line.len = end;
    }
}

impl Field for &str {
    ghost text = { λ word. word.now };

    fn put(self, line: &mut Line) {
        self.as_bytes().put(line);
    }
}

impl Field for u64 {
    ghost text = { decimal };

    #[tactic(auto, using(crate::proofs::DecimalLaws::decimal_lem))]
    fn put(self, line: &mut Line) {
        let mut digits = Buffer::new();
        digits.format(self).put(line);
    }
}

impl Field for u32 {
    ghost text = { decimal };

    fn put(self, line: &mut Line) {
        u64::from(self).put(line);
    }
}

// A word or a number as the line's next field.
pub fn put_field<T: Field>(line: &mut Line, value: T)
    requires { HasRoom line.old (length (field (T.text value))) }
    ensures { line.new ≡ line_of (text_of line.old ++ field (T.text value)) }
{
    put_byte(line, b' ');
    value.put(line);
}
