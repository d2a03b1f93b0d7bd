ghost use Rattle.std.specs.Prelude.{◌≡◌, ◌+◌, ◌^◌, ◌≤◌, ◌∷◌, ◌++◌, length, IfSome, IfNone, option_map};
ghost use Rattle.le_bundle.specs.Lines.{lines_of, last_lines, whole};

use memchr::memchr;

/// What is left of a text, and the number of its first line, counted from 1.
#[derive(Clone, Copy)]
pub struct Reader<'a> {
    /// The text that is left.
    pub rest: &'a [u8],
    /// The number of its first line.
    pub number: u32,
    ghost fits: { number + length rest.now ≤ 2 ^ 28 + 1 },
}

impl<'a> Reader<'a> {
    /// A text from its beginning.
    pub fn of(text: &'a [u8]) -> Self
        requires { length text.now ≤ 2 ^ 28 }
        ensures text { result.rest.now ≡ text.now }
        ensures first { result.number ≡ 1 }
    {
        Reader {
            rest: text,
            number: 1,
        }
    }

    /// The next line without its LF, where it has one. Otherwise the reader stays.
    pub fn line(&mut self) -> Option<&'a [u8]>
        ensures lines { IfSome result (λ line. lines_of self.old.rest.now ≡ whole line.now ∷ lines_of self.new.rest.now) }
        ensures number { IfSome result (λ line. self.new.number ≡ self.old.number + 1) }
        ensures text { IfSome result (λ line. self.old.rest.now ≡ line.now ++ (10 ∷ self.new.rest.now)) }
        ensures last { IfNone result (lines_of self.old.rest.now ≡ last_lines self.old.rest.now) }
        ensures kept { IfNone result (self.new ≡ self.old) }
    {
        let text = self.rest;
        let end = memchr(b'\n', text)?;
        self.rest = &text[end + 1..];
        self.number += 1;
        Some(&text[..end])
    }
}
