//! A line of a report, which needs no memory.
ghost use Rattle.std.specs.Prelude.{◌≡◌, ◌+◌, ◌≤◌, ◌++◌, [], length, decimal};

use itoa::Buffer;

/// A text of at most 192 bytes.
#[derive(Drop)]
pub(crate) struct Line {
    bytes: [u8; 192],
    len: usize,
    ghost fits: { len ≤ 192 },
}

impl Line {
    ghost use Rattle.capcrypt.specs.LineText.{line_text};

    pub(crate) fn new() -> Line
        ensures { line_text result ≡ [] }
    {
        Line {
            bytes: [0; 192],
            len: 0,
        }
    }

    pub(crate) fn push(&mut self, piece: &[u8])
        requires { length (line_text self.old) + length piece.now ≤ 192 }
        ensures { line_text self.new ≡ line_text self.old ++ piece.now }
    {
        let end = self.len + piece.len();
        self.bytes[self.len..end].copy_from_slice(piece);
        self.len = end;
    }

    // A name, and a number, which has at most 20 digits.
    pub(crate) fn field(&mut self, name: &[u8], number: u64)
        requires { length (line_text self.old) + length name.now + 20 ≤ 192 }
        ensures text { line_text self.new ≡ line_text self.old ++ name.now ++ decimal number }
        ensures length { length (line_text self.new) ≤ length (line_text self.old) + length name.now + 20 }
    {
        self.push(name);
        let mut buffer = Buffer::new();
        self.push(buffer.format(number).as_bytes());
    }

    pub(crate) fn text(&self) -> &[u8]
        ensures { result.now ≡ line_text self.now }
    {
        &self.bytes[..self.len]
    }
}
