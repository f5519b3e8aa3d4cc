//! A reply line that is put together before it is printed.
ghost use Rattle.std.specs.Prelude.{◌≡◌, ◌≤◌, ◌+◌, ◌++◌, [], length};

/// Bytes of the longest line that is put together: a refusal of a line of a file, with its number.
pub(crate) const ROOM: usize = 128;

/// The front of a line.
#[derive(Drop)]
pub(crate) struct Line {
    bytes: [u8; 128],
    size: usize,
    ghost within: { size ≤ 128 },
}

impl Line {
    ghost use Rattle.gaz_reply.specs.Line.{text_of};

    pub(crate) fn new() -> Self
        ensures { text_of result ≡ [] }
    {
        Line {
            bytes: [0; 128],
            size: 0,
        }
    }

    pub(crate) fn push(&mut self, piece: &[u8])
        requires { length (text_of self.old) + length piece.now ≤ 128 }
        ensures text { text_of self.new ≡ text_of self.old ++ piece.now }
        ensures size { length (text_of self.new) ≡ length (text_of self.old) + length piece.now }
    {
        let end = self.size + piece.len();
        self.bytes[self.size..end].copy_from_slice(piece);
        self.size = end;
    }

    pub(crate) fn text(&self) -> &[u8]
        ensures { result.now ≡ text_of self.now }
    {
        &self.bytes[..self.size]
    }
}
