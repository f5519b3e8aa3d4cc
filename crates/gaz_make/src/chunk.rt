//! A text that is put together before it is handed on.
ghost use Rattle.std.specs.Prelude.{◌≡◌, ◌≤◌, ◌<◌, ◌+◌, ◌++◌, [], decimal, length};
ghost use Rattle.gaz_num.specs.Dates.{padded_number};
ghost use Rattle.gaz_make.specs.Made.{thousandths};

use itoa::Buffer;

/// Bytes that it has room for.
pub(crate) const ROOM: usize = 65_536;

/// The front of an array.
#[derive(Drop)]
pub(crate) struct Chunk {
    bytes: [u8; 65_536],
    size: usize,
    ghost within: { size ≤ 65536 },
}

impl Chunk {
    ghost use Rattle.gaz_make.specs.Chunk.{text_of};

    pub(crate) fn new() -> Self
        ensures { text_of result ≡ [] }
    {
        Chunk {
            bytes: [0; ROOM],
            size: 0,
        }
    }

    pub(crate) fn clear(&mut self)
        ensures { text_of self.new ≡ [] }
    {
        self.size = 0;
    }

    pub(crate) fn text(&self) -> &[u8]
        ensures { result.now ≡ text_of self.now }
    {
        &self.bytes[..self.size]
    }

    pub(crate) fn push(&mut self, piece: &[u8])
        requires { length (text_of self.old) + length piece.now ≤ 65536 }
        ensures text { text_of self.new ≡ text_of self.old ++ piece.now }
        ensures size { length (text_of self.new) ≡ length (text_of self.old) + length piece.now }
    {
        let end = self.size + piece.len();
        self.bytes[self.size..end].copy_from_slice(piece);
        self.size = end;
    }

    /// Puts a number in decimal.
    pub(crate) fn push_number(&mut self, n: u32)
        requires { length (text_of self.old) + 10 ≤ 65536 }
        ensures text { text_of self.new ≡ text_of self.old ++ decimal n }
        ensures size { length (text_of self.new) ≤ length (text_of self.old) + 10 }
    {
        self.push(Buffer::new().format(n).as_bytes());
    }

    /// Puts two digits.
    pub(crate) fn push_two_digits(&mut self, n: u32)
        requires room { length (text_of self.old) + 2 ≤ 65536 }
        requires below { n < 100 }
        ensures text { text_of self.new ≡ text_of self.old ++ padded_number 2 n }
        ensures size { length (text_of self.new) ≡ length (text_of self.old) + 2 }
    {
        self.push(&[digit(n / 10), digit(n % 10)]);
    }

    /// Puts so many thousandths.
    pub(crate) fn push_thousandths(&mut self, n: u32)
        requires { length (text_of self.old) + 14 ≤ 65536 }
        ensures text { text_of self.new ≡ text_of self.old ++ thousandths n }
        ensures size { length (text_of self.new) ≤ length (text_of self.old) + 14 }
    {
        self.push_number(n / 1000);
        self.push(&[b'.', digit(n / 100 % 10), digit(n / 10 % 10), digit(n % 10)]);
    }
}

/// The byte of a digit.
fn digit(n: u32) -> u8
    requires { n < 10 }
    ensures { result ≡ 48 + n }
{
    b'0' + n as u8
}
