//! Pieces of long records, one in each page of a chain.
ghost use Rattle.std.specs.Prelude.{◌≡◌, ◌≤◌, ◌<◌, ◌+◌, ◌↔◌, true, length, IfSome, IsSome, IsTrue};
ghost use Rattle.gaz_slots.specs.Overflow.{has_overflow_head, is_overflow_page, overflow_head, piece_in, next_in, Copies};

use crate::bytes::put;
use gaz_page::{PAGE, number_at, short_at};

/// The first byte of an overflow page.
const KIND: u8 = 4;

/// How many bytes the header of a page has.
const HEADER: usize = 16;

/// How many bytes of a record an overflow page holds.
pub const PIECE: usize = 4080;

/// The longest record.
pub const LONGEST: usize = 65535;

/// What an overflow page holds.
pub enum Piece {
    /// The last so many bytes of a record.
    Last(usize),
    /// As many bytes as there is room for, and the page of the next ones.
    More(u32),
    /// It isn't an overflow page in form, or the record would be too long.
    Broken,
}

/// Whether the header is that of an overflow page of this number.
fn has_head(number: u32, page: &[u8]) -> bool
    ensures { result ≡ has_overflow_head number page.now }
{
    page.len() == PAGE
        && page[0] == KIND
        && page[1] == 0
        && number_at(page, 4) == number
        && number_at(page, 12) == 0
}

/// Whether the page is an overflow page in form, of this number.
#[tactic(auto, unfolding(crate::specs::Overflow::is_overflow_page))]
fn is_overflow(number: u32, page: &[u8]) -> bool
    requires { length page.now ≡ 4096 }
    ensures { result ≡ is_overflow_page number page.now }
{
    has_head(number, page) && 1 <= short_at(page, 2) && short_at(page, 2) <= 4080
}

/// Copies the piece of a page behind the first bytes of the buffer.
pub fn copy_piece(number: u32, page: &[u8], at: usize, buf: &mut [u8]) -> Piece
    requires size { length page.now ≡ 4096 }
    requires room { 65535 ≤ length buf.old }
    requires at { at ≤ 65535 }
    ensures { Copies number page.now at buf.old buf.new result }
{
    if !is_overflow(number, page) {
        return Piece::Broken;
    }
    let count = short_at(page, 2) as usize;
    if at + count > LONGEST {
        return Piece::Broken;
    }
    let piece = &page[HEADER..HEADER + count];
    put(buf, at, piece);
    let next = number_at(page, 8);
    if next == 0 {
        return Piece::Last(count);
    }
    if count < PIECE {
        return Piece::Broken;
    }
    Piece::More(next)
}

/// The header of an overflow page.
fn head(number: u32, next: u32, count: u16) -> [u8; 16]
    ensures { result ≡ overflow_head number next count }
{
    let mut head = [0; HEADER];
    head[0] = KIND;
    head[2..4].copy_from_slice(&count.to_be_bytes());
    head[4..8].copy_from_slice(&number.to_be_bytes());
    head[8..12].copy_from_slice(&next.to_be_bytes());
    head
}

/// Makes the bytes an overflow page with this piece.
pub fn fill_piece(number: u32, next: u32, piece: &[u8], page: &mut [u8])
    requires size { length page.old ≡ 4096 }
    requires some { 1 ≤ length piece.now }
    requires short { length piece.now ≤ 4080 }
    ensures form { is_overflow_page number page.new ≡ true }
    ensures next { next_in page.new ≡ next }
    ensures piece { piece_in page.new ≡ piece.now }
    ensures size { length page.new ≡ 4096 }
{
    put(page, 0, &head(number, next, piece.len() as u16));
    put(page, HEADER, piece);
}

/// The page of the next piece, or 0. `None` where the page isn't an overflow page in form.
pub fn next_of(number: u32, page: &[u8]) -> Option<u32>
    requires { length page.now ≡ 4096 }
    ensures next { IfSome result (λ next. next_in page.now ≡ next) }
    ensures form { IsSome result ↔ IsTrue (is_overflow_page number page.now) }
{
    if !is_overflow(number, page) {
        return None;
    }
    Some(number_at(page, 8))
}
