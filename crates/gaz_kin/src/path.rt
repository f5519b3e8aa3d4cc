//! The first bytes of a row's path, as its keys have them.
ghost use Rattle.std.specs.Prelude.{◌≡◌, ◌≤◌, ◌∷◌, [], ◌++◌, List, ℕ, length, replicate};
ghost use Rattle.gaz_name.specs.Name.{first_bytes};
ghost use Rattle.gaz_keys.specs.Front.{IsFront};
ghost use Rattle.gaz_kin.specs.Kept.{path_with};

use gaz_row::Row;

/// Puts a piece of a text behind the first `len` bytes, as much of it as there is room for. How many bytes stand there now.
fn put_behind(bytes: &mut [u8], len: usize, piece: &[u8]) -> usize
    requires { len ≤ length bytes.now }
    ensures front { (text : List ℕ) → IsFront (length bytes.old) text bytes.old len → IsFront (length bytes.old) (text ++ piece.now) bytes.new result }
    ensures size { length bytes.new ≡ length bytes.old }
    ensures bound { result ≤ length bytes.old }
{
    let count = piece.len().min(bytes.len() - len);
    bytes[len..len + count].copy_from_slice(&piece[..count]);
    len + count
}

/// Writes the first bytes of a text and of a zero behind it over zeros. How many bytes are those of the text and the zero.
pub(crate) fn put_text(bytes: &mut [u8], text: &[u8]) -> usize
    requires zeros { bytes.old ≡ replicate (length bytes.old) 0 }
    ensures front { IsFront (length bytes.old) (text.now ++ 0 ∷ []) bytes.new result }
    ensures size { length bytes.new ≡ length bytes.old }
    ensures bound { result ≤ length bytes.old }
{
    let len = put_behind(bytes, 0, text);
    put_behind(bytes, len, &[0])
}

/// Puts a code behind the first `len` bytes, and a byte behind it, as much of them as there is room for. How many bytes stand there now.
fn put_code(bytes: &mut [u8], len: usize, code: &str, byte: u8) -> usize
    requires { len ≤ length bytes.now }
    ensures front { (text : List ℕ) → IsFront (length bytes.old) text bytes.old len → IsFront (length bytes.old) (text ++ (code.now ++ byte ∷ [])) bytes.new result }
    ensures size { length bytes.new ≡ length bytes.old }
    ensures bound { result ≤ length bytes.old }
{
    let len = put_behind(bytes, len, code.as_bytes());
    put_behind(bytes, len, &[byte])
}

/// Writes the first bytes of the path to a level over zeros, with a byte behind each code. How many bytes are those of the path.
pub(crate) fn put_path(bytes: &mut [u8], level: u8, row: &Row<'_>, byte: u8) -> usize
    requires zeros { bytes.old ≡ replicate (length bytes.old) 0 }
    requires level { level ≤ 4 }
    ensures front { IsFront (length bytes.old) (path_with byte level row.now) bytes.new result }
    ensures size { length bytes.new ≡ length bytes.old }
    ensures bound { result ≤ length bytes.old }
{
    let mut len = put_code(bytes, 0, row.country(), byte);
    for above in 0..level {
        len = put_code(bytes, len, row.admin(above + 1), byte);
    }
    len
}
