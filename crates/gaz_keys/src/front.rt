//! The first bytes of texts, with zeros behind a shorter one.
ghost use Rattle.std.specs.Prelude.{◌≡◌, ◌≤◌, ◌∷◌, [], ◌++◌, List, ℕ, length};
ghost use Rattle.gaz_name.specs.Name.{first_bytes};
ghost use Rattle.gaz_keys.specs.Front.{IsFront};

/// Puts a piece of a text behind the first `len` bytes, as much of it as there is room for. How many bytes stand there now.
pub(crate) fn put_behind(bytes: &mut [u8], len: usize, piece: &[u8]) -> usize
    requires { len ≤ length bytes.now }
    ensures front { (text : List ℕ) → IsFront (length bytes.old) text bytes.old len → IsFront (length bytes.old) (text ++ piece.now) bytes.new result }
    ensures size { length bytes.new ≡ length bytes.old }
    ensures bound { result ≤ length bytes.old }
{
    let count = piece.len().min(bytes.len() - len);
    bytes[len..len + count].copy_from_slice(&piece[..count]);
    len + count
}

/// The first bytes of a text.
pub(crate) fn front_of<const SIZE: usize>(text: &[u8]) -> [u8; SIZE]
    ensures { result ≡ first_bytes SIZE text.now }
{
    let mut bytes = [0; SIZE];
    put_behind(&mut bytes, 0, text);
    bytes
}

/// Puts a code behind the first `len` bytes, and a zero behind it, as much of them as there is room for. How many bytes stand there now.
pub(crate) fn put_code(bytes: &mut [u8], len: usize, code: &str) -> usize
    requires { len ≤ length bytes.now }
    ensures front { (text : List ℕ) → IsFront (length bytes.old) text bytes.old len → IsFront (length bytes.old) (text ++ (code.now ++ 0 ∷ [])) bytes.new result }
    ensures size { length bytes.new ≡ length bytes.old }
    ensures bound { result ≤ length bytes.old }
{
    let len = put_behind(bytes, len, code.as_bytes());
    put_behind(bytes, len, &[0])
}
