//! Names of files, short enough to be kept without memory.
ghost use Rattle.std.specs.Prelude.{◌≡◌, ◌≤◌, length};

use arrayvec::ArrayString;

/// A name as `Shelf::open` takes it, of at most 48 bytes.
pub(crate) type ShortName = ArrayString<48>;

/// A copy of the name.
pub(crate) fn short_name(name: &str) -> ShortName
    requires { length name.now ≤ 48 }
    ensures { result.bytes ≡ name.now }
{
    let mut short = ArrayString::new();
    short.push_str(name);
    short
}
