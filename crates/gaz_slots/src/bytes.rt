//! Writes into the bytes of a page.
ghost use Rattle.std.specs.Prelude.{◌≡◌, ◌≤◌, ◌+◌, length};
ghost use Rattle.std.specs.Int.{w16, to_be_bytes};
ghost use Rattle.gaz_slots.specs.Bytes.{edited};

/// Replaces a range.
pub fn put(page: &mut [u8], at: usize, bytes: &[u8])
    requires { at + length bytes.now ≤ length page.old }
    ensures page { page.new ≡ edited at bytes.now page.old }
    ensures size { length page.new ≡ length page.old }
{
    page[at..at + bytes.len()].copy_from_slice(bytes);
}

/// Replaces a number of two bytes.
pub fn put_short(page: &mut [u8], at: usize, number: u16)
    requires { at + 2 ≤ length page.old }
    ensures page { page.new ≡ edited at (to_be_bytes w16 number) page.old }
    ensures size { length page.new ≡ length page.old }
{
    put(page, at, &number.to_be_bytes());
}
