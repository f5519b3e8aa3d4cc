//! Numbers in the bytes of a page, the highest byte first.
ghost use Rattle.std.specs.Prelude.{◌≡◌, ◌≤◌, ◌+◌, length};
ghost use Rattle.gaz_page.specs.Root.{number_at as number_in};
ghost use Rattle.gaz_page.specs.Free.{short_at as short_in};

/// A number of two bytes.
#[tactic(auto, unfolding(crate::specs::Free::short_at))]
pub fn short_at(page: &[u8], at: usize) -> u16
    requires { at + 2 ≤ length page.now }
    ensures { result ≡ short_in at page.now }
{
    u16::from_be_bytes([page[at], page[at + 1]])
}

/// A number of four bytes.
pub fn number_at(page: &[u8], at: usize) -> u32
    requires { at + 4 ≤ length page.now }
    ensures { result ≡ number_in at page.now }
{
    u32::from_be_bytes([page[at], page[at + 1], page[at + 2], page[at + 3]])
}
