//! Which pages a root names.
ghost use Rattle.std.specs.Prelude.{◌≡◌};
ghost use Rattle.gaz_pages.specs.Extent.{extent_of};

use gaz_page::{Root, Side};

/// Which pages a root names. Pages keep it in place of the root: a value with a date in it, inside a store, would lose for its caller what is
/// lent beside it.
#[derive(Clone, Copy, Debug, PartialEq, Eq)]
pub struct Extent {
    /// The side of the pages.
    pub side: Side,
    /// The least page that was never taken.
    pub fresh: u32,
    /// The first free page, or 0.
    pub free: u32,
}

impl Extent {
    /// The pages of a root.
    pub fn of(root: &Root) -> Extent
        ensures { result ≡ extent_of root.now }
    {
        Extent {
            side: root.side,
            fresh: root.fresh,
            free: root.free,
        }
    }
}
