//! One page in memory.
ghost use Rattle.std.specs.Prelude.{◌≡◌, length};
ghost use Rattle.gaz_pool.specs.Sides.{side_area};
ghost use Rattle.gaz_pool.specs.Numbers.{page_number};

use gaz_outside::Area;
use gaz_page::{PAGE, Side};

/// A page of a side that is held in memory.
#[derive(Clone, Copy)]
pub(crate) struct Frame {
    pub side: Side,
    pub page: u32,
    /// Whether it waits to be written.
    pub waits: bool,
    pub bytes: [u8; PAGE],
}

/// A page as one piece.
pub(crate) fn page_of(bytes: &[u8]) -> [u8; PAGE]
    requires { length bytes.now ≡ 4096 }
    ensures { result ≡ bytes.now }
{
    let mut page = [0; PAGE];
    page.copy_from_slice(bytes);
    page
}

/// The area of a side.
pub(crate) fn area_of(side: Side) -> Area
    ensures { result ≡ side_area side }
{
    match side {
        Side::Left => Area::Left,
        Side::Right => Area::Right,
    }
}

/// The page of a side as one number.
pub(crate) fn number(side: Side, page: u32) -> u64
    ensures { result ≡ page_number side page }
{
    let twice = 2 * page as u64;
    match side {
        Side::Left => twice,
        Side::Right => twice + 1,
    }
}
