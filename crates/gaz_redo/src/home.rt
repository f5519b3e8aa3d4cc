//! Where a page of the device stands.
use gaz_outside::Area;

/// A page of an area. Homes are ordered by area, and in an area by page.
#[derive(Clone, Copy, Debug, PartialEq, Eq, PartialOrd, Ord)]
pub struct Home {
    /// The area: Root, Left or Right.
    pub area: Area,
    /// The number of the page, 0 in Root.
    pub page: u32,
}
