//! Why no mirror opens.

/// Where the areas are no mirror.
#[derive(Clone, Copy, Debug, PartialEq, Eq)]
pub enum Place {
    /// The gate is open, and the log isn't in form.
    Log,
    /// Root has a page, and it is no root page.
    Root,
}

/// Why no mirror opens.
#[derive(Clone, Copy, Debug, PartialEq, Eq)]
pub enum OpenFault {
    /// The station failed.
    Station,
    /// The areas stand for no gazetteer.
    NotAMirror(Place),
    /// Memory was wanting.
    Memory,
}
