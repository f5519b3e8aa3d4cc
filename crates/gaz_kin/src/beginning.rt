//! The first bytes of a path.
ghost use Rattle.std.specs.Prelude.{◌≤◌};

/// The first bytes of a path, as its keys have them, and how many of them are the path's own.
#[derive(Drop)]
pub(crate) struct Beginning {
    pub(crate) bytes: [u8; 27],
    pub(crate) len: usize,
    ghost within: { len ≤ 27 },
}
