//! What a page is to hold.
ghost use Rattle.std.specs.Prelude.{◌≡◌, length};

use crate::Home;
use std::alloc::{AllocError, Global};

/// The bytes of a page, with its home.
#[derive(Drop)]
pub(crate) struct Image {
    pub home: Home,
    pub bytes: Vec<u8>,
    pub ghost whole: { length bytes.items ≡ 4096 },
}

impl Image {
    ghost use Rattle.std.specs.Prelude.{◌≡◌, length, IfOk};
    ghost use Rattle.gaz_redo.specs.Slots.{slot_of};
    ghost use Rattle.gaz_redo.specs.Images.{slot_for};

    pub fn new(alloc: Global, home: Home, bytes: &[u8]) -> Result<Image, AllocError>
        requires { length bytes.now ≡ 4096 }
        ensures { IfOk result (λ image. slot_of image ≡ slot_for home bytes.now) }
    {
        let bytes = Vec::from_slice(alloc, bytes)?;
        Ok(Image { home, bytes })
    }

    /// Takes this home and these bytes in place of its own.
    pub fn fill(&mut self, home: Home, bytes: &[u8])
        requires { length bytes.now ≡ 4096 }
        ensures { slot_of self.new ≡ slot_for home bytes.now }
    {
        self.home = home;
        self.bytes.copy_from_slice(bytes);
    }
}
