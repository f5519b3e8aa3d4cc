//! A mirror: its root. Its pages stand on the device alone.
ghost use Rattle.std.specs.Prelude.{◌≡◌, Some, IfSome, option_map};
ghost use Rattle.gaz_outside.specs.declared.station.Area.TheVariants.{Root as RootArea};
ghost use Rattle.gaz_page.specs.TreeRoot.{FitsRoot, tree_root_bytes};
ghost use Rattle.gaz_redo.specs.Images.{image_at};
ghost use Rattle.std.proofs.Props.{props};
ghost use Rattle.gaz_pages.specs.Areas.{side_area, idle_area};

use gaz_num::Day;
use gaz_outside::Area;
use gaz_page::{Root, Side};
use gaz_redo::Images;

/// A mirror: its root, or none before the first load. It fits a device where that has this root and nothing is pending.
#[derive(Drop)]
pub struct Mirror {
    root: Option<Root>,
    ghost root_fits: { IfSome root FitsRoot } by { Prim.hlevel props },
}

/// The area of a side.
pub fn area_of(side: Side) -> Area
    ensures { result ≡ side_area side }
{
    match side {
        Side::Left => Area::Left,
        Side::Right => Area::Right,
    }
}

impl Mirror {
    ghost use Rattle.gaz_pages.specs.Held.{root_of};

    /// The mirror with a root that a root page says, or with none.
    pub fn of(root: Option<Root>) -> Mirror
        requires { IfSome root FitsRoot }
        ensures { root_of result ≡ root }
    {
        Mirror { root }
    }

    /// The date of the gazetteer.
    pub fn date(&self) -> Option<Day>
        ensures { result ≡ option_map (λ root. root.day) (root_of self.now) }
    {
        match &self.root {
            Some(root) => Some(root.day),
            None => None,
        }
    }

    /// The root.
    pub fn root(&self) -> Option<Root>
        ensures root { result ≡ root_of self.now }
        ensures fits { IfSome result FitsRoot }
    {
        self.root
    }

    /// The side that isn't in use, and the left one where none is.
    pub fn idle_side(&self) -> Side
        ensures { side_area result ≡ idle_area (root_of self.now) }
    {
        match &self.root {
            None => Side::Left,
            Some(root) => match root.side {
                Side::Left => Side::Right,
                Side::Right => Side::Left,
            },
        }
    }

    /// Makes this the root. The images that were committed have its page.
    pub fn adopt(&mut self, root: Root, images: &Images)
        requires fits { FitsRoot root }
        requires page { image_at (record { area = RootArea; page = 0 }) images.now ≡ Some (tree_root_bytes root) }
        ensures { root_of self.new ≡ Some root }
    {
        let _images = images;
        self.root = Some(root);
    }
}
