//! What Root says of a mirror.
ghost use Rattle.std.specs.Prelude.{IsTrue, IfOk};
ghost use Rattle.gaz_outside.specs.declared.station.Area.TheVariants.{Root as RootArea};
ghost use Rattle.gaz_outside.specs.Outside.{HasCause};
ghost use Rattle.gaz_outside.specs.Station.{Confined, Counts};
ghost use Rattle.gaz_redo.specs.Slots.{SameBytes};
ghost use Rattle.gaz_open.specs.Opens.{Finds, FitsFound};

use gaz_outside::{Area, Failed, Station};
use gaz_page::{PAGE, Root, read_root};

/// What stands in Root.
#[derive(Drop)]
pub enum Found {
    /// Fewer bytes than a page.
    Empty,
    /// A root page.
    Named(Root),
    /// A page that is no root page.
    NotARoot,
}

/// Reads the root page, if Root has a page.
pub(crate) fn find_root<T: Station>(station: &mut T) -> Result<Found, Failed>
    ensures found { IfOk result (λ found. IsTrue (T.view station.old).is_told → Finds found ((T.view station.old).bytes RootArea)) }
    ensures fits { IfOk result FitsFound }
    ensures stays { IsTrue (T.view station.old).is_told → Confined SameBytes (T.view station.old) (T.view station.new) }
    ensures counts { Counts 1 0 (T.view station.old) (T.view station.new) }
    ensures cause { HasCause (T.view station.old).faults (T.view station.new).faults result }
{
    let size = station.len(Area::Root)?;
    if size < PAGE as u64 {
        return Ok(Found::Empty);
    }
    let mut page = [0; PAGE];
    station.read_at(Area::Root, 0, &mut page)?;
    match read_root(&page) {
        Some(root) => Ok(Found::Named(root)),
        None => Ok(Found::NotARoot),
    }
}
