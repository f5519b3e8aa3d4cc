//! The changed pages and the root page are committed at once.
ghost use Rattle.std.specs.Prelude.{◌≡◌, ◌≢◌, ◌≤◌, ◌+◌, ◌*◌, Some, length, IsTrue, IfErr, OnOk, OnErr};
ghost use Rattle.gaz_outside.specs.Outside.{HasCause};
ghost use Rattle.gaz_outside.specs.Station.{LeavesOnly};
ghost use Rattle.gaz_page.specs.TreeRoot.{FitsRoot, tree_root_bytes};
ghost use Rattle.gaz_redo.specs.Images.{image_at};
ghost use Rattle.gaz_redo.specs.Recovered.{OnlyRise};
ghost use Rattle.gaz_redo.specs.Slots.{Slot};
ghost use Rattle.gaz_pages.specs.Fits.{Fits};
ghost use Rattle.gaz_pages.specs.Held.{root_of};
ghost use Rattle.gaz_plain.specs.Gazetteer.{Gazetteer};
ghost use Rattle.gaz_rows.specs.declared.fault.ChangeFault.TheVariants.{Station as StationFault};
ghost use Rattle.gaz_rows.specs.Holds.{AllHold, IsOldOrNext};
ghost use Rattle.gaz_install.specs.Next.{with_root, root_home, MayCommit, IsNext, IsPrepared, IsPreparedFor, IsInstallFault, IsPrepareFault};

use gaz_outside::{Area, Failed, Station};
use gaz_page::{PAGE, Root, write_root};
use gaz_pages::Mirror;
use gaz_redo::{Home, Images, RedoFault, commit};
use gaz_rows::ChangeFault;
use std::alloc::AllocError;

/// Sets the root page among changed pages.
fn set_root(images: &mut Images, root: &Root) -> Result<(), AllocError>
    ensures set { OnOk result (images.new ≡ with_root root.now images.old) }
{
    let mut page = [0; PAGE];
    write_root(root, &mut page);
    images.set(
        Home {
            area: Area::Root,
            page: 0,
        },
        &page,
    )
}

/// Sets the root page among changed pages, so that no memory is wanting when they are committed. A root whose height no root page can say is
/// damage. After an error the images may be any.
pub fn prepare(images: &mut Images, root: Root) -> Result<(), ChangeFault>
    ensures set { OnOk result (images.new ≡ with_root root images.old) }
    ensures page { OnOk result (image_at root_home images.new ≡ Some (tree_root_bytes root)) }
    ensures sayable { OnOk result (FitsRoot root) }
    ensures cause { IfErr result (IsPrepareFault root) }
{
    if root.height < 1 || root.height > 6 {
        return Err(ChangeFault::Damaged(root.top));
    }
    match set_root(images, &root) {
        Ok(()) => Ok(()),
        Err(AllocError) => Err(ChangeFault::Memory),
    }
}

/// Commits changed pages among which the root page that names them is set, and makes this root the mirror's. After an error the mirror is
/// what it was, and the device has the old gazetteer or the next one. It takes no memory.
pub fn install_prepared<T: Station>(
    mirror: &mut Mirror,
    station: &mut T,
    images: &Images,
    root: Root,
) -> Result<(), Failed>
    requires sayable { FitsRoot root }
    requires page { image_at root_home images.now ≡ Some (tree_root_bytes root) }
    requires fits { IsTrue (T.view station.old).is_told → Fits (root_of mirror.old) (T.view station.old) }
    requires pages { IsTrue (T.view station.old).is_told → IsPrepared root images.now (T.view station.old) }
    ensures moments { IsTrue (T.view station.old).is_told → (first next : Gazetteer) → AllHold (T.view station.old) first → IsPreparedFor next root images.now (T.view station.old)
        → LeavesOnly (T.view station.old) (T.view station.new) (IsOldOrNext first next (T.view station.old)) }
    ensures installed { OnOk result (IsTrue (T.view station.old).is_told → (next : Gazetteer) → IsPreparedFor next root images.now (T.view station.old) → AllHold (T.view station.new) next) }
    ensures fits { OnOk result (IsTrue (T.view station.old).is_told → Fits (root_of mirror.new) (T.view station.new)) }
    ensures root { OnOk result (root_of mirror.new ≡ Some root) }
    ensures kept { OnErr result (mirror.new ≡ mirror.old) }
    ensures printed { IsTrue (T.view station.old).is_told → (T.view station.new).printed ≡ (T.view station.old).printed }
    ensures counts { OnlyRise (T.view station.old) (T.view station.new) }
    ensures writes { (T.view station.new).writes ≤ (T.view station.old).writes + 3 * length images.now + 3 }
    ensures cause { HasCause (T.view station.old).faults (T.view station.new).faults result }
{
    match commit(station, images) {
        Ok(()) => {
            mirror.adopt(root, images);
            Ok(())
        }
        Err(RedoFault::Failed) => Err(Failed),
    }
}

/// Commits changed pages with the root page that names them, and makes this root the mirror's. After an error the mirror is what it was,
/// the images may be any, and the device has the old gazetteer or the next one. A root whose height no root page can say is damage.
pub fn install<T: Station>(
    mirror: &mut Mirror,
    station: &mut T,
    images: &mut Images,
    root: Root,
) -> Result<(), ChangeFault>
    requires fits { IsTrue (T.view station.old).is_told → Fits (root_of mirror.old) (T.view station.old) }
    requires pages { IsTrue (T.view station.old).is_told → MayCommit root images.old (T.view station.old) }
    ensures moments { IsTrue (T.view station.old).is_told → (first next : Gazetteer) → AllHold (T.view station.old) first → IsNext next root images.old (T.view station.old)
        → LeavesOnly (T.view station.old) (T.view station.new) (IsOldOrNext first next (T.view station.old)) }
    ensures installed { OnOk result (IsTrue (T.view station.old).is_told → (next : Gazetteer) → IsNext next root images.old (T.view station.old) → AllHold (T.view station.new) next) }
    ensures fits { OnOk result (IsTrue (T.view station.old).is_told → Fits (root_of mirror.new) (T.view station.new)) }
    ensures root { OnOk result (root_of mirror.new ≡ Some root) }
    ensures untouched { IfErr result (λ fault. fault ≢ StationFault → station.new ≡ station.old) }
    ensures kept { OnErr result (mirror.new ≡ mirror.old) }
    ensures printed { IsTrue (T.view station.old).is_told → (T.view station.new).printed ≡ (T.view station.old).printed }
    ensures counts { OnlyRise (T.view station.old) (T.view station.new) }
    ensures writes { (T.view station.new).writes ≤ (T.view station.old).writes + 3 * length images.old + 6 }
    ensures faults { OnOk result ((T.view station.new).faults ≡ (T.view station.old).faults) }
    ensures cause { IfErr result (IsInstallFault root (T.view station.old).faults (T.view station.new).faults) }
{
    let last = root;
    match prepare(images, root) {
        Ok(()) => {}
        Err(fault) => return Err(fault),
    }
    match install_prepared(mirror, station, images, last) {
        Ok(()) => Ok(()),
        Err(Failed) => Err(ChangeFault::Station),
    }
}
