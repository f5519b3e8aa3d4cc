//! The lines of a dump are stepped into a new store in the idle area, which then takes the place of the old one.
ghost use Rattle.std.specs.Prelude.{◌≡◌, ◌≢◌, ◌⊎◌, ◌^◌, ◌≤◌, ℕ, List, Ok, Some, [], IsTrue, IfOk, IfErr, IfSome, OnOk, OnErr, IsOk, length};
ghost use Rattle.gaz_outside.specs.declared.station.Area.{Area};
ghost use Rattle.gaz_outside.specs.Outside.{FindsFiles, SameFiles, files_of};
ghost use Rattle.gaz_outside.specs.Station.{LeavesOnly};
ghost use Rattle.gaz_lines.specs.Cutter.{line_limit_of, file_limit_of};
ghost use Rattle.gaz_plain.specs.Gazetteer.{Gazetteer, dated, empty};
ghost use Rattle.gaz_plain.specs.Load.{load as load_of, load_files};
ghost use Rattle.gaz_redo.specs.Recovered.{OnlyRise};
ghost use Rattle.gaz_pages.specs.Areas.{side_area, idle_area};
ghost use Rattle.gaz_pages.specs.Fits.{Fits};
ghost use Rattle.gaz_pages.specs.Held.{root_of};
ghost use Rattle.gaz_pages.specs.Keeps.{OnlyReads};
ghost use Rattle.gaz_pages.specs.Views.{held_view, AreChanged, StillChanged};
ghost use Rattle.gaz_rows.specs.declared.fault.ChangeFault.TheVariants.{Station as StationFault};
ghost use Rattle.gaz_rows.specs.Holds.{AllHold, IsOldOrNext};
ghost use Rattle.gaz_rows.specs.Store.{IsStore};
ghost use Rattle.gaz_rows.specs.Stepping.{HasNewCounts};
ghost use Rattle.gaz_load.specs.Root.{FoldsToRoot, IsOfPages, done_of, fault_of};
ghost use Rattle.gaz_change.specs.Change.{fold_named, Changes, Folds, IsSound, IsOutside, IsFaultOfFiles, IsOfDate, FailsOnce, AreOpen, AreThere, Blamed, BlamesReached, NoneOpen};

use gaz_change::{MOST_FILES, files_of_load, fold_files, open_files};
use gaz_framed::PagedStation;
use gaz_install::{install_prepared, prepare};
use gaz_lines::LineCutter;
use gaz_num::{Day, FileName};
use gaz_outside::{Failed, Shelf, Station};
use gaz_page::{Root, Side};
use gaz_pages::{Changed, IdlePages, Mirror};
use gaz_redo::Images;
use gaz_rows::{AskFault, ChangeFault, RowStore, empty_root};
use std::alloc::Global;

/// The fault of the pages of a load.
fn of_pages(fault: AskFault) -> ChangeFault
    ensures { result ≡ fault_of fault }
{
    match fault {
        AskFault::Failed => ChangeFault::Station,
        AskFault::Damaged(page) => ChangeFault::Damaged(page),
        AskFault::Memory => ChangeFault::Memory,
    }
}

/// The root of a new store without lines, over pages of the idle area of which none was taken. What is lent to these pages stays lent to
/// them.
fn empty_pages<T: PagedStation>(
    pages: &mut IdlePages<'_, T>,
    side: Side,
    date: Day,
) -> Result<Root, ChangeFault>
    requires ends { (pages.old.changed.now.fresh ≡ 1) × (pages.old.changed.now.free ≡ 0) }
    ensures station { pages.new.station.ghost_name ≡ pages.old.station.ghost_name }
    ensures changed { pages.new.changed.ghost_name ≡ pages.old.changed.ghost_name }
    ensures store { IfOk result (λ root. IsTrue (T.view pages.old.station.now).is_told
        → IsStore (dated empty date) (held_view (side_area pages.old.side) pages.new.changed.now (T.view pages.new.station.now)) root) }
    ensures side { IfOk result (λ root. root.side ≡ side) }
    ensures same_side { pages.new.side ≡ pages.old.side }
    ensures still { IsTrue (T.view pages.old.station.now).is_told → StillChanged (side_area pages.old.side) 1 pages.old.changed.now pages.new.changed.now ((T.view pages.old.station.now).bytes (side_area pages.old.side)) }
    ensures reads { OnlyReads (T.view pages.old.station.now) (T.view pages.new.station.now) }
    ensures faults { FailsOnce (T.view pages.old.station.now).faults (T.view pages.new.station.now).faults (done_of result) }
    ensures of_pages { IfErr result IsOfPages }
    ensures sound { IfErr result (λ fault. IsTrue (T.view pages.old.station.now).is_told → IsSound fault) }
{
    match empty_root(pages, side, date) {
        Ok(root) => Ok(root),
        Err(fault) => Err(of_pages(fault)),
    }
}

/// Steps the lines of open files into a store over pages of the idle area. What is lent to these pages stays lent to them.
fn fold_pages<F: Shelf, T: PagedStation>(
    alloc: Global,
    store: &mut RowStore<IdlePages<'_, T>>,
    shelf: &mut F,
    cutter: &mut LineCutter,
    names: &[FileName],
    numbers: &[u64],
) -> Result<(), ChangeFault>
    requires room { length names.now ≤ length numbers.now }
    requires open { AreOpen names.now numbers.now (F.view shelf.old) }
    requires there { IfSome (files_of (F.view shelf.old)) (λ files. AreThere files names.now) }
    requires line_limit { line_limit_of cutter.old ≡ 65535 }
    requires file_limit { file_limit_of cutter.old ≡ 2 ^ 40 }
    ensures station { store.new.pages.station.ghost_name ≡ store.old.pages.station.ghost_name }
    ensures changed { store.new.pages.changed.ghost_name ≡ store.old.pages.changed.ghost_name }
    ensures folds { IsTrue (T.view store.old.pages.station.now).is_told → (gaz : Gazetteer) → IsStore gaz (held_view (side_area store.old.pages.side) store.old.pages.changed.now (T.view store.old.pages.station.now)) store.old.root
        → Folds (files_of (F.view shelf.new)) (λ files. fold_named files names.now gaz) gaz (held_view (side_area store.old.pages.side) store.new.pages.changed.now (T.view store.new.pages.station.now)) store.new.root result }
    ensures still { IsTrue (T.view store.old.pages.station.now).is_told → StillChanged (side_area store.old.pages.side) 1 store.old.pages.changed.now store.new.pages.changed.now ((T.view store.old.pages.station.now).bytes (side_area store.old.pages.side)) }
    ensures reads { OnlyReads (T.view store.old.pages.station.now) (T.view store.new.pages.station.now) }
    ensures root { HasNewCounts store.old.root store.new.root }
    ensures faults { FailsOnce (T.view store.old.pages.station.now).faults (T.view store.new.pages.station.now).faults result }
    ensures at { IfErr result (IsFaultOfFiles names.now) }
    ensures reached { IfSome (files_of (F.view shelf.new)) (λ files. BlamesReached files names.now result) }
    ensures blamed { Blamed (F.view shelf.old) (F.view shelf.new) result }
    ensures same_files { SameFiles (F.view shelf.old) (F.view shelf.new) }
    ensures line_limit { line_limit_of cutter.new ≡ line_limit_of cutter.old }
    ensures file_limit { file_limit_of cutter.new ≡ file_limit_of cutter.old }
{
    fold_files(alloc, store, shelf, cutter, names, numbers)
}

/// Steps the lines of the open files of a load into a new store over the idle area, and answers its root.
fn fold_load<F: Shelf, T: PagedStation>(
    alloc: Global,
    station: &mut T,
    changed: &mut Changed,
    side: Side,
    date: Day,
    shelf: &mut F,
    cutter: &mut LineCutter,
    names: &[FileName],
    numbers: &[u64],
) -> Result<Root, ChangeFault>
    requires none { (changed.old.images ≡ []) × (changed.old.past ≡ []) }
    requires ends { (changed.old.fresh ≡ 1) × (changed.old.free ≡ 0) }
    requires laid { (area : Area) (bytes : List ℕ) → AreChanged area 1 changed.old bytes }
    requires room { length names.now ≤ length numbers.now }
    requires open { AreOpen names.now numbers.now (F.view shelf.old) }
    requires there { IfSome (files_of (F.view shelf.old)) (λ files. AreThere files names.now) }
    requires line_limit { line_limit_of cutter.old ≡ 65535 }
    requires file_limit { file_limit_of cutter.old ≡ 2 ^ 40 }
    ensures folds { IsTrue (T.view station.old).is_told → FoldsToRoot (files_of (F.view shelf.new)) (λ files. fold_named files names.now (dated empty date)) (held_view (side_area side) changed.new (T.view station.new)) result }
    ensures side { IfOk result (λ root. root.side ≡ side) }
    ensures changed { IsTrue (T.view station.old).is_told → AreChanged (side_area side) 1 changed.new ((T.view station.old).bytes (side_area side)) }
    ensures reads { OnlyReads (T.view station.old) (T.view station.new) }
    ensures faults { FailsOnce (T.view station.old).faults (T.view station.new).faults (done_of result) }
    ensures dateless { IfErr result (λ fault. IsOfDate fault → ⊥) }
    ensures reached { IfSome (files_of (F.view shelf.new)) (λ files. BlamesReached files names.now result) }
    ensures blamed { Blamed (F.view shelf.old) (F.view shelf.new) result }
    ensures same_files { SameFiles (F.view shelf.old) (F.view shelf.new) }
    ensures line_limit { line_limit_of cutter.new ≡ line_limit_of cutter.old }
    ensures file_limit { file_limit_of cutter.new ≡ file_limit_of cutter.old }
{
    let mut pages = IdlePages::new(station, side, changed);
    let root = match empty_pages(&mut pages, side, date) {
        Ok(root) => root,
        Err(fault) => return Err(fault),
    };
    let mut store = RowStore::over(pages, root);
    match fold_pages(alloc, &mut store, shelf, cutter, names, numbers) {
        Ok(()) => Ok(*store.root()),
        Err(fault) => Err(fault),
    }
}

/// Writes the pages of a new store into the idle area and syncs them, and then commits the root page alone that names them. All memory is
/// had before the first write.
fn commit_load<T: Station>(
    alloc: Global,
    mirror: &mut Mirror,
    station: &mut T,
    changed: &Changed,
    root: Root,
) -> Result<(), ChangeFault>
    requires side { side_area root.side ≡ idle_area (root_of mirror.old) }
    requires fits { IsTrue (T.view station.old).is_told → Fits (root_of mirror.old) (T.view station.old) }
    requires changed { IsTrue (T.view station.old).is_told → AreChanged (side_area root.side) 1 changed.now ((T.view station.old).bytes (side_area root.side)) }
    requires store { IsTrue (T.view station.old).is_told → (gaz : Gazetteer) × IsStore gaz (held_view (side_area root.side) changed.now (T.view station.old)) root }
    ensures moments { IsTrue (T.view station.old).is_told → (first next : Gazetteer) → AllHold (T.view station.old) first → IsStore next (held_view (side_area root.side) changed.now (T.view station.old)) root
        → LeavesOnly (T.view station.old) (T.view station.new) (IsOldOrNext first next (T.view station.old)) }
    ensures loaded { OnOk result (IsTrue (T.view station.old).is_told → (next : Gazetteer) → IsStore next (held_view (side_area root.side) changed.now (T.view station.old)) root → AllHold (T.view station.new) next) }
    ensures fits { IsTrue (T.view station.old).is_told → IsOutside result → Fits (root_of mirror.new) (T.view station.new) }
    ensures still { IfErr result (λ fault. fault ≢ StationFault → IsTrue (T.view station.old).is_told → (first : Gazetteer) → AllHold (T.view station.old) first → AllHold (T.view station.new) first) }
    ensures unwritten { IfErr result (λ fault. fault ≢ StationFault → station.new ≡ station.old) }
    ensures kept { OnErr result (root_of mirror.new ≡ root_of mirror.old) }
    ensures sound { IfErr result (λ fault. IsTrue (T.view station.old).is_told → IsSound fault) }
    ensures of_pages { IfErr result IsOfPages }
    ensures printed { IsTrue (T.view station.old).is_told → (T.view station.new).printed ≡ (T.view station.old).printed }
    ensures counts { OnlyRise (T.view station.old) (T.view station.new) }
    ensures faults { FailsOnce (T.view station.old).faults (T.view station.new).faults result }
{
    let (fresh, free) = changed.ends();
    let last = Root {
        fresh,
        free,
        ..root
    };
    let mut images = Images::new(alloc);
    let now = last;
    match prepare(&mut images, now) {
        Ok(()) => {}
        Err(fault) => return Err(fault),
    }
    match changed.finish(station) {
        Ok(()) => {}
        Err(Failed) => return Err(ChangeFault::Station),
    }
    match install_prepared(mirror, station, &images, last) {
        Ok(()) => Ok(()),
        Err(Failed) => Err(ChangeFault::Station),
    }
}

/// Loads open files: the pages of the new store are written into the idle area and synced, and then the root page alone is committed.
fn load_opened<F: Shelf, T: PagedStation>(
    alloc: Global,
    mirror: &mut Mirror,
    shelf: &mut F,
    station: &mut T,
    cutter: &mut LineCutter,
    date: Day,
    numbers: &[u64],
) -> Result<(), ChangeFault>
    requires room { 6 ≤ length numbers.now }
    requires open { AreOpen load_files numbers.now (F.view shelf.old) }
    requires there { IfSome (files_of (F.view shelf.old)) (λ files. AreThere files load_files) }
    requires line_limit { line_limit_of cutter.old ≡ 65535 }
    requires file_limit { file_limit_of cutter.old ≡ 2 ^ 40 }
    requires fits { IsTrue (T.view station.old).is_told → Fits (root_of mirror.old) (T.view station.old) }
    ensures changes { IsTrue (T.view station.old).is_told → (first : Gazetteer) → AllHold (T.view station.old) first
        → Changes (λ gaz files. fold_named files load_files (dated empty date)) first (F.view shelf.new) (T.view station.old) (T.view station.new) result }
    ensures printed { IsTrue (T.view station.old).is_told → (T.view station.new).printed ≡ (T.view station.old).printed }
    ensures fits { IsTrue (T.view station.old).is_told → IsOutside result → Fits (root_of mirror.new) (T.view station.new) }
    ensures refused { IfErr result (λ fault. root_of mirror.new ≡ root_of mirror.old) }
    ensures unwritten { IfErr result (λ fault. fault ≢ StationFault → OnlyReads (T.view station.old) (T.view station.new)) }
    ensures stopped { IfErr result (λ fault. fault ≡ StationFault → OnlyReads (T.view station.old) (T.view station.new) ⊎ (IsTrue (T.view station.old).is_told → IfSome (files_of (F.view shelf.new)) (λ files. IsOk (fold_named files load_files (dated empty date))))) }
    ensures sound { IfErr result (λ fault. IsTrue (T.view station.old).is_told → IsSound fault) }
    ensures counts { OnlyRise (T.view station.old) (T.view station.new) }
    ensures cause { FailsOnce (T.view station.old).faults (T.view station.new).faults result }
    ensures dateless { IfErr result (λ fault. IsOfDate fault → ⊥) }
    ensures reached { IfSome (files_of (F.view shelf.new)) (λ files. BlamesReached files load_files result) }
    ensures blamed { Blamed (F.view shelf.old) (F.view shelf.new) result }
    ensures same_files { SameFiles (F.view shelf.old) (F.view shelf.new) }
    ensures line_limit { line_limit_of cutter.new ≡ line_limit_of cutter.old }
    ensures file_limit { file_limit_of cutter.new ≡ file_limit_of cutter.old }
{
    let names = files_of_load();
    let side = mirror.idle_side();
    let mut changed = Changed::over(alloc, Images::new(alloc), 1, 0);
    let root = match fold_load(
        alloc,
        station,
        &mut changed,
        side,
        date,
        shelf,
        cutter,
        &names,
        numbers,
    ) {
        Ok(root) => root,
        Err(fault) => return Err(fault),
    };
    commit_load(alloc, mirror, station, &changed, root)
}

/// Opens the files of a load, and loads them.
fn open_and_load<F: Shelf, T: PagedStation>(
    alloc: Global,
    mirror: &mut Mirror,
    shelf: &mut F,
    station: &mut T,
    cutter: &mut LineCutter,
    date: Day,
) -> Result<(), ChangeFault>
    requires line_limit { line_limit_of cutter.old ≡ 65535 }
    requires file_limit { file_limit_of cutter.old ≡ 2 ^ 40 }
    requires fits { IsTrue (T.view station.old).is_told → Fits (root_of mirror.old) (T.view station.old) }
    ensures changes { IsTrue (T.view station.old).is_told → (first : Gazetteer) → AllHold (T.view station.old) first
        → Changes (λ gaz files. load_of files date) first (F.view shelf.new) (T.view station.old) (T.view station.new) result }
    ensures printed { IsTrue (T.view station.old).is_told → (T.view station.new).printed ≡ (T.view station.old).printed }
    ensures fits { IsTrue (T.view station.old).is_told → IsOutside result → Fits (root_of mirror.new) (T.view station.new) }
    ensures refused { IfErr result (λ fault. root_of mirror.new ≡ root_of mirror.old) }
    ensures unwritten { IfErr result (λ fault. fault ≢ StationFault → OnlyReads (T.view station.old) (T.view station.new)) }
    ensures stopped { IfErr result (λ fault. fault ≡ StationFault → OnlyReads (T.view station.old) (T.view station.new) ⊎ (IsTrue (T.view station.old).is_told → IfSome (files_of (F.view shelf.new)) (λ files. IsOk (load_of files date)))) }
    ensures sound { IfErr result (λ fault. IsTrue (T.view station.old).is_told → IsSound fault) }
    ensures counts { OnlyRise (T.view station.old) (T.view station.new) }
    ensures cause { FailsOnce (T.view station.old).faults (T.view station.new).faults result }
    ensures dateless { IfErr result (λ fault. IsOfDate fault → ⊥) }
    ensures reached { IfSome (files_of (F.view shelf.new)) (λ files. BlamesReached files load_files result) }
    ensures blamed { Blamed (F.view shelf.old) (F.view shelf.new) result }
    ensures files { FindsFiles (F.view shelf.old) (F.view shelf.new) }
    ensures line_limit { line_limit_of cutter.new ≡ line_limit_of cutter.old }
    ensures file_limit { file_limit_of cutter.new ≡ file_limit_of cutter.old }
{
    let names = files_of_load();
    let mut numbers = [0; MOST_FILES];
    match open_files(shelf, &names, &mut numbers) {
        Ok(()) => {}
        Err(fault) => return Err(fault),
    }
    load_opened(alloc, mirror, shelf, station, cutter, date, &numbers)
}

/// Loads a dump: its lines are stored in the area that isn't in use, and the root page that names them is committed. It prints nothing. It
/// never answers `NotLoaded`, nor `Sequence`. After `Station` the mirror isn't used again; after another refusal all is as before, but that the
/// shelf may have found other files.
pub fn load<F: Shelf, T: PagedStation>(
    alloc: Global,
    mirror: &mut Mirror,
    shelf: &mut F,
    station: &mut T,
    cutter: &mut LineCutter,
    date: Day,
) -> Result<(), ChangeFault>
    requires line_limit { line_limit_of cutter.old ≡ 65535 }
    requires file_limit { file_limit_of cutter.old ≡ 2 ^ 40 }
    requires fits { IsTrue (T.view station.old).is_told → Fits (root_of mirror.old) (T.view station.old) }

    // One gazetteer before: at each moment it stands still, or the loaded one does.
    ensures changes { IsTrue (T.view station.old).is_told → (first : Gazetteer) → AllHold (T.view station.old) first
        → Changes (λ gaz files. load_of files date) first (F.view shelf.new) (T.view station.old) (T.view station.new) result }
    ensures printed { IsTrue (T.view station.old).is_told → (T.view station.new).printed ≡ (T.view station.old).printed }
    ensures fits { IsTrue (T.view station.old).is_told → IsOutside result → Fits (root_of mirror.new) (T.view station.new) }
    ensures refused { IfErr result (λ fault. root_of mirror.new ≡ root_of mirror.old) }

    // A load that is refused writes nothing.
    ensures unwritten { IfErr result (λ fault. fault ≢ StationFault → OnlyReads (T.view station.old) (T.view station.new)) }

    // One that the station stopped wrote nothing either, or its files make a gazetteer.
    ensures stopped { IfErr result (λ fault. fault ≡ StationFault → OnlyReads (T.view station.old) (T.view station.new) ⊎ (IsTrue (T.view station.old).is_told → IfSome (files_of (F.view shelf.new)) (λ files. IsOk (load_of files date)))) }

    // The new pages are never damaged.
    ensures sound { IfErr result (λ fault. IsTrue (T.view station.old).is_told → IsSound fault) }
    ensures closed { NoneOpen (F.view shelf.new) }
    ensures files { FindsFiles (F.view shelf.old) (F.view shelf.new) }
    ensures reached { IfSome (files_of (F.view shelf.new)) (λ files. BlamesReached files load_files result) }
    ensures blamed { Blamed (F.view shelf.old) (F.view shelf.new) result }
    ensures line_limit { line_limit_of cutter.new ≡ line_limit_of cutter.old }
    ensures file_limit { file_limit_of cutter.new ≡ file_limit_of cutter.old }
    ensures counts { OnlyRise (T.view station.old) (T.view station.new) }
    ensures cause { FailsOnce (T.view station.old).faults (T.view station.new).faults result }
    ensures dateless { IfErr result (λ fault. IsOfDate fault → ⊥) }
{
    let result = open_and_load(alloc, mirror, shelf, station, cutter, date);
    shelf.close_all();
    result
}
