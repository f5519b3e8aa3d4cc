//! The lines of a day are stepped into the pages of the mirror, and the changed pages are committed.
ghost use Rattle.std.specs.Prelude.{◌≡◌, ◌≢◌, ◌⊎◌, ◌^◌, ◌+◌, ◌*◌, ◌≤◌, ℕ, Ok, Err, Some, [], IsTrue, IfErr, IfSome, OnOk, IsOk, length, option_map};
ghost use Rattle.gaz_outside.specs.Outside.{FindsFiles, SameFiles, SameNumbers, files_of};
ghost use Rattle.gaz_lines.specs.Cutter.{line_limit_of, file_limit_of};
ghost use Rattle.gaz_page.specs.Area.{page_at};
ghost use Rattle.gaz_plain.specs.Gazetteer.{Gazetteer, dated};
ghost use Rattle.gaz_plain.specs.Load.{day as day_of, day_files, in_sequence};
ghost use Rattle.gaz_redo.specs.Recovered.{OnlyRise};
ghost use Rattle.gaz_pages.specs.Areas.{side_area};
ghost use Rattle.gaz_pages.specs.Fits.{Fits};
ghost use Rattle.gaz_pages.specs.Held.{root_of};
ghost use Rattle.gaz_pages.specs.Keeps.{OnlyReads};
ghost use Rattle.gaz_pages.specs.Views.{held_view, all_images, AreChanged, StillChanged};
ghost use Rattle.gaz_rows.specs.Content.{Mirrors};
ghost use Rattle.gaz_rows.specs.Holds.{AllHold};
ghost use Rattle.gaz_rows.specs.Stands.{StandsFor};
ghost use Rattle.gaz_rows.specs.Store.{IsStore};
ghost use Rattle.gaz_rows.specs.Stepping.{HasNewCounts};
ghost use Rattle.gaz_rows.specs.declared.fault.ChangeFault.TheVariants.{Station as StationFault};
ghost use Rattle.gaz_day.specs.Order.{IsInOrder};
ghost use Rattle.gaz_change.specs.Change.{refusal_by, fold_named, Changes, Folds, IsSound, IsOutside, IsFaultOfFiles, IsOfDate, FailsOnce, LeavesShelf, AreOpen, AreThere, Blamed, BlamesReached, lines_of};

use gaz_change::{MOST_FILES, files_of_day, fold_files, follow, open_files};
use gaz_framed::PagedStation;
use gaz_install::install;
use gaz_lines::LineCutter;
use gaz_num::{Day, FileName};
use gaz_outside::Shelf;
use gaz_page::Root;
use gaz_pages::{Changed, DayPages, Mirror};
use gaz_redo::Images;
use gaz_rows::{ChangeFault, RowStore};
use std::alloc::Global;

/// Steps the lines of open files into a store over the pages of a day. What is lent to these pages stays lent to them.
fn fold_pages<F: Shelf, T: PagedStation>(
    alloc: Global,
    store: &mut RowStore<DayPages<'_, T>>,
    shelf: &mut F,
    cutter: &mut LineCutter,
    names: &[FileName],
    numbers: &[u64],
) -> Result<(), ChangeFault>
    requires room { length names.now ≤ length numbers.now }
    requires open { AreOpen names.now numbers.now (F.view shelf.old) }
    requires there { IfSome (files_of (F.view shelf.old)) (λ files. AreThere files names.now) }
    requires line_limit { line_limit_of cutter.old ≡ 65535 }
    requires file_limit { file_limit_of cutter.old ≡ 2 ^ 40 }
    ensures station { store.new.pages.station.ghost_name ≡ store.old.pages.station.ghost_name }
    ensures changed { store.new.pages.changed.ghost_name ≡ store.old.pages.changed.ghost_name }
    ensures folds { IsTrue (T.view store.old.pages.station.now).is_told → (gaz : Gazetteer) → IsStore gaz (held_view (side_area store.old.pages.extent.side) store.old.pages.changed.now (T.view store.old.pages.station.now)) store.old.root
        → Folds (files_of (F.view shelf.new)) (λ files. fold_named files names.now gaz) gaz (held_view (side_area store.old.pages.extent.side) store.new.pages.changed.now (T.view store.new.pages.station.now)) store.new.root result }
    ensures still { IsTrue (T.view store.old.pages.station.now).is_told → StillChanged (side_area store.old.pages.extent.side) store.old.pages.extent.fresh store.old.pages.changed.now store.new.pages.changed.now ((T.view store.old.pages.station.now).bytes (side_area store.old.pages.extent.side)) }
    ensures reads { OnlyReads (T.view store.old.pages.station.now) (T.view store.new.pages.station.now) }
    ensures root { HasNewCounts store.old.root store.new.root }
    ensures low { store.old.root.height ≤ 6 → store.new.root.height ≤ 6 }
    ensures few { OnOk result (store.old.root.height ≤ 6 → IfSome (files_of (F.view shelf.new)) (λ files. length (all_images store.new.pages.changed.now) ≤ length (all_images store.old.pages.changed.now) + 320 * lines_of files names.now)) }
    ensures faults { FailsOnce (T.view store.old.pages.station.now).faults (T.view store.new.pages.station.now).faults result }
    ensures at { IfErr result (IsFaultOfFiles names.now) }
    ensures reached { IfSome (files_of (F.view shelf.new)) (λ files. BlamesReached files names.now result) }
    ensures blamed { Blamed (F.view shelf.old) (F.view shelf.new) result }
    ensures same_files { SameFiles (F.view shelf.old) (F.view shelf.new) }
    ensures line_limit { line_limit_of cutter.new ≡ line_limit_of cutter.old }
    ensures file_limit { file_limit_of cutter.new ≡ file_limit_of cutter.old }
{
    fold_files(alloc, store, shelf, cutter, names, numbers)
}

/// Steps the lines of the open files of a day into the pages that the mirror's root names. `now` is that root with the new date, and after
/// `Ok` what became of it.
fn fold_day<F: Shelf, T: PagedStation>(
    alloc: Global,
    station: &mut T,
    changed: &mut Changed,
    root: Root,
    now: &mut Root,
    shelf: &mut F,
    cutter: &mut LineCutter,
    names: &[FileName],
    numbers: &[u64],
) -> Result<(), ChangeFault>
    requires none { (changed.old.images ≡ []) × (changed.old.past ≡ []) }
    requires ends { (changed.old.fresh ≡ root.fresh) × (changed.old.free ≡ root.free) }
    requires same { (now.old.fresh ≡ root.fresh) × (now.old.free ≡ root.free) }
    requires room { length names.now ≤ length numbers.now }
    requires open { AreOpen names.now numbers.now (F.view shelf.old) }
    requires there { IfSome (files_of (F.view shelf.old)) (λ files. AreThere files names.now) }
    requires line_limit { line_limit_of cutter.old ≡ 65535 }
    requires file_limit { file_limit_of cutter.old ≡ 2 ^ 40 }
    ensures folds { IsTrue (T.view station.old).is_told → (gaz : Gazetteer) → StandsFor gaz (page_at ((T.view station.old).bytes (side_area root.side))) now.old
        → Folds (files_of (F.view shelf.new)) (λ files. fold_named files names.now gaz) gaz (held_view (side_area root.side) changed.new (T.view station.new)) now.new result }
    ensures changed { IsTrue (T.view station.old).is_told → AreChanged (side_area root.side) root.fresh changed.new ((T.view station.old).bytes (side_area root.side)) }
    ensures reads { OnlyReads (T.view station.old) (T.view station.new) }
    ensures root_now { HasNewCounts now.old now.new }
    ensures low { now.old.height ≤ 6 → now.new.height ≤ 6 }
    ensures few { OnOk result (now.old.height ≤ 6 → IfSome (files_of (F.view shelf.new)) (λ files. length (all_images changed.new) ≤ 320 * lines_of files names.now)) }
    ensures faults { FailsOnce (T.view station.old).faults (T.view station.new).faults result }
    ensures at { IfErr result (IsFaultOfFiles names.now) }
    ensures reached { IfSome (files_of (F.view shelf.new)) (λ files. BlamesReached files names.now result) }
    ensures blamed { Blamed (F.view shelf.old) (F.view shelf.new) result }
    ensures same_files { SameFiles (F.view shelf.old) (F.view shelf.new) }
    ensures line_limit { line_limit_of cutter.new ≡ line_limit_of cutter.old }
    ensures file_limit { file_limit_of cutter.new ≡ file_limit_of cutter.old }
{
    let pages = DayPages::new(station, root, changed);
    let mut store = RowStore::over(pages, *now);
    let result = fold_pages(alloc, &mut store, shelf, cutter, names, numbers);
    *now = *store.root();
    result
}

/// Applies the day of open files to a mirror with this root: what the lines change is committed with the root page of the date.
fn apply_opened<F: Shelf, T: PagedStation>(
    alloc: Global,
    mirror: &mut Mirror,
    shelf: &mut F,
    station: &mut T,
    cutter: &mut LineCutter,
    root: Root,
    date: Day,
    numbers: &[u64],
) -> Result<(), ChangeFault>
    requires root { root_of mirror.old ≡ Some root }
    requires room { 4 ≤ length numbers.now }
    requires open { AreOpen (day_files date) numbers.now (F.view shelf.old) }
    requires there { IfSome (files_of (F.view shelf.old)) (λ files. AreThere files (day_files date)) }
    requires line_limit { line_limit_of cutter.old ≡ 65535 }
    requires file_limit { file_limit_of cutter.old ≡ 2 ^ 40 }
    requires fits { IsTrue (T.view station.old).is_told → Fits (root_of mirror.old) (T.view station.old) }
    ensures changes { IsTrue (T.view station.old).is_told → (first : Gazetteer) → AllHold (T.view station.old) first
        → Changes (λ gaz files. fold_named files (day_files date) (dated gaz date)) first (F.view shelf.new) (T.view station.old) (T.view station.new) result }
    ensures printed { IsTrue (T.view station.old).is_told → (T.view station.new).printed ≡ (T.view station.old).printed }
    ensures fits { IsTrue (T.view station.old).is_told → IsOutside result → Fits (root_of mirror.new) (T.view station.new) }
    ensures refused { IfErr result (λ fault. root_of mirror.new ≡ root_of mirror.old) }
    ensures unwritten { IfErr result (λ fault. fault ≢ StationFault → OnlyReads (T.view station.old) (T.view station.new)) }
    ensures stopped { IfErr result (λ fault. fault ≡ StationFault → OnlyReads (T.view station.old) (T.view station.new) ⊎ (IsTrue (T.view station.old).is_told → (first : Gazetteer) → AllHold (T.view station.old) first → IfSome (files_of (F.view shelf.new)) (λ files. IsOk (fold_named files (day_files date) (dated first date))))) }
    ensures damaged { IfErr result (λ fault. IsTrue (T.view station.old).is_told → (gaz : Gazetteer) → Mirrors (T.view station.old).bytes gaz → IsSound fault) }
    ensures writes { IfSome (files_of (F.view shelf.new)) (λ files. (T.view station.new).writes ≤ (T.view station.old).writes + 1000 * (lines_of files (day_files date) + 1)) }
    ensures counts { OnlyRise (T.view station.old) (T.view station.new) }
    ensures cause { FailsOnce (T.view station.old).faults (T.view station.new).faults result }
    ensures dateless { IfErr result (λ fault. IsOfDate fault → ⊥) }
    ensures reached { IfSome (files_of (F.view shelf.new)) (λ files. BlamesReached files (day_files date) result) }
    ensures blamed { Blamed (F.view shelf.old) (F.view shelf.new) result }
    ensures same_files { SameFiles (F.view shelf.old) (F.view shelf.new) }
    ensures line_limit { line_limit_of cutter.new ≡ line_limit_of cutter.old }
    ensures file_limit { file_limit_of cutter.new ≡ file_limit_of cutter.old }
{
    let names = files_of_day(date);
    let mut changed = Changed::over(alloc, Images::new(alloc), root.fresh, root.free);
    let mut now = Root { day: date, ..root };
    match fold_day(
        alloc,
        station,
        &mut changed,
        root,
        &mut now,
        shelf,
        cutter,
        &names,
        numbers,
    ) {
        Ok(()) => {}
        Err(fault) => return Err(fault),
    }
    let (fresh, free) = changed.ends();
    let mut images = changed.into_images();
    install(mirror, station, &mut images, Root { fresh, free, ..now })
}

/// Opens the files of a day, and applies it to a mirror with this root.
fn open_and_apply<F: Shelf, T: PagedStation>(
    alloc: Global,
    mirror: &mut Mirror,
    shelf: &mut F,
    station: &mut T,
    cutter: &mut LineCutter,
    root: Root,
    date: Day,
) -> Result<(), ChangeFault>
    requires root { root_of mirror.old ≡ Some root }
    requires line_limit { line_limit_of cutter.old ≡ 65535 }
    requires file_limit { file_limit_of cutter.old ≡ 2 ^ 40 }
    requires fits { IsTrue (T.view station.old).is_told → Fits (root_of mirror.old) (T.view station.old) }
    ensures changes { IsTrue (T.view station.old).is_told → (first : Gazetteer) → AllHold (T.view station.old) first
        → Changes (λ gaz files. fold_named files (day_files date) (dated gaz date)) first (F.view shelf.new) (T.view station.old) (T.view station.new) result }
    ensures printed { IsTrue (T.view station.old).is_told → (T.view station.new).printed ≡ (T.view station.old).printed }
    ensures fits { IsTrue (T.view station.old).is_told → IsOutside result → Fits (root_of mirror.new) (T.view station.new) }
    ensures refused { IfErr result (λ fault. root_of mirror.new ≡ root_of mirror.old) }
    ensures unwritten { IfErr result (λ fault. fault ≢ StationFault → OnlyReads (T.view station.old) (T.view station.new)) }
    ensures stopped { IfErr result (λ fault. fault ≡ StationFault → OnlyReads (T.view station.old) (T.view station.new) ⊎ (IsTrue (T.view station.old).is_told → (first : Gazetteer) → AllHold (T.view station.old) first → IfSome (files_of (F.view shelf.new)) (λ files. IsOk (fold_named files (day_files date) (dated first date))))) }
    ensures damaged { IfErr result (λ fault. IsTrue (T.view station.old).is_told → (gaz : Gazetteer) → Mirrors (T.view station.old).bytes gaz → IsSound fault) }
    ensures writes { IfSome (files_of (F.view shelf.new)) (λ files. (T.view station.new).writes ≤ (T.view station.old).writes + 1000 * (lines_of files (day_files date) + 1)) }
    ensures counts { OnlyRise (T.view station.old) (T.view station.new) }
    ensures cause { FailsOnce (T.view station.old).faults (T.view station.new).faults result }
    ensures dateless { IfErr result (λ fault. IsOfDate fault → ⊥) }
    ensures reached { IfSome (files_of (F.view shelf.new)) (λ files. BlamesReached files (day_files date) result) }
    ensures blamed { Blamed (F.view shelf.old) (F.view shelf.new) result }
    ensures files { FindsFiles (F.view shelf.old) (F.view shelf.new) }
    ensures line_limit { line_limit_of cutter.new ≡ line_limit_of cutter.old }
    ensures file_limit { file_limit_of cutter.new ≡ file_limit_of cutter.old }
{
    let names = files_of_day(date);
    let mut numbers = [0; MOST_FILES];
    match open_files(shelf, &names, &mut numbers) {
        Ok(()) => {}
        Err(fault) => return Err(fault),
    }
    apply_opened(alloc, mirror, shelf, station, cutter, root, date, &numbers)
}

/// Applies a day: its lines are stepped into the pages of the mirror, and the changed ones are committed with the root page of its date.
/// It prints nothing. After `Station` and `Damaged` the mirror isn't used again; after another refusal all is as before, but that the shelf
/// may have found other files.
pub fn apply<F: Shelf, T: PagedStation>(
    alloc: Global,
    mirror: &mut Mirror,
    shelf: &mut F,
    station: &mut T,
    cutter: &mut LineCutter,
    date: Day,
) -> Result<(), ChangeFault>
    requires line_limit { line_limit_of cutter.old ≡ 65535 }
    requires file_limit { file_limit_of cutter.old ≡ 2 ^ 40 }
    requires fits { IsTrue (T.view station.old).is_told → Fits (root_of mirror.old) (T.view station.old) }

    // One gazetteer before: at each moment it stands still, or the one after the day does.
    ensures changes { IsTrue (T.view station.old).is_told → (first : Gazetteer) → AllHold (T.view station.old) first
        → Changes (λ gaz files. day_of gaz files date) first (F.view shelf.new) (T.view station.old) (T.view station.new) result }
    ensures printed { IsTrue (T.view station.old).is_told → (T.view station.new).printed ≡ (T.view station.old).printed }
    ensures fits { IsTrue (T.view station.old).is_told → IsOutside result → Fits (root_of mirror.new) (T.view station.new) }
    ensures refused { IfErr result (λ fault. root_of mirror.new ≡ root_of mirror.old) }

    // A day that is refused writes nothing, and it is refused for its date exactly where that isn't the one after the mirror's.
    ensures unwritten { IfErr result (λ fault. fault ≢ StationFault → OnlyReads (T.view station.old) (T.view station.new)) }
    ensures by_date { IfErr result (λ fault. IsOfDate fault → IfSome (refusal_by fault) (λ refusal. in_sequence (option_map (λ root. root.day) (root_of mirror.old)) date ≡ Err refusal)) }
    ensures in_order { IsInOrder result → in_sequence (option_map (λ root. root.day) (root_of mirror.old)) date ≡ Ok date }

    // A day that the station stopped wrote nothing either, or its files make a gazetteer.
    ensures stopped { IfErr result (λ fault. fault ≡ StationFault → OnlyReads (T.view station.old) (T.view station.new) ⊎ (IsTrue (T.view station.old).is_told → (first : Gazetteer) → AllHold (T.view station.old) first → IfSome (files_of (F.view shelf.new)) (λ files. IsOk (day_of first files date)))) }

    // Damage only where the areas mirror no gazetteer.
    ensures damaged { IfErr result (λ fault. IsTrue (T.view station.old).is_told → (gaz : Gazetteer) → Mirrors (T.view station.old).bytes gaz → IsSound fault) }
    ensures shelf { LeavesShelf (F.view shelf.old) (F.view shelf.new) result }
    ensures reached { IfSome (files_of (F.view shelf.new)) (λ files. BlamesReached files (day_files date) result) }
    ensures blamed { Blamed (F.view shelf.old) (F.view shelf.new) result }
    ensures line_limit { line_limit_of cutter.new ≡ line_limit_of cutter.old }
    ensures file_limit { file_limit_of cutter.new ≡ file_limit_of cutter.old }
    ensures writes { IfSome (files_of (F.view shelf.new)) (λ files. (T.view station.new).writes ≤ (T.view station.old).writes + 1000 * (lines_of files (day_files date) + 1)) }
    ensures counts { OnlyRise (T.view station.old) (T.view station.new) }
    ensures cause { FailsOnce (T.view station.old).faults (T.view station.new).faults result }
{
    match follow(mirror.date(), date) {
        Ok(()) => {}
        Err(fault) => return Err(fault),
    }
    let Some(root) = mirror.root() else {
        unreachable!()
    };
    let result = open_and_apply(alloc, mirror, shelf, station, cutter, root, date);
    shelf.close_all();
    result
}
