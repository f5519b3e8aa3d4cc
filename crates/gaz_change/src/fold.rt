//! The lines of files are stepped into a store, one after another.
ghost use Rattle.std.specs.Prelude.{◌≡◌, ◌≤◌, ◌^◌, ◌∷◌, [], ℕ, length, false, IsTrue, Some, IfErr, IfSome, OnOk};
ghost use Rattle.gaz_outside.specs.Outside.{SameFiles, SameNumbers, files_of, bytes_of};
ghost use Rattle.gaz_num.specs.Words.{file_text};
ghost use Rattle.gaz_num.specs.Pieces.{lines_within};
ghost use Rattle.gaz_lines.specs.Cutter.{line_limit_of, file_limit_of};
ghost use Rattle.gaz_plain.specs.Gazetteer.{Gazetteer};
ghost use Rattle.gaz_plain.specs.Fold.{fold};
ghost use Rattle.gaz_rows.specs.Store.{IsStore};
ghost use Rattle.gaz_rows.specs.Stepping.{HasNewCounts};
ghost use Rattle.gaz_change.specs.Change.{fold_named, lines_of, Folds, FoldCosts, ChangesByLine, AreOpen, AreThere, Blamed, BlamesReached, IsFaultOfFile, IsFaultOfFiles, fault_at};

use gaz_lines::{LineCutter, LineFault};
use gaz_num::{FileName, Reason};
use gaz_outside::Shelf;
use gaz_page::Pages;
use gaz_rows::{ChangeFault, RowStore, StepFault};
use std::alloc::Global;

/// The fault of a line of a file.
fn at_line(file: FileName, line: u64, fault: StepFault) -> ChangeFault
    ensures { result ≡ fault_at file line fault }
{
    match fault {
        StepFault::Malformed(reason) => ChangeFault::Malformed(file, line, reason),
        StepFault::Full(table) => ChangeFault::Full(file, line, table),
        StepFault::Failed => ChangeFault::Station,
        StepFault::Damaged(page) => ChangeFault::Damaged(page),
        StepFault::Memory => ChangeFault::Memory,
    }
}

/// Steps the lines of an open file into the store, up to the first refusal.
pub fn fold_file<F: Shelf, P: Pages>(
    alloc: Global,
    store: &mut RowStore<P>,
    shelf: &mut F,
    cutter: &mut LineCutter,
    name: &FileName,
    file: u64,
) -> Result<(), ChangeFault>
    requires may_change { (P.view store.old.pages).is_read_only ≡ false }
    requires open { (F.view shelf.old).opened file ≡ Some (file_text name.now) }
    requires line_limit { line_limit_of cutter.old ≡ 65535 }
    requires file_limit { file_limit_of cutter.old ≡ 2 ^ 40 }
    ensures folds { IsTrue (P.view store.old.pages).is_told → (gaz : Gazetteer) → IsStore gaz (P.view store.old.pages) store.old.root
        → Folds (bytes_of (F.view shelf.old) file) (λ bytes. fold gaz (record { name = name.now; bytes = bytes } ∷ [])) gaz (P.view store.new.pages) store.new.root result }
    ensures low { store.old.root.height ≤ 6 → store.new.root.height ≤ 6 }
    ensures few { OnOk result (store.old.root.height ≤ 6 → IfSome (bytes_of (F.view shelf.old) file) (λ bytes. ChangesByLine (length (lines_within bytes)) (P.view store.old.pages) (P.view store.new.pages))) }
    ensures root { HasNewCounts store.old.root store.new.root }
    ensures costs { FoldCosts (P.view store.old.pages) (P.view store.new.pages) result }
    ensures keeps { P.keeps store.old.pages store.new.pages }
    ensures at { IfErr result (IsFaultOfFile name.now) }
    ensures blamed { Blamed (F.view shelf.old) (F.view shelf.new) result }
    ensures numbers { SameNumbers (F.view shelf.old) (F.view shelf.new) }
    ensures same { SameFiles (F.view shelf.old) (F.view shelf.new) }
    ensures line_limit { line_limit_of cutter.new ≡ line_limit_of cutter.old }
    ensures file_limit { file_limit_of cutter.new ≡ file_limit_of cutter.old }
{
    cutter.restart();
    loop {
        let line = match cutter.next_shelf(shelf, file) {
            Ok(Some(line)) => line,
            Ok(None) => return Ok(()),
            Err(LineFault::TooLong(number)) => {
                return Err(ChangeFault::Malformed(*name, number, Reason::Length));
            }
            Err(LineFault::FileTooLong) => return Err(ChangeFault::TooLong(*name)),
            Err(LineFault::Failed) => return Err(ChangeFault::Shelf(*name)),
        };
        if let Err(fault) = store.step(alloc, name.kind(), line) {
            return Err(at_line(*name, cutter.line(), fault));
        }
    }
}

/// Steps the lines of open files into the store, in order, up to the first refusal. After an error the store is to be dropped.
pub fn fold_files<F: Shelf, P: Pages>(
    alloc: Global,
    store: &mut RowStore<P>,
    shelf: &mut F,
    cutter: &mut LineCutter,
    names: &[FileName],
    numbers: &[u64],
) -> Result<(), ChangeFault>
    requires may_change { (P.view store.old.pages).is_read_only ≡ false }
    requires room { length names.now ≤ length numbers.now }
    requires open { AreOpen names.now numbers.now (F.view shelf.old) }
    requires there { IfSome (files_of (F.view shelf.old)) (λ files. AreThere files names.now) }
    requires line_limit { line_limit_of cutter.old ≡ 65535 }
    requires file_limit { file_limit_of cutter.old ≡ 2 ^ 40 }
    ensures folds { IsTrue (P.view store.old.pages).is_told → (gaz : Gazetteer) → IsStore gaz (P.view store.old.pages) store.old.root
        → Folds (files_of (F.view shelf.new)) (λ files. fold_named files names.now gaz) gaz (P.view store.new.pages) store.new.root result }
    ensures low { store.old.root.height ≤ 6 → store.new.root.height ≤ 6 }
    ensures few { OnOk result (store.old.root.height ≤ 6 → IfSome (files_of (F.view shelf.new)) (λ files. ChangesByLine (lines_of files names.now) (P.view store.old.pages) (P.view store.new.pages))) }
    ensures root { HasNewCounts store.old.root store.new.root }
    ensures costs { FoldCosts (P.view store.old.pages) (P.view store.new.pages) result }
    ensures keeps { P.keeps store.old.pages store.new.pages }
    ensures at { IfErr result (IsFaultOfFiles names.now) }
    ensures reached { IfSome (files_of (F.view shelf.new)) (λ files. BlamesReached files names.now result) }
    ensures blamed { Blamed (F.view shelf.old) (F.view shelf.new) result }
    ensures same { SameFiles (F.view shelf.old) (F.view shelf.new) }
    ensures line_limit { line_limit_of cutter.new ≡ line_limit_of cutter.old }
    ensures file_limit { file_limit_of cutter.new ≡ file_limit_of cutter.old }
{
    for place in 0..names.len() {
        match fold_file(alloc, store, shelf, cutter, &names[place], numbers[place]) {
            Ok(()) => {}
            Err(fault) => return Err(fault),
        }
    }
    Ok(())
}
