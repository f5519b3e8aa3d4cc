//! The files of a load or a day: which they are, and how they are opened.
ghost use Rattle.std.specs.Prelude.{◌≡◌, ◌≤◌, length, Ok, IfErr, IfSome, OnOk, Err};
ghost use Rattle.gaz_outside.specs.Outside.{FindsFiles, files_of};
ghost use Rattle.gaz_plain.specs.Load.{load_files, day_files, in_sequence};
ghost use Rattle.gaz_change.specs.Change.{refusal_by, Opened, AreOpen, AreFound, Blamed, IsOfDate, IsOfOpening};

use gaz_num::{Day, FileName, next_day, write_file_name};
use gaz_outside::{Failed, Shelf};
use gaz_rows::ChangeFault;
use std::str::from_utf8;

/// The most files that a request reads.
pub const MOST_FILES: usize = 6;

/// The files of a load, in the order in which they are read.
pub fn files_of_load() -> [FileName; 6]
    ensures { result ≡ load_files }
{
    [
        FileName::Rows,
        FileName::Alternates,
        FileName::Links,
        FileName::Countries,
        FileName::Admin1,
        FileName::Admin2,
    ]
}

/// The files of a day, in the order in which they are read.
pub fn files_of_day(date: Day) -> [FileName; 4]
    ensures { result ≡ day_files date }
{
    [
        FileName::Modifications(date),
        FileName::Deletes(date),
        FileName::AltModifications(date),
        FileName::AltDeletes(date),
    ]
}

/// Whether the date is the one after the gazetteer's.
pub fn follow(have: Option<Day>, date: Day) -> Result<(), ChangeFault>
    ensures ok { OnOk result (in_sequence have date ≡ Ok date) }
    ensures err { IfErr result (λ fault. IfSome (refusal_by fault) (λ refusal. in_sequence have date ≡ Err refusal)) }
    ensures cause { IfErr result IsOfDate }
{
    match have {
        None => Err(ChangeFault::NotLoaded),
        Some(have) if next_day(have) == Some(date) => Ok(()),
        Some(have) => Err(ChangeFault::Sequence(have)),
    }
}

/// Opens a file of a request.
pub(crate) fn open_file<F: Shelf>(shelf: &mut F, name: &FileName) -> Result<u64, ChangeFault>
    ensures opened { Opened name.now (F.view shelf.old) (F.view shelf.new) result }
    ensures opening { IfErr result IsOfOpening }
    ensures blamed { Blamed (F.view shelf.old) (F.view shelf.new) result }
    ensures files { FindsFiles (F.view shelf.old) (F.view shelf.new) }
{
    let mut bytes = [0; 48];
    let size = write_file_name(*name, &mut bytes);
    let Ok(text) = from_utf8(&bytes[..size]) else {
        unreachable!()
    };
    match shelf.open(text) {
        Ok(Some(file)) => Ok(file),
        Ok(None) => Err(ChangeFault::Absent(*name)),
        Err(Failed) => Err(ChangeFault::Shelf(*name)),
    }
}

/// Opens the files of a request in order, and puts their numbers to the front of `numbers`.
pub fn open_files<F: Shelf>(
    shelf: &mut F,
    names: &[FileName],
    numbers: &mut [u64],
) -> Result<(), ChangeFault>
    requires room { length names.now ≤ length numbers.old }
    ensures opened { OnOk result (AreOpen names.now numbers.new (F.view shelf.new)) }
    ensures found { IfSome (files_of (F.view shelf.new)) (λ files. AreFound files names.now result) }
    ensures opening { IfErr result IsOfOpening }
    ensures blamed { Blamed (F.view shelf.old) (F.view shelf.new) result }
    ensures files { FindsFiles (F.view shelf.old) (F.view shelf.new) }
    ensures room { length numbers.new ≡ length numbers.old }
{
    for place in 0..names.len() {
        match open_file(shelf, &names[place]) {
            Ok(number) => numbers[place] = number,
            Err(fault) => return Err(fault),
        }
    }
    Ok(())
}
