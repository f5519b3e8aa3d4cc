//! The calls of a store and of a plain gazetteer. Each is made here alone, so no other function of this crate meets what it promises.
ghost use Rattle.std.specs.Prelude.{IsTrue, IsSome};
ghost use Rattle.gaz_plain.specs.Gazetteer.{is_one_line};

use gaz_num::{Day, Kind};
use gaz_page::{MemPages, PAGE, PageFault, Pages, Side};
use gaz_plain::{PlainFault, PlainGaz};
use gaz_rows::{AskFault, RowStore, StepFault, empty_root};
use gaz_scan::Scan;
use std::alloc::Global;

/// A store over pages in memory.
pub type Store = RowStore<MemPages>;

/// Room for a line.
pub type Room = [u8; 65535];

/// A store without a line.
pub fn empty(fails: Vec<u64>, day: Day) -> Result<Store, AskFault> {
    let mut pages = MemPages::new(fails);
    match empty_root(&mut pages, Side::Left, day) {
        Ok(root) => Ok(RowStore::over(pages, root)),
        Err(fault) => Err(fault),
    }
}

pub fn step(alloc: Global, store: &mut Store, kind: Kind, line: &[u8]) -> Result<(), StepFault>
    requires { IsTrue (is_one_line line.now) }
{
    store.step(alloc, kind, line)
}

pub fn plain_step(plain: &mut PlainGaz, kind: Kind, line: &[u8]) -> Result<(), PlainFault>
    requires dated { IsSome plain.old.date }
    requires one_line { IsTrue (is_one_line line.now) }
{
    plain.step(kind, line)
}

pub fn row(store: &mut Store, id: u32, room: &mut Room) -> Result<Option<usize>, AskFault> {
    store.get_row(id, room)
}

pub fn alternate(store: &mut Store, id: u32, room: &mut Room) -> Result<Option<usize>, AskFault> {
    store.get_alt(id, room)
}

pub fn country(store: &mut Store, code: &[u8], room: &mut Room) -> Result<Option<usize>, AskFault> {
    store.get_country(code, room)
}

pub fn code(store: &mut Store, code: &[u8], room: &mut Room) -> Result<Option<usize>, AskFault> {
    store.get_code(code, room)
}

/// The scan of the keys from one to another.
pub fn scan(store: &Store, low: [u8; 32], high: [u8; 32]) -> Scan {
    store.scan(low, high)
}

/// The next key of a scan, with its value.
pub fn next(store: &mut Store, scan: &mut Scan) -> Result<Option<([u8; 32], u64)>, AskFault> {
    store.next(scan)
}

pub fn line_at(store: &mut Store, place: u64, room: &mut Room) -> Result<usize, AskFault> {
    store.line_at(place, room)
}

pub fn write(pages: &mut MemPages, page: u32, bytes: &[u8; PAGE]) -> Result<(), PageFault> {
    pages.write(page, bytes)
}

/// Copies a page.
pub fn copy(pages: &mut MemPages, page: u32, copy: &mut [u8; PAGE]) -> Result<(), PageFault> {
    match pages.read(page) {
        Ok(bytes) => {
            copy.copy_from_slice(bytes);
            Ok(())
        }
        Err(fault) => Err(fault),
    }
}
