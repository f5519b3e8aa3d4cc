//! What a mirror answers, as a text.
use crate::device::Device;
use crate::mirrors::opened;
use crate::stopped::{Stopped, Wrong, had};
use crate::worked::ASKED;
use gaz_framed::Framed;
use gaz_num::write_date;
use gaz_page::{Pages, Root};
use gaz_pages::{LivePages, Mirror};
use gaz_rows::RowStore;
use std::alloc::Global;

/// The most bytes of a line.
const LONGEST: usize = 65_535;

/// What one asks a store for.
#[derive(Clone, Copy)]
pub enum Asked {
    Row(u32),
    Alternate(u32),
    Country(&'static str),
    Code(&'static str),
}

/// The answer in the front of the buffer, with its size.
fn answer<P: Pages>(
    store: &mut RowStore<P>,
    asked: Asked,
    buf: &mut [u8],
) -> Result<Option<usize>, Stopped> {
    if buf.len() < LONGEST {
        return Err(Stopped::Memory);
    }
    let given = match asked {
        Asked::Row(id) => store.get_row(id, buf),
        Asked::Alternate(id) => store.get_alt(id, buf),
        Asked::Country(code) => store.get_country(code.as_bytes(), buf),
        Asked::Code(code) => store.get_code(code.as_bytes(), buf),
    };
    match given {
        Ok(found) => Ok(found),
        Err(fault) => Err(Stopped::Asked(fault)),
    }
}

/// Tells the front of the buffer of this size as a line.
fn tell_line(buf: &[u8], size: usize, out: &mut Vec<u8>) -> Result<(), Stopped> {
    let Some(line) = buf.get(..size) else {
        return Err(Stopped::Wrong(Wrong::Lines));
    };
    had(out.extend_from_slice(line))?;
    had(out.push(b'\n'))
}

/// Tells an answer, and a dash where there is none.
fn tell<P: Pages>(
    store: &mut RowStore<P>,
    asked: Asked,
    buf: &mut [u8],
    out: &mut Vec<u8>,
) -> Result<(), Stopped> {
    match answer(store, asked, buf)? {
        Some(size) => tell_line(buf, size, out),
        None => had(out.extend_from_slice(b"-\n")),
    }
}

fn tell_asked<P: Pages>(
    store: &mut RowStore<P>,
    asked: &[Asked],
    buf: &mut [u8],
    out: &mut Vec<u8>,
) -> Result<(), Stopped> {
    for one in asked {
        tell(store, *one, buf, out)?;
    }
    Ok(())
}

fn tell_rows<P: Pages>(
    store: &mut RowStore<P>,
    rows: u32,
    buf: &mut [u8],
    out: &mut Vec<u8>,
) -> Result<(), Stopped> {
    for id in 1..=rows {
        tell(store, Asked::Row(id), buf, out)?;
    }
    Ok(())
}

/// Tells the links by their children. A key of a link begins with 3, and its value is the place of the line.
fn tell_links<P: Pages>(
    store: &mut RowStore<P>,
    buf: &mut [u8],
    out: &mut Vec<u8>,
) -> Result<(), Stopped> {
    let mut low = [0; 32];
    let mut high = [255; 32];
    low[0] = 3;
    high[0] = 3;
    let mut scan = store.scan(low, high);
    for _turn in 0..1000u32 {
        let place = match store.next(&mut scan) {
            Ok(Some((_, place))) => place,
            Ok(None) => return Ok(()),
            Err(fault) => return Err(Stopped::Asked(fault)),
        };
        tell_place(store, place, buf, out)?;
    }
    Err(Stopped::Wrong(Wrong::Lines))
}

/// Tells the line at a place.
fn tell_place<P: Pages>(
    store: &mut RowStore<P>,
    place: u64,
    buf: &mut [u8],
    out: &mut Vec<u8>,
) -> Result<(), Stopped> {
    if buf.len() < LONGEST {
        return Err(Stopped::Memory);
    }
    match store.line_at(place, buf) {
        Ok(size) => tell_line(buf, size, out),
        Err(fault) => Err(Stopped::Asked(fault)),
    }
}

/// Tells what a root says of the gazetteer: its date, and how many lines each table has.
fn tell_root(alloc: Global, root: &Root, out: &mut Vec<u8>) -> Result<(), Stopped> {
    had(out.extend_from_slice(&write_date(root.day)))?;
    let counts = root.counts;
    let text = had(format!(in alloc;
        ": {} rows, {} alternates, {} links, {} countries, {} codes\n",
        counts.rows, counts.alternates, counts.links, counts.countries, counts.codes
    ))?;
    had(out.extend_from_slice(text.as_bytes()))
}

/// Tells all answers of the store: the rows with the ids from 1 to this, the lines of `ASKED`, and the links.
fn tell_all<P: Pages>(
    store: &mut RowStore<P>,
    rows: u32,
    buf: &mut [u8],
    out: &mut Vec<u8>,
) -> Result<(), Stopped> {
    tell_rows(store, rows, buf, out)?;
    tell_asked(store, ASKED, buf, out)?;
    tell_links(store, buf, out)
}

/// All that a mirror answers: the root's date and counts, the rows with the ids from 1 to this, the lines of `ASKED`, and the links.
pub fn answers(
    alloc: Global,
    mirror: &Mirror,
    device: &mut Framed<Device>,
    rows: u32,
) -> Result<Vec<u8>, Stopped> {
    let mut out = Vec::new(alloc);
    let Some(root) = mirror.root() else {
        had(out.extend_from_slice(b"nothing is loaded\n"))?;
        return Ok(out);
    };
    tell_root(alloc, &root, &mut out)?;
    let mut buf = had(vec![in alloc; 0; LONGEST])?;
    let pages = LivePages::new(device, root);
    let mut store = RowStore::over(pages, root);
    tell_all(&mut store, rows, &mut buf, &mut out)?;
    Ok(out)
}

/// All that the mirror of a device answers, once it is opened.
pub fn answers_on(
    alloc: Global,
    device: &mut Framed<Device>,
    rows: u32,
) -> Result<Vec<u8>, Stopped> {
    match opened(device) {
        Ok(mirror) => answers(alloc, &mirror, device, rows),
        Err(stopped) => Err(stopped),
    }
}
