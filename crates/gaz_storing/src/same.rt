//! The answers of a store beside those of a plain gazetteer.
use crate::both::Both;
use crate::calls::{Room, Store, alternate, code, country, line_at, next, row, scan};
use crate::lines::{CODES, COUNTRIES, IDS, id_of};
use crate::stopped::{Stopped, asked, check};
use gaz_num::{Table, field};
use gaz_page::LineCounts;
use gaz_plain::{Lines, PlainGaz};
use gaz_rows::AskFault;
use gaz_scan::Scan;

/// Codes that no line has, nearly those that some have.
const OTHERS: [&str; 8] = [
    "",
    "xa",
    "XA\0",
    "XABCD",
    "Q\0\0",
    "ABCDEFGHIJKLMNOPQRSTUVX",
    "ABCDEFGHIJKLMNOPQRSTUVW\0",
    "ABCDEFGHIJKLMNOPQRSTUVW3",
];

/// The keys of a store: how many there are, and a digest of all in their order.
#[derive(Clone, Copy)]
pub struct Keys {
    pub count: u64,
    pub digest: u64,
}

/// Whether a store answered this line, or none.
fn answered(
    found: Result<Option<usize>, AskFault>,
    room: &Room,
    wanted: Option<&[u8]>,
    what: &'static str,
) -> Result<(), Stopped> {
    match asked(found)? {
        Some(size) => check(wanted.is_some() && room.get(..size) == wanted, what),
        None => check(wanted.is_none(), what),
    }
}

/// The one of these lines whose first column is the text.
fn line_of<'a>(lines: Lines<'a>, text: &[u8]) -> Option<&'a [u8]> {
    for line in lines {
        if field(line, 0) == Some(text) {
            return Some(line);
        }
    }
    None
}

/// The alternate name with an id.
fn plain_alternate(plain: &PlainGaz, id: u32) -> Option<&[u8]> {
    let mut digits = itoa::Buffer::new();
    line_of(plain.lines(Table::Alternates), digits.format(id).as_bytes())
}

/// Whether the row with an id is the same.
fn same_row(plain: &PlainGaz, store: &mut Store, id: u32, room: &mut Room) -> Result<(), Stopped> {
    let found = row(store, id, room);
    answered(found, room, plain.get(id), "a row")
}

/// Whether the alternate name with an id is the same.
fn same_alternate(
    plain: &PlainGaz,
    store: &mut Store,
    id: u32,
    room: &mut Room,
) -> Result<(), Stopped> {
    let found = alternate(store, id, room);
    answered(found, room, plain_alternate(plain, id), "an alternate name")
}

/// Whether each row and each alternate name is the same, or there is none in either.
fn same_ids(plain: &PlainGaz, store: &mut Store, room: &mut Room) -> Result<(), Stopped> {
    for n in 0..IDS {
        let id = id_of(n);
        same_row(plain, store, id, room)?;
        same_alternate(plain, store, id, room)?;
    }
    Ok(())
}

/// Whether the country with a code is the same.
fn same_country(
    plain: &PlainGaz,
    store: &mut Store,
    text: &[u8],
    room: &mut Room,
) -> Result<(), Stopped> {
    let found = country(store, text, room);
    answered(
        found,
        room,
        line_of(plain.lines(Table::Countries), text),
        "a country",
    )
}

/// Whether the admin code is the same.
fn same_code(
    plain: &PlainGaz,
    store: &mut Store,
    text: &[u8],
    room: &mut Room,
) -> Result<(), Stopped> {
    let found = code(store, text, room);
    answered(found, room, plain.admin(text), "an admin code")
}

/// Whether the lines of these codes are the same, or there is none in either.
fn same_codes(
    plain: &PlainGaz,
    store: &mut Store,
    codes: &[&str],
    room: &mut Room,
) -> Result<(), Stopped> {
    for text in codes.iter() {
        same_country(plain, store, text.as_bytes(), room)?;
        same_code(plain, store, text.as_bytes(), room)?;
    }
    Ok(())
}

/// A scan of the keys with a tag.
pub fn with_tag(store: &Store, tag: u8) -> Scan {
    let mut low = [0; 32];
    let mut high = [255; 32];
    low[0] = tag;
    high[0] = tag;
    scan(store, low, high)
}

/// A scan of all keys.
pub fn of_all(store: &Store) -> Scan {
    scan(store, [0; 32], [255; 32])
}

/// Whether the next key leads to this line.
fn leads_to(
    store: &mut Store,
    scan: &mut Scan,
    line: &[u8],
    room: &mut Room,
) -> Result<(), Stopped> {
    let Some(found) = asked(next(store, scan))? else {
        return Err(Stopped::Wrong("a line without a key"));
    };
    let size = asked(line_at(store, found.1, room))?;
    check(room.get(..size) == Some(line), "the line of a key")
}

/// Whether the keys with a tag lead to these lines, one after another.
fn same_lines(
    lines: Lines<'_>,
    store: &mut Store,
    tag: u8,
    room: &mut Room,
) -> Result<(), Stopped> {
    let mut scan = with_tag(store, tag);
    for line in lines {
        leads_to(store, &mut scan, line, room)?;
    }
    let more = asked(next(store, &mut scan))?;
    check(more.is_none(), "a key without a line")
}

/// Whether the root counts the lines of each table.
fn same_counts(plain: &PlainGaz, counts: &LineCounts) -> Result<(), Stopped> {
    let rows = counts.rows == plain.count(Table::Rows);
    let alternates = counts.alternates == plain.count(Table::Alternates);
    let links = counts.links == plain.count(Table::Links);
    let countries = counts.countries == plain.count(Table::Countries);
    let codes = counts.codes == plain.count(Table::Codes);
    check(
        rows && alternates && links && countries && codes,
        "the counts of the root",
    )
}

/// A digest with the bytes of a key (FNV-1a).
fn with_key(digest: u64, key: &[u8; 32]) -> u64 {
    let mut mixed = digest;
    for byte in key.iter() {
        mixed = (mixed ^ u64::from(*byte)).wrapping_mul(1_099_511_628_211);
    }
    mixed
}

/// Whether the value of a key may be this: only some are the places of lines.
fn may_be(tag: u8, value: u64) -> bool {
    value == 0 || matches!(tag, 1 | 2 | 3 | 5 | 6)
}

/// All keys; those that lead to no line have the value 0.
pub fn all_keys(store: &mut Store) -> Result<Keys, Stopped> {
    let mut scan = of_all(store);
    let mut count: u64 = 0;
    let mut digest: u64 = 14_695_981_039_346_656_037;
    for _ in 0..1_000_000 {
        let Some(found) = asked(next(store, &mut scan))? else {
            return Ok(Keys { count, digest });
        };
        let (key, value) = found;
        check(may_be(key[0], value), "the value of a key")?;
        count = count.wrapping_add(1);
        digest = with_key(digest, &key);
    }
    Err(Stopped::Wrong("keys without end"))
}

/// Whether the codes that there are, and others, have the same lines.
fn same_texts(plain: &PlainGaz, store: &mut Store, room: &mut Room) -> Result<(), Stopped> {
    same_codes(plain, store, &COUNTRIES, room)?;
    same_codes(plain, store, &CODES, room)?;
    same_codes(plain, store, &OTHERS, room)
}

/// Whether the keys lead to the lines of all tables but the admin codes, whose keys have another order.
fn same_tables(plain: &PlainGaz, store: &mut Store, room: &mut Room) -> Result<(), Stopped> {
    same_lines(plain.lines(Table::Rows), store, 1, room)?;
    same_lines(plain.lines(Table::Alternates), store, 2, room)?;
    same_lines(plain.lines(Table::Links), store, 3, room)?;
    same_lines(plain.lines(Table::Countries), store, 5, room)
}

/// Whether both have the same answers. The keys of the store.
pub fn same(both: &mut Both, room: &mut Room) -> Result<Keys, Stopped> {
    let plain = &both.plain;
    let store = &mut both.store;
    same_counts(plain, &store.root().counts)?;
    same_ids(plain, store, room)?;
    same_texts(plain, store, room)?;
    same_tables(plain, store, room)?;
    all_keys(store)
}
