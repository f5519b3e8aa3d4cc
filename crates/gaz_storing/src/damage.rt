//! Damaged pages: each call ends, by an answer or by damage.
use crate::both::{empty_store, step_store};
use crate::calls::{Room, Store, alternate, code, copy, country, line_at, next, row, write};
use crate::draws::Draws;
use crate::lines::{CODES, COUNTRIES, IDS, Made, id_of, make};
use crate::same::of_all;
use crate::stopped::{Stopped, check, printed};
use gaz_page::{MemPages, PAGE, Pages};
use gaz_rows::{AskFault, RowStore, StepFault};
use std::alloc::Global;
use std::io::Print;

/// How many lines the store has seen.
const LINES: u32 = 300;

/// Makes a line and steps it. Whether the answer is damage.
fn step_one(
    alloc: Global,
    store: &mut Store,
    draws: &mut Draws,
    made: &mut Made,
) -> Result<bool, Stopped> {
    make(draws, made)?;
    match step_store(alloc, store, made.kind, &made.line) {
        Ok(_) => Ok(false),
        Err(Stopped::Step(StepFault::Damaged(_))) => Ok(true),
        Err(other) => Err(other),
    }
}

/// Steps so many lines at random. How many are answered by damage.
fn step_many(
    alloc: Global,
    store: &mut Store,
    made: &mut Made,
    seed: u64,
    many: u32,
) -> Result<u64, Stopped> {
    made.clear();
    let mut draws = Draws::from(seed);
    let mut damaged: u64 = 0;
    for _ in 0..many {
        if step_one(alloc, store, &mut draws, made)? {
            damaged = damaged.wrapping_add(1);
        }
    }
    Ok(damaged)
}

/// A store of lines at random.
fn small_store(alloc: Global, made: &mut Made) -> Result<Store, Stopped> {
    let mut store = empty_store(Vec::new(alloc))?;
    let damaged = step_many(alloc, &mut store, made, 5, LINES)?;
    check(damaged == 0, "damage of a page that is whole")?;
    Ok(store)
}

/// A page of zeros, of 255s, or a copy of another page than this one.
fn other_page(
    pages: &mut MemPages,
    page: u32,
    form: u32,
    bytes: &mut [u8; PAGE],
) -> Result<(), Stopped> {
    if form < 2 {
        bytes.fill(if form == 0 { 0 } else { 255 });
        return Ok(());
    }
    let other = page % pages.fresh().saturating_sub(1).max(1);
    match copy(pages, other.saturating_add(1), bytes) {
        Ok(()) => Ok(()),
        Err(_) => Err(Stopped::Wrong("a page")),
    }
}

/// Writes such a page over this one.
fn overwrite(pages: &mut MemPages, page: u32, form: u32) -> Result<(), Stopped> {
    let mut bytes = [0; PAGE];
    match other_page(pages, page, form, &mut bytes) {
        Ok(()) => {}
        Err(stopped) => return Err(stopped),
    }
    match write(pages, page, &bytes) {
        Ok(()) => Ok(()),
        Err(_) => Err(Stopped::Wrong("a write")),
    }
}

/// One where a question is answered by damage, and none where by an answer.
fn damage<T: Drop>(given: Result<T, AskFault>) -> Result<u64, Stopped> {
    match given {
        Ok(_) => Ok(0),
        Err(AskFault::Damaged(_)) => Ok(1),
        Err(fault) => Err(Stopped::Ask(fault)),
    }
}

/// How many of the questions for ids are answered by damage.
fn ask_ids(store: &mut Store, room: &mut Room) -> Result<u64, Stopped> {
    let mut damaged: u64 = 0;
    for n in 0..IDS {
        let id = id_of(n);
        damaged = damaged.wrapping_add(damage(row(store, id, room))?);
        damaged = damaged.wrapping_add(damage(alternate(store, id, room))?);
    }
    Ok(damaged)
}

/// How many of the questions for codes are answered by damage.
fn ask_codes(store: &mut Store, codes: &[&str], room: &mut Room) -> Result<u64, Stopped> {
    let mut damaged: u64 = 0;
    for text in codes.iter() {
        damaged = damaged.wrapping_add(damage(country(store, text.as_bytes(), room))?);
        damaged = damaged.wrapping_add(damage(code(store, text.as_bytes(), room))?);
    }
    Ok(damaged)
}

/// Goes over all keys, and to the line at the value of each. One where it comes to damage.
fn ask_keys(store: &mut Store, room: &mut Room) -> Result<u64, Stopped> {
    let mut scan = of_all(store);
    let mut damaged: u64 = 0;
    for _ in 0..10_000 {
        match next(store, &mut scan) {
            Ok(Some(found)) => {
                damaged = damage(line_at(store, found.1, room))?.max(damaged);
            }
            Ok(None) => return Ok(damaged),
            Err(fault) => return damage::<()>(Err(fault)),
        }
    }
    Ok(1)
}

/// All calls over a store. How many were answered by damage.
fn ask_and_step(
    alloc: Global,
    store: &mut Store,
    made: &mut Made,
    room: &mut Room,
) -> Result<u64, Stopped> {
    let ids = ask_ids(store, room)?;
    let countries = ask_codes(store, &COUNTRIES, room)?;
    let codes = ask_codes(store, &CODES, room)?;
    let keys = ask_keys(store, room)?;
    let steps = step_many(alloc, store, made, 6, 100)?;
    Ok(
        ids.wrapping_add(countries)
            .wrapping_add(codes)
            .wrapping_add(keys)
            .wrapping_add(steps),
    )
}

/// The store with another page in place of this one.
fn with_other(store: Store, page: u32, form: u32) -> Result<Store, Stopped> {
    let root = *store.root();
    let mut pages = store.into_pages();
    match overwrite(&mut pages, page, form) {
        Ok(()) => Ok(RowStore::over(pages, root)),
        Err(stopped) => Err(stopped),
    }
}

/// All calls over a store of which one page is another. How many were answered by damage.
fn one_page(
    alloc: Global,
    page: u32,
    form: u32,
    made: &mut Made,
    room: &mut Room,
) -> Result<u64, Stopped> {
    let mut store = with_other(small_store(alloc, made)?, page, form)?;
    ask_and_step(alloc, &mut store, made, room)
}

/// The least page that a small store has never taken.
fn count_pages(alloc: Global, made: &mut Made) -> Result<u32, Stopped> {
    let store = small_store(alloc, made)?;
    let height = store.root().height;
    let fresh = store.into_pages().fresh();
    check(height == 2 && fresh > 8, "a tree with an inner page")?;
    Ok(fresh)
}

/// Each page of a small store in turn is zeros, then 255s, then another page. How many calls were answered by damage.
fn all_pages(alloc: Global, made: &mut Made, room: &mut Room) -> Result<u64, Stopped> {
    let fresh = count_pages(alloc, made)?;
    let mut damaged: u64 = 0;
    for page in 1..fresh {
        for form in 0..3 {
            damaged = damaged.wrapping_add(one_page(alloc, page, form, made, room)?);
        }
    }
    Ok(damaged)
}

/// Each page.
pub fn each_page(rt: &impl Print, alloc: Global, room: &mut Room) -> Result<(), Stopped> {
    let mut made = Made::nothing(alloc);
    let damaged = all_pages(alloc, &mut made, room)?;
    check(damaged > 300, "few answers of damage")?;
    printed(println!(rt;
        "each page in turn zeros, 255s and another page: each call ended, by an answer or by damage"
    ))
}
