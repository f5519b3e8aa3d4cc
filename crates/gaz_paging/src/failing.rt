//! Each call of the pages fails in turn: the call that makes it answers so, and no other does.
use crate::pattern::{buffer, id_key};
use crate::records::{is_there, put_made};
use crate::replaced::replace_made;
use crate::stopped::{Stopped, check, had, must, printed};
use gaz_heap::drop_record;
use gaz_page::{MemPages, PageFault};
use gaz_tree::Tree;
use std::alloc::Global;
use std::io::Print;

/// Puts two records, reads them, puts one in place of another and drops them.
fn two_records(pages: &mut MemPages, wanted: &mut [u8], buf: &mut [u8]) -> Result<(), Stopped> {
    let mut current = 0;
    let short = put_made(pages, &mut current, 1, 100, buf)?;
    let long = put_made(pages, &mut current, 2, 9000, buf)?;
    check(
        is_there(pages, short, 1, 100, wanted, buf)?,
        "the short record",
    )?;
    check(
        is_there(pages, long, 2, 9000, wanted, buf)?,
        "the long record",
    )?;
    check(
        replace_made(pages, short, 3, 100, buf)?,
        "a record in place of another",
    )?;
    must(drop_record(pages, &mut current, long))?;
    must(drop_record(pages, &mut current, short))
}

/// Whether a run ended by a call that failed.
fn failed(run: Result<(), Stopped>) -> Result<bool, Stopped> {
    match run {
        Ok(()) => Ok(false),
        Err(Stopped::Pages(PageFault::Failed)) => Ok(true),
        Err(other) => Err(other),
    }
}

/// The calls of the two records fail in turn.
pub fn each_call(rt: &impl Print, alloc: Global) -> Result<(), Stopped> {
    let mut wanted = buffer(alloc)?;
    let mut buf = buffer(alloc)?;
    let mut calls: u64 = 0;
    for number in 1..1000 {
        let mut pages = MemPages::new(had(vec![in alloc; number; 1])?);
        if !failed(two_records(&mut pages, &mut wanted, &mut buf))? {
            break;
        }
        check(pages.calls() == number, "a call after the one that failed")?;
        calls = number;
    }
    printed(println!(rt;
        "two records put, read, replaced and dropped: each of {calls} calls failed in turn"
    ))
}

/// Puts 103 keys, reads one, and takes 60 out.
fn some_keys(pages: &mut MemPages) -> Result<(), Stopped> {
    let mut tree = must(Tree::empty(pages))?;
    for id in 0..103 {
        must(tree.put(pages, &id_key(id), 7))?;
    }
    check(must(tree.get(pages, &id_key(50)))? == Some(7), "a key")?;
    for id in 0..60 {
        check(
            must(tree.remove(pages, &id_key(id)))?,
            "a key that is taken out",
        )?;
    }
    check(tree.height == 1, "a tree of 43 keys")
}

/// The calls of a tree fail in turn, every seventh one.
pub fn each_call_of_a_tree(rt: &impl Print, alloc: Global) -> Result<(), Stopped> {
    let mut runs: u64 = 0;
    for turn in 0..1000u64 {
        let number = 1 + 7 * turn;
        let mut pages = MemPages::new(had(vec![in alloc; number; 1])?);
        if !failed(some_keys(&mut pages))? {
            break;
        }
        check(pages.calls() == number, "a call after the one that failed")?;
        runs = turn;
    }
    check(runs > 40, "few calls")?;
    printed(println!(rt; "a tree put and taken out: every seventh call failed in turn"))
}
