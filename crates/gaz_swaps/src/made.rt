//! Made rows, and what a mirror answers of them.
use crate::stopped::{Stopped, had};
use std::alloc::Global;

/// The row with this id.
fn push_row(alloc: Global, id: u32, out: &mut String) -> Result<(), Stopped> {
    let text = had(format!(in alloc;
        "{}\tPlace {}\tPlace {}\t\t1.5\t{}\tP\tPPL\tAA\t\t01\t\t\t\t{}\t\t\t\t2024-02-01\n",
        id,
        id,
        id,
        id % 180,
        id
    ))?;
    had(out.push_str(&text))
}

/// The rows with the ids from the first to the last.
pub fn rows(alloc: Global, first: u32, last: u32) -> Result<String, Stopped> {
    let mut out = String::new(alloc);
    for id in first..=last {
        push_row(alloc, id, &mut out)?;
    }
    Ok(out)
}

/// The lines that delete these rows.
pub fn deletes(alloc: Global, first: u32, last: u32) -> Result<String, Stopped> {
    let mut out = String::new(alloc);
    for id in first..=last {
        had(out.push_str(&had(format!(in alloc; "{}\tPlace {}\tgone\n", id, id))?))?;
    }
    Ok(out)
}

/// As many dashes, each for a row that isn't there.
pub fn dashes(alloc: Global, many: u32) -> Result<String, Stopped> {
    let mut out = String::new(alloc);
    for _one in 0..many {
        had(out.push_str("-\n"))?;
    }
    Ok(out)
}
