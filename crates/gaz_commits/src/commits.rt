//! Commits of made pages.
ghost use Rattle.std.specs.Prelude.{◌≡◌, ◌*◌, IsFalse, IfOk};

use gaz_outside::{Area, Station};
use gaz_redo::{Home, Images, RedoFault, commit, recover};
use std::alloc::{AllocError, Global};

/// Why no more was committed.
#[derive(Drop)]
pub enum Stopped {
    /// Memory ran out.
    Memory,
    /// A call on the station failed.
    Station,
}

/// As many pages of Left from page 1 on, each full of the byte.
fn made_pages(alloc: Global, pages: u32, byte: u8) -> Result<Images, AllocError> {
    let mut images = Images::new(alloc);
    for page in 0..pages {
        let home = Home {
            area: Area::Left,
            page,
        };
        images.set(home, &[byte; 4096])?;
    }
    Ok(images)
}

/// Recovers, commits so many pages so many times, and answers how many pages were committed in all.
pub fn commit_times<T: Station>(
    alloc: Global,
    station: &mut T,
    times: u32,
    pages: u32,
) -> Result<u64, Stopped>
    requires { IsFalse (T.view station.old).is_told }
{
    if let Err(RedoFault::Failed) = recover(station) {
        return Err(Stopped::Station);
    }
    let mut count: u64 = 0;
    for time in 0..times {
        let images = match made_pages(alloc, pages, (time % 256) as u8) {
            Ok(images) => images,
            Err(AllocError) => return Err(Stopped::Memory),
        };
        match commit(station, &images) {
            Ok(()) => count = count.saturating_add(pages as u64),
            Err(RedoFault::Failed) => return Err(Stopped::Station),
        }
    }
    Ok(count)
}
