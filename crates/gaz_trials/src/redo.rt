//! Commits and recoveries over stations in memory. Each function answers what a test compares as plain values, owns the stations
//! and promises nothing, so that a test's proof meets none of the clauses behind it and drops nothing at its many ends.
ghost use Rattle.std.specs.Prelude.{◌≡◌, false};
ghost use Rattle.gaz_outside.specs.declared.station.Area.TheVariants.{Mark};
ghost use Rattle.gaz_redo.specs.Content.{is_open};
ghost use Rattle.gaz_redo.specs.Recovered.{AllStable};

use gaz_outside::{Area, MemStation, Station, write_and_sync};
use gaz_redo::{Home, Images, Recovered, RedoFault, commit, recover};
use std::alloc::{AllocError, Global};

/// A stop of a station: of its unsynced writes so many stand whole, and the range of the next is filled with a byte. On the
/// station that it leaves, calls fail from so many on.
#[derive(Clone, Copy)]
pub(crate) struct Stop {
    pub(crate) keep: u64,
    pub(crate) fill: u8,
    pub(crate) calls: u64,
}

/// How many writes a stop keeps, and the byte with which it fills the range of the next.
pub(crate) const STOPS: [(u64, u8); 9] = [
    (0, 0),
    (0, 1),
    (0, 255),
    (1, 0),
    (1, 1),
    (1, 255),
    (2, 0),
    (2, 1),
    (2, 255),
];

/// A stop after which no call fails.
pub(crate) fn stop_of(keep: u64, fill: u8) -> Stop {
    Stop {
        keep,
        fill,
        calls: u64::MAX,
    }
}

/// A page full of this byte.
fn page_of(byte: u8) -> [u8; 4096] {
    [byte; 4096]
}

/// Puts a page of Left, full of this byte, among the images.
fn set_left(images: &mut Images, page: u32, byte: u8) -> Result<(), AllocError> {
    let home = Home {
        area: Area::Left,
        page,
    };
    images.set(home, &page_of(byte))
}

/// Puts a page of Right, full of this byte, among the images.
fn set_right(images: &mut Images, page: u32, byte: u8) -> Result<(), AllocError> {
    let home = Home {
        area: Area::Right,
        page,
    };
    images.set(home, &page_of(byte))
}

/// The home of the root page.
const ROOT: Home = Home {
    area: Area::Root,
    page: 0,
};

/// A page of `aa` for Root, and one of `bb` for page 0 of Left.
fn two_pages(alloc: Global) -> Result<Images, AllocError> {
    let mut images = Images::new(alloc);
    set_left(&mut images, 0, 0xbb)?;
    images.set(ROOT, &page_of(0xaa))?;
    Ok(images)
}

/// Pages 0 to 39 of Left, each full of its number, and two pages of Right.
fn many_pages(alloc: Global) -> Result<Images, AllocError> {
    let mut images = Images::new(alloc);
    for page in 0..40u8 {
        set_left(&mut images, page as u32, page)?;
    }
    for page in 0..2 {
        set_right(&mut images, page, 0xdd)?;
    }
    Ok(images)
}

/// Pages 3, 4 and 30 of Left.
fn three_pages(alloc: Global) -> Result<Images, AllocError> {
    let mut images = Images::new(alloc);
    for page in &[3, 4, 30] {
        set_left(&mut images, *page, 0xee)?;
    }
    Ok(images)
}

/// Each page of the area is full of one byte: the one that stands there in this list.
fn has_pages(station: &MemStation, area: Area, bytes: &[u8]) -> bool {
    let pages = station.area(area);
    pages.len() % 4096 == 0
        && pages.len() / 4096 == bytes.len()
        && pages
            .chunks(4096)
            .zip(bytes)
            .all(|(page, byte)| page.iter().all(|it| it == byte))
}

/// Both pages, or nothing.
#[derive(Clone, Copy, Debug, PartialEq)]
pub(crate) enum Held {
    Both,
    Nothing,
    Part,
}

/// What of the two pages stands in Root and Left.
fn what_stands(station: &MemStation) -> Held {
    if has_pages(station, Area::Root, &[0xaa]) && has_pages(station, Area::Left, &[0xbb]) {
        Held::Both
    } else if station.area(Area::Root).is_empty() && station.area(Area::Left).is_empty() {
        Held::Nothing
    } else {
        Held::Part
    }
}

/// What a recovery answered.
pub(crate) type Answer = Result<Recovered, RedoFault>;

/// What a commit over an empty station left there.
#[derive(Clone, Copy, Debug, PartialEq)]
pub(crate) struct Committed {
    pub(crate) is_done: bool,
    pub(crate) held: Held,
    /// Bytes of the log.
    pub(crate) log: usize,
    pub(crate) gate: Option<u8>,
}

/// An empty station that is stopped after so many calls of a commit, and whether that ended well.
fn stopped_commit(alloc: Global, images: &Images, calls: u64) -> (MemStation, bool) {
    let mut station = MemStation::new(alloc, Vec::new(alloc));
    station.stop_after(calls);
    let is_done = commit(&mut station, images).is_ok();
    (station, is_done)
}

/// A commit of the two pages that isn't stopped.
pub(crate) fn whole_commit(alloc: Global) -> Result<Committed, AllocError> {
    let images = two_pages(alloc)?;
    let (station, is_done) = stopped_commit(alloc, &images, u64::MAX);
    Ok(Committed {
        is_done,
        held: what_stands(&station),
        log: station.area(Area::Log).len(),
        gate: station.area(Area::Mark).first().copied(),
    })
}

/// From so many calls on every call fails.
fn fail_from(station: &mut MemStation, calls: u64)
    requires { AllStable (⟦<MemStation as Station>⟧.view station.old) }
    ensures stable { AllStable (⟦<MemStation as Station>⟧.view station.new) }
    ensures bytes { (⟦<MemStation as Station>⟧.view station.new).bytes Mark ≡ (⟦<MemStation as Station>⟧.view station.old).bytes Mark }
{
    station.stop_after(calls);
}

/// What a stop leaves of a station, recovered, and what the recovery answered.
fn recovered(station: &MemStation, after: Stop) -> Result<(MemStation, Answer), AllocError> {
    let mut left = station.after_stop(after.keep, after.fill)?;
    fail_from(&mut left, after.calls);
    let answer = recover(&mut left);
    Ok((left, answer))
}

/// A station after one stop and recovery after another, with the last answer.
fn recovered_after(
    station: MemStation,
    stops: &[Stop],
) -> Result<(MemStation, Option<Answer>), AllocError> {
    let mut station = station;
    let mut last = None;
    for after in stops {
        let (left, answer) = recovered(&station, *after)?;
        station = left;
        last = Some(answer);
    }
    Ok((station, last))
}

/// A commit of the two pages is stopped after so many calls, and then come stops, each with its recovery: the last answer, and
/// what stands then.
pub(crate) fn after_stops(
    alloc: Global,
    calls: u64,
    stops: &[Stop],
) -> Result<(Option<Answer>, Held), AllocError> {
    let (station, _) = stopped_commit(alloc, &two_pages(alloc)?, calls);
    let (left, answer) = recovered_after(station, stops)?;
    Ok((answer, what_stands(&left)))
}

/// Whether a commit of the two pages ends well in so many calls.
pub(crate) fn ends_in(alloc: Global, calls: u64) -> Result<bool, AllocError> {
    Ok(stopped_commit(alloc, &two_pages(alloc)?, calls).1)
}

/// How many calls the recovery makes after a commit of the two pages was stopped so.
pub(crate) fn calls_to_recover(
    alloc: Global,
    calls: u64,
    after: Stop,
) -> Result<Option<u64>, AllocError> {
    let (station, _) = stopped_commit(alloc, &two_pages(alloc)?, calls);
    for calls in 0..100 {
        if recovered(&station, Stop { calls, ..after })?.1.is_ok() {
            return Ok(Some(calls));
        }
    }
    Ok(None)
}

/// How many calls a commit over an empty station makes: with so many before a stop it ends well.
fn calls_to_commit(alloc: Global, images: &Images) -> Option<u64> {
    for calls in 0..100 {
        if stopped_commit(alloc, images, calls).1 {
            return Some(calls);
        }
    }
    None
}

/// How many calls a commit makes of two pages, and how many of forty-two.
pub(crate) fn calls_to_commit_each(
    alloc: Global,
) -> Result<(Option<u64>, Option<u64>), AllocError> {
    let two = calls_to_commit(alloc, &two_pages(alloc)?);
    let many = calls_to_commit(alloc, &many_pages(alloc)?);
    Ok((two, many))
}

/// This call of a commit of the two pages fails. Whether it ended well, the answer of the recovery, and what stands then.
pub(crate) fn after_failed_commit(
    alloc: Global,
    call: u64,
) -> Result<(bool, Answer, Held), AllocError> {
    let images = two_pages(alloc)?;
    let mut fails = Vec::new(alloc);
    fails.push(call)?;
    let mut station = MemStation::new(alloc, fails);
    let is_done = commit(&mut station, &images).is_ok();
    let (after, answer) = recovered(&station, stop_of(0, 255))?;
    Ok((is_done, answer, what_stands(&after)))
}

/// Left's pages after the second commit, and before it.
#[derive(Clone, Copy, Debug, PartialEq)]
pub(crate) enum Version {
    Old,
    New,
    Neither,
}

/// Pages 3, 4 and 30 are those of the second commit or of the first, and all others those of the first.
fn version_of(station: &MemStation) -> Version {
    let mut pages = [0; 40];
    for page in 0..40u8 {
        pages[page as usize] = page;
    }
    if !has_pages(station, Area::Right, &[0xdd, 0xdd]) {
        return Version::Neither;
    }
    if has_pages(station, Area::Left, &pages) {
        return Version::Old;
    }
    (pages[3], pages[4], pages[30]) = (0xee, 0xee, 0xee);
    if has_pages(station, Area::Left, &pages) {
        Version::New
    } else {
        Version::Neither
    }
}

/// A commit of forty-two pages, and then one of three, which is stopped after so many calls: whether that one ended well.
fn stopped_second_commit(
    alloc: Global,
    calls: u64,
) -> Result<Option<(MemStation, bool)>, AllocError> {
    let (first, second) = (many_pages(alloc)?, three_pages(alloc)?);
    let mut station = MemStation::new(alloc, Vec::new(alloc));
    match commit(&mut station, &first) {
        Ok(()) => {}
        Err(RedoFault::Failed) => return Ok(None),
    }
    fail_from(&mut station, calls);
    let is_done = commit(&mut station, &second).is_ok();
    Ok(Some((station, is_done)))
}

/// Whether such a second commit ended well, whether the recovery after the stop did, and which pages stand then.
pub(crate) fn after_second_commit(
    alloc: Global,
    calls: u64,
    after: Stop,
) -> Result<Option<(bool, bool, Version)>, AllocError> {
    let Some((station, is_done)) = stopped_second_commit(alloc, calls)? else {
        return Ok(None);
    };
    let (left, answer) = recovered(&station, after)?;
    Ok(Some((is_done, answer.is_ok(), version_of(&left))))
}

/// A log with slots for these areas and pages, which says that it has so many. Each page is full of `cc`.
fn log_of(alloc: Global, count: u8, homes: &[(u8, u8)]) -> Result<Vec<u8>, AllocError> {
    let mut log = Vec::from_elem(alloc, 0, 16)?;
    if let Some(place) = log.get_mut(7) {
        *place = count;
    }
    for &(area, page) in homes {
        let mut head = [0; 16];
        head[0] = area;
        head[7] = page;
        log.extend_from_slice(&head)?;
        log.extend_from_slice(&page_of(0xcc))?;
    }
    Ok(log)
}

/// What a recovery answers over an open gate and this log.
fn recovered_log(alloc: Global, log: &[u8]) -> Result<Answer, AllocError> {
    let mut station = MemStation::new(alloc, Vec::new(alloc));
    let _ = station.write_at(Area::Mark, 0, &[1]);
    let _ = station.write_at(Area::Log, 0, log);
    let mut opened = station.after_stop(2, 0)?;
    Ok(recover(&mut opened))
}

/// What a recovery answers over an open gate and a log of such slots.
pub(crate) fn recovered_slots(
    alloc: Global,
    count: u8,
    homes: &[(u8, u8)],
) -> Result<Answer, AllocError> {
    recovered_log(alloc, &log_of(alloc, count, homes)?)
}

/// What it answers over an open gate and a log of no byte.
pub(crate) fn recovered_nothing(alloc: Global) -> Result<Answer, AllocError> {
    recovered_log(alloc, b"")
}

/// A station with an open gate over this log on which this call of a recovery fails, and whether the recovery ended well.
/// Its first four calls make it so.
fn failed_recovery(
    alloc: Global,
    log: &[u8],
    call: u64,
) -> Result<Option<(MemStation, bool)>, AllocError> {
    let mut fails = Vec::new(alloc);
    fails.push(call.saturating_add(4))?;
    let mut station = MemStation::new(alloc, fails);
    if write_and_sync(&mut station, Area::Mark, 0, &[1]).is_err() {
        return Ok(None);
    }
    if write_and_sync(&mut station, Area::Log, 0, log).is_err() {
        return Ok(None);
    }
    let is_done = recover(&mut station).is_ok();
    Ok(Some((station, is_done)))
}

/// Over a log of a page for Root and one for Left this call of the recovery fails. Whether it ended well, whether both pages
/// stand after a stop and a recovery more, and what one more than that answers.
pub(crate) fn after_failed_recovery(
    alloc: Global,
    call: u64,
) -> Result<Option<(bool, bool, Answer)>, AllocError> {
    let log = log_of(alloc, 2, &[(2, 0), (3, 0)])?;
    let Some((station, is_done)) = failed_recovery(alloc, &log, call)? else {
        return Ok(None);
    };
    let (after, _) = recovered(&station, stop_of(0, 255))?;
    let has_both = has_pages(&after, Area::Root, &[0xcc]) && has_pages(&after, Area::Left, &[0xcc]);
    let (_, answer) = recovered(&after, stop_of(0, 255))?;
    Ok(Some((is_done, has_both, answer)))
}
