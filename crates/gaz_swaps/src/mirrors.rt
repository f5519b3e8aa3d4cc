//! A mirror is opened and changed, over a station that tells nothing.
ghost use Rattle.std.specs.Prelude.{◌≡◌, ◌^◌, IsFalse, IfOk, IfSome};
ghost use Rattle.gaz_lines.specs.Cutter.{line_limit_of, file_limit_of};
ghost use Rattle.gaz_page.specs.TreeRoot.{FitsRoot};

use crate::device::{Device, framed};
use crate::stopped::{Stopped, Wrong};
use gaz_day::apply;
use gaz_framed::PagedStation;
use gaz_lines::LineCutter;
use gaz_load::load;
use gaz_num::Day;
use gaz_outside::{Area, Failed, Shelf, Station};
use gaz_page::{PAGE, Root, read_root};
use gaz_pages::Mirror;
use gaz_redo::{Recovered, RedoFault, recover};
use gaz_rows::ChangeFault;
use std::alloc::Global;

/// The most bytes of a line.
const LINE_LIMIT: u32 = 65_535;

/// The most bytes of a file.
const FILE_LIMIT: u64 = 1 << 40;

#[derive(Clone, Copy)]
pub enum Request {
    Load(Day),
    Day(Day),
}

/// What the root page of a station says, and none where it has none.
fn root_on<T: Station>(station: &mut T) -> Result<Option<Root>, Stopped>
    ensures told { (T.view station.new).is_told ≡ (T.view station.old).is_told }
    ensures fits { IfOk result (λ root. IfSome root FitsRoot) }
{
    let mut page = [0; PAGE];
    match station.read_at(Area::Root, 0, &mut page) {
        Ok(n) if n < PAGE => Ok(None),
        Ok(_) => match read_root(&page) {
            Some(root) => Ok(Some(root)),
            None => Err(Stopped::Wrong(Wrong::Root)),
        },
        Err(Failed) => Err(Stopped::Station),
    }
}

/// Finishes a commit that was under way.
fn recovered<T: Station>(station: &mut T) -> Result<(), Stopped>
    requires { IsFalse (T.view station.old).is_told }
    ensures { (T.view station.new).is_told ≡ (T.view station.old).is_told }
{
    match recover(station) {
        Ok(Recovered::NotALog) => Err(Stopped::Wrong(Wrong::Log)),
        Ok(_) => Ok(()),
        Err(RedoFault::Failed) => Err(Stopped::Station),
    }
}

/// Recovers a station, and makes the mirror of its root page.
pub fn opened<T: Station>(station: &mut T) -> Result<Mirror, Stopped>
    requires { IsFalse (T.view station.old).is_told }
    ensures { (T.view station.new).is_told ≡ (T.view station.old).is_told }
{
    recovered(station)?;
    let root = root_on(station)?;
    Ok(Mirror::of(root))
}

/// Opens the mirror of a device, and gives the device back without frames, so that the call that fails can be set.
pub fn opened_bare(alloc: Global, device: Device) -> Result<(Mirror, Device), Stopped> {
    let mut framed = framed(alloc, device)?;
    let mirror = opened(&mut framed)?;
    Ok((mirror, framed.into_station()))
}

/// The cutter of a change.
fn cutter_of(alloc: Global) -> Result<LineCutter, Stopped>
    ensures line_limit { IfOk result (λ cutter. line_limit_of cutter ≡ 65535) }
    ensures file_limit { IfOk result (λ cutter. file_limit_of cutter ≡ 2 ^ 40) }
{
    match LineCutter::new(alloc, LINE_LIMIT, FILE_LIMIT) {
        Ok(cutter) => Ok(cutter),
        Err(_) => Err(Stopped::Memory),
    }
}

/// What a load answers.
fn load_answers<F: Shelf, T: PagedStation>(
    alloc: Global,
    mirror: &mut Mirror,
    shelf: &mut F,
    station: &mut T,
    date: Day,
) -> Result<Result<(), ChangeFault>, Stopped>
    requires { IsFalse (T.view station.old).is_told }
{
    let mut cutter = cutter_of(alloc)?;
    Ok(load(alloc, mirror, shelf, station, &mut cutter, date))
}

/// What a day answers.
fn day_answers<F: Shelf, T: PagedStation>(
    alloc: Global,
    mirror: &mut Mirror,
    shelf: &mut F,
    station: &mut T,
    date: Day,
) -> Result<Result<(), ChangeFault>, Stopped>
    requires { IsFalse (T.view station.old).is_told }
{
    let mut cutter = cutter_of(alloc)?;
    Ok(apply(alloc, mirror, shelf, station, &mut cutter, date))
}

/// What the request's call answers.
pub fn change_answers<F: Shelf, T: PagedStation>(
    alloc: Global,
    mirror: &mut Mirror,
    shelf: &mut F,
    station: &mut T,
    request: Request,
) -> Result<Result<(), ChangeFault>, Stopped>
    requires { IsFalse (T.view station.old).is_told }
{
    match request {
        Request::Load(date) => load_answers(alloc, mirror, shelf, station, date),
        Request::Day(date) => day_answers(alloc, mirror, shelf, station, date),
    }
}

/// What a change comes to.
#[derive(Clone, Copy)]
pub enum Outcome {
    Made,
    /// A call of the station failed.
    Station,
    Refused,
}

fn outcome_of(answer: Result<Result<(), ChangeFault>, Stopped>) -> Result<Outcome, Stopped> {
    match answer {
        Ok(Ok(())) => Ok(Outcome::Made),
        Ok(Err(ChangeFault::Station)) => Ok(Outcome::Station),
        Ok(Err(_)) => Ok(Outcome::Refused),
        Err(stopped) => Err(stopped),
    }
}

/// What the request comes to.
pub fn change<F: Shelf, T: PagedStation>(
    alloc: Global,
    mirror: &mut Mirror,
    shelf: &mut F,
    station: &mut T,
    request: Request,
) -> Result<Outcome, Stopped>
    requires { IsFalse (T.view station.old).is_told }
{
    outcome_of(change_answers(alloc, mirror, shelf, station, request))
}
