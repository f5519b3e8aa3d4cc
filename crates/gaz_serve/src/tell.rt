//! Replies: what is told of a change, of a line, and of rows.
ghost use Rattle.std.specs.Prelude.{◌≡◌, ◌≢◌, ◌+◌, ◌*◌, ◌<◌, ◌≤◌, ◌^◌, length, map, option_to_list, option_copied, ◌∷◌, [], Ok, Err, IsTrue, IsSome, IfOk, IfErr, OnOk};
ghost use Rattle.gaz_pages.specs.Fits.{Fits};
ghost use Rattle.gaz_pages.specs.Held.{root_of};
ghost use Rattle.gaz_plain.specs.Kin.{rows_with};
ghost use Rattle.gaz_outside.specs.Outside.{HasCause, Prints};
ghost use Rattle.gaz_reply.specs.Reply.{done, refused, rows, with_ends, end_line, refusal_of as refusal_in};
ghost use Rattle.gaz_turns.specs.Steps.{AreasKept, IsCutIn};
ghost use Rattle.gaz_rows.specs.Store.{TakesNoMemory};
ghost use Rattle.gaz_ask.specs.Asked.{OverMirror};
ghost use Rattle.gaz_serve.specs.Change.{told_by};
ghost use Rattle.gaz_serve.specs.Step.{EndsOnce, IsSound, Replies, Reports};
ghost use Rattle.gaz_serve.specs.Tell.{ends_by, IsPrinted, TellsRest};

use crate::step::EndFault;
use gaz_ask::get_row;
use gaz_framed::PagedStation;
use gaz_outside::{Failed, Station};
use gaz_pages::Mirror;
use gaz_reply::{Done, Refusal, write_done, write_end, write_refusal, write_row};
use gaz_rows::{AskFault, ChangeFault};

/// How a run ends with a question that came to nothing.
pub(crate) fn end_of(fault: AskFault) -> EndFault
    requires { TakesNoMemory fault }
    ensures { result ≡ ends_by fault }
{
    match fault {
        AskFault::Failed => EndFault::Station,
        AskFault::Damaged(page) => EndFault::Damaged(page),
        AskFault::Memory => unreachable!(),
    }
}

/// What is printed of a change that is refused, or why the run ends there.
fn refusal_of(fault: ChangeFault) -> Result<Refusal<'static>, EndFault>
    ensures told { IfOk result (λ why. told_by fault ≡ Ok (refusal_in why)) }
    ensures ends { IfErr result (λ why. told_by fault ≡ Err why) }
{
    match fault {
        ChangeFault::NotLoaded => Ok(Refusal::NotLoaded),
        ChangeFault::Sequence(have) => Ok(Refusal::Sequence(have)),
        ChangeFault::Absent(file) => Ok(Refusal::Absent(file)),
        ChangeFault::Shelf(file) => Ok(Refusal::Shelf(file)),
        ChangeFault::TooLong(file) => Ok(Refusal::TooLong(file)),
        ChangeFault::Malformed(file, line, reason) => Ok(Refusal::Malformed(file, line, reason)),
        ChangeFault::Full(file, line, table) => Ok(Refusal::Full(file, line, table)),
        ChangeFault::Memory => Ok(Refusal::Memory),
        ChangeFault::Station => Err(EndFault::Station),
        ChangeFault::Damaged(page) => Err(EndFault::Damaged(page)),
    }
}

/// Prints a refusal.
pub(crate) fn refuse<T: Station>(station: &mut T, why: &Refusal<'_>) -> Result<(), EndFault>
    ensures replies { Replies (refused (refusal_in why.now)) (T.view station.old) (T.view station.new) result }
    ensures sound { IsSound result }
    ensures unread { (T.view station.new).reads ≡ (T.view station.old).reads }
    ensures reports { Reports (T.view station.old) (T.view station.new) result }
{
    match write_refusal(station, why) {
        Ok(()) => Ok(()),
        Err(Failed) => Err(EndFault::Station),
    }
}

/// Tells what a change came to: that it was made, or why it was refused; or nothing is called, and the run ends there.
pub(crate) fn tell_change<T: Station>(
    station: &mut T,
    change: Done,
    made: Result<(), ChangeFault>,
) -> Result<(), EndFault>
    ensures made { OnOk made (Replies (done change) (T.view station.old) (T.view station.new) result) }
    ensures refused { IfErr made (λ fault. IfOk (told_by fault) (λ why. Replies (refused why) (T.view station.old) (T.view station.new) result)) }
    ensures ends { IfErr made (λ fault. IfErr (told_by fault) (λ why. (station.new ≡ station.old) × (result ≡ Err why))) }
    ensures sound { OnOk made (IsSound result) }
    ensures sound_refused { IfErr made (λ fault. IfOk (told_by fault) (λ why. IsSound result)) }
    ensures cause { OnOk made (EndsOnce (T.view station.old).faults (T.view station.new).faults result) }
    ensures cause_refused { IfErr made (λ fault. IfOk (told_by fault) (λ why. EndsOnce (T.view station.old).faults (T.view station.new).faults result)) }
    ensures unwritten { (T.view station.new).writes ≡ (T.view station.old).writes }
    ensures told { (T.view station.new).is_told ≡ (T.view station.old).is_told }
{
    match made {
        Ok(()) => match write_done(station, change) {
            Ok(()) => Ok(()),
            Err(Failed) => Err(EndFault::Station),
        },
        Err(fault) => match refusal_of(fault) {
            Ok(why) => refuse(station, &why),
            Err(end) => Err(end),
        },
    }
}

/// Prints the line that was found, if there is one, and the number of lines.
pub(crate) fn write_found<T: Station>(station: &mut T, line: Option<&[u8]>) -> Result<(), Failed>
    ensures replies { IsPrinted (rows (option_to_list (option_copied line.entry))) (T.view station.old) (T.view station.new) result }
    ensures told { (T.view station.new).is_told ≡ (T.view station.old).is_told }
    ensures cause { HasCause (T.view station.old).faults (T.view station.new).faults result }
{
    match line {
        Some(line) => match write_row(station, line) {
            Ok(()) => write_end(station, 1),
            Err(failed) => Err(failed),
        },
        None => write_end(station, 0),
    }
}

/// Tells the line that was found, if there is one.
pub(crate) fn tell_found<T: Station>(station: &mut T, line: Option<&[u8]>) -> Result<(), EndFault>
    ensures replies { Replies (rows (option_to_list (option_copied line.entry))) (T.view station.old) (T.view station.new) result }
    ensures sound { IsSound result }
    ensures unread { (T.view station.new).reads ≡ (T.view station.old).reads }
    ensures reports { Reports (T.view station.old) (T.view station.new) result }
{
    match write_found(station, line) {
        Ok(()) => Ok(()),
        Err(Failed) => Err(EndFault::Station),
    }
}

/// What names a row by its id: the id itself, or a pair of the row's population and its id.
pub(crate) trait OfRow {
    ghost use Rattle.std.specs.Prelude.{◌≡◌, ℕ};

    ghost names: { Self → ℕ };

    fn id(&self) -> u32
        ensures { result ≡ names self.now };
}

impl OfRow for u32 {
    ghost names = { λ id. id };

    fn id(&self) -> u32 {
        *self
    }
}

impl OfRow for (i64, u32) {
    ghost names = { λ pair. pair.1 };

    fn id(&self) -> u32 {
        self.1
    }
}

/// Prints the rows with these ids, behind so many that were printed, and then the number of all. It calls itself once for each id,
/// and no question tells more than 1,000. A row is read before it is printed: where it can't be, the rows before it stand in the text.
pub(crate) fn tell_rows<T: PagedStation, I: OfRow>(
    mirror: &Mirror,
    station: &mut T,
    buf: &mut [u8],
    rows: &[I],
    told: u64,
) -> Result<(), EndFault>
    requires few { told + length rows.now < 2 ^ 64 }
    requires loaded { IsSome (root_of mirror.now) }
    requires fits { IsTrue (T.view station.old).is_told → Fits (root_of mirror.now) (T.view station.old) }
    requires room { 65535 ≤ length buf.old }
    ensures tells { TellsRest told (λ gaz. rows_with gaz (map I.names rows.now)) (T.view station.old) (T.view station.new) result }
    ensures size { length buf.new ≡ length buf.old }
    // At most 23 pages for each row.
    ensures reads { OverMirror (T.view station.old) (λ gaz. (T.view station.new).reads ≤ (T.view station.old).reads + 23 * length rows.now) }
    ensures reports { Reports (T.view station.old) (T.view station.new) result }
{
    match rows {
        [first, rest @ ..] => match get_row(mirror, station, first.id(), buf) {
            Ok(Some(size)) => match write_row(station, &buf[..size]) {
                Ok(()) => tell_rows(mirror, station, buf, rest, told + 1),
                Err(Failed) => Err(EndFault::Station),
            },
            Ok(None) => tell_rows(mirror, station, buf, rest, told),
            Err(fault) => Err(end_of(fault)),
        },
        [] => tell_end(station, told),
    }
}

/// Prints the number of lines.
fn tell_end<T: Station>(station: &mut T, told: u64) -> Result<(), EndFault>
    ensures printed { Prints (with_ends (end_line told ∷ [])) (T.view station.old) (T.view station.new) result }
    ensures moments { IsCutIn (with_ends (end_line told ∷ [])) (T.view station.old) (T.view station.new) }
    ensures areas { AreasKept (T.view station.old) (T.view station.new) }
    ensures sound { IsSound result }
    ensures unread { (T.view station.new).reads ≡ (T.view station.old).reads }
    ensures reports { Reports (T.view station.old) (T.view station.new) result }
{
    match write_end(station, told) {
        Ok(()) => Ok(()),
        Err(Failed) => Err(EndFault::Station),
    }
}
