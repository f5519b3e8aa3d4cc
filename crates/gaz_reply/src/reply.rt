//! Lines and acknowledgements.
ghost use Rattle.std.specs.Prelude.{◌≡◌, ◌≤◌, ◌++◌, ◌∷◌, [], codes, length};
ghost use Rattle.gaz_outside.specs.Outside.{HasCause, Prints};
ghost use Rattle.gaz_outside.specs.Station.{AreasStay};
ghost use Rattle.gaz_num.specs.Dates.{date_text};
ghost use Rattle.gaz_reply.specs.Reply.{reply_text, with_ends, end_line, done};
ghost use Rattle.gaz_reply.specs.Tells.{MayBeCut};

use crate::line::Line;
use gaz_num::{Day, write_date};
use gaz_outside::{Failed, Station};
use itoa::Buffer;

/// A change that was made.
#[derive(Clone, Copy, Debug, PartialEq, Eq)]
pub enum Done {
    /// A load of this date.
    Load(Day),
    /// The day of this date.
    Day(Day),
}

/// Prints one piece behind the other.
pub(crate) fn print_two<T: Station>(
    station: &mut T,
    first: &[u8],
    second: &[u8],
) -> Result<(), Failed>
    ensures printed { Prints (first.now ++ second.now) (T.view station.old) (T.view station.new) result }
    ensures moments { MayBeCut (first.now ++ second.now) (T.view station.old) (T.view station.new) }
    ensures told { (T.view station.new).is_told ≡ (T.view station.old).is_told }
    ensures areas { AreasStay (T.view station.old) (T.view station.new) }
    ensures cause { HasCause (T.view station.old).faults (T.view station.new).faults result }
{
    match station.print(first) {
        Ok(()) => station.print(second),
        Err(failed) => Err(failed),
    }
}

/// Prints a line that ends with a date, in one piece.
pub(crate) fn print_dated<T: Station>(
    station: &mut T,
    front: &[u8],
    date: Day,
) -> Result<(), Failed>
    requires { length front.now ≤ 32 }
    ensures printed { Prints (front.now ++ date_text date ++ codes "\n") (T.view station.old) (T.view station.new) result }
    ensures moments { MayBeCut (front.now ++ date_text date ++ codes "\n") (T.view station.old) (T.view station.new) }
    ensures told { (T.view station.new).is_told ≡ (T.view station.old).is_told }
    ensures areas { AreasStay (T.view station.old) (T.view station.new) }
    ensures cause { HasCause (T.view station.old).faults (T.view station.new).faults result }
{
    let mut line = Line::new();
    line.push(front);
    line.push(&write_date(date));
    line.push(b"\n");
    station.print(line.text())
}

/// Prints a stored line, which holds no LF, and an LF.
pub fn write_row<T: Station>(station: &mut T, line: &[u8]) -> Result<(), Failed>
    ensures printed { Prints (with_ends (line.now ∷ [])) (T.view station.old) (T.view station.new) result }
    ensures moments { MayBeCut (with_ends (line.now ∷ [])) (T.view station.old) (T.view station.new) }
    ensures told { (T.view station.new).is_told ≡ (T.view station.old).is_told }
    ensures areas { AreasStay (T.view station.old) (T.view station.new) }
    ensures cause { HasCause (T.view station.old).faults (T.view station.new).faults result }
{
    print_two(station, line, b"\n")
}

/// Prints `ok N`, with the number of lines that were told.
pub fn write_end<T: Station>(station: &mut T, rows: u64) -> Result<(), Failed>
    ensures printed { Prints (with_ends (end_line rows ∷ [])) (T.view station.old) (T.view station.new) result }
    ensures moments { MayBeCut (with_ends (end_line rows ∷ [])) (T.view station.old) (T.view station.new) }
    ensures told { (T.view station.new).is_told ≡ (T.view station.old).is_told }
    ensures areas { AreasStay (T.view station.old) (T.view station.new) }
    ensures cause { HasCause (T.view station.old).faults (T.view station.new).faults result }
{
    let mut buffer = Buffer::new();
    let mut line = Line::new();
    line.push(b"ok ");
    line.push(buffer.format(rows).as_bytes());
    line.push(b"\n");
    station.print(line.text())
}

/// Prints the line that acknowledges a change, in one piece.
pub fn write_done<T: Station>(station: &mut T, change: Done) -> Result<(), Failed>
    ensures printed { Prints (reply_text (done change)) (T.view station.old) (T.view station.new) result }
    ensures moments { MayBeCut (reply_text (done change)) (T.view station.old) (T.view station.new) }
    ensures told { (T.view station.new).is_told ≡ (T.view station.old).is_told }
    ensures areas { AreasStay (T.view station.old) (T.view station.new) }
    ensures cause { HasCause (T.view station.old).faults (T.view station.new).faults result }
{
    match change {
        Done::Load(date) => print_dated(station, b"ok load ", date),
        Done::Day(date) => print_dated(station, b"ok day ", date),
    }
}
