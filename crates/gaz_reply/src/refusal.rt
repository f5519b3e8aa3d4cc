//! Refusals.
ghost use Rattle.std.specs.Prelude.{◌≡◌, ◌≤◌, ◌+◌, ◌++◌, ◌∷◌, [], codes, decimal, length};
ghost use Rattle.gaz_outside.specs.Outside.{HasCause, Prints};
ghost use Rattle.gaz_outside.specs.Station.{AreasStay};
ghost use Rattle.gaz_num.specs.Words.{file_text};
ghost use Rattle.gaz_reply.specs.Line.{text_of};
ghost use Rattle.gaz_reply.specs.Reply.{reply_text, refused, refusal_of};
ghost use Rattle.gaz_reply.specs.Tells.{MayBeCut};

use crate::line::Line;
use crate::reply::{print_dated, print_two};
use gaz_num::{Day, FileName, Reason, Table, write_file_name};
use gaz_outside::{Failed, Station};
use itoa::Buffer;

/// Why a request is refused.
#[derive(Clone, Copy, Debug)]
pub enum Refusal<'a> {
    /// The grammar refuses the line, with its first bad word.
    Request(&'a str),
    /// No load was accepted yet.
    NotLoaded,
    /// The date isn't the one after this, the gazetteer's.
    Sequence(Day),
    /// The shelf has no such file.
    Absent(FileName),
    /// The shelf failed at this file.
    Shelf(FileName),
    /// The file has more bytes than it may.
    TooLong(FileName),
    /// A line of the file fails its check: its number and the first reason.
    Malformed(FileName, u64, Reason),
    /// After the line with this number the table would pass its limit.
    Full(FileName, u64, Table),
    /// Memory ran out.
    Memory,
}

/// Prints the refusal of a request line with its bad word.
fn print_bad_word<T: Station>(station: &mut T, word: &str) -> Result<(), Failed>
    ensures printed { Prints (codes "refused request " ++ word.now ++ codes "\n") (T.view station.old) (T.view station.new) result }
    ensures moments { MayBeCut (codes "refused request " ++ word.now ++ codes "\n") (T.view station.old) (T.view station.new) }
    ensures told { (T.view station.new).is_told ≡ (T.view station.old).is_told }
    ensures areas { AreasStay (T.view station.old) (T.view station.new) }
    ensures cause { HasCause (T.view station.old).faults (T.view station.new).faults result }
{
    match print_two(station, b"refused request ", word.as_bytes()) {
        Ok(()) => station.print(b"\n"),
        Err(failed) => Err(failed),
    }
}

/// Puts the name of a file into the line.
fn push_file(line: &mut Line, file: FileName)
    requires { length (text_of line.old) ≤ 32 }
    ensures text { text_of line.new ≡ text_of line.old ++ file_text file }
    ensures size { length (text_of line.new) ≤ length (text_of line.old) + 48 }
{
    let mut name = [0; 48];
    let size = write_file_name(file, &mut name);
    line.push(&name[..size]);
}

/// Prints the refusal of a file.
fn print_file<T: Station>(station: &mut T, front: &[u8], file: FileName) -> Result<(), Failed>
    requires { length front.now ≤ 32 }
    ensures printed { Prints (front.now ++ file_text file ++ codes "\n") (T.view station.old) (T.view station.new) result }
    ensures moments { MayBeCut (front.now ++ file_text file ++ codes "\n") (T.view station.old) (T.view station.new) }
    ensures told { (T.view station.new).is_told ≡ (T.view station.old).is_told }
    ensures areas { AreasStay (T.view station.old) (T.view station.new) }
    ensures cause { HasCause (T.view station.old).faults (T.view station.new).faults result }
{
    let mut line = Line::new();
    line.push(front);
    push_file(&mut line, file);
    line.push(b"\n");
    station.print(line.text())
}

/// Prints the refusal of a line of a file.
fn print_line<T: Station>(
    station: &mut T,
    front: &[u8],
    file: FileName,
    number: u64,
    word: &str,
) -> Result<(), Failed>
    requires front { length front.now ≤ 32 }
    requires word { length word.now ≤ 16 }
    ensures printed { Prints (front.now ++ file_text file ++ codes " " ++ decimal number ++ codes " " ++ word.now ++ codes "\n") (T.view station.old) (T.view station.new) result }
    ensures moments { MayBeCut (front.now ++ file_text file ++ codes " " ++ decimal number ++ codes " " ++ word.now ++ codes "\n") (T.view station.old) (T.view station.new) }
    ensures told { (T.view station.new).is_told ≡ (T.view station.old).is_told }
    ensures areas { AreasStay (T.view station.old) (T.view station.new) }
    ensures cause { HasCause (T.view station.old).faults (T.view station.new).faults result }
{
    let mut buffer = Buffer::new();
    let mut line = Line::new();
    line.push(front);
    push_file(&mut line, file);
    line.push(b" ");
    line.push(buffer.format(number).as_bytes());
    line.push(b" ");
    line.push(word.as_bytes());
    line.push(b"\n");
    station.print(line.text())
}

/// Prints why a request is refused.
pub fn write_refusal<T: Station>(station: &mut T, refusal: &Refusal<'_>) -> Result<(), Failed>
    ensures printed { Prints (reply_text (refused (refusal_of refusal.now))) (T.view station.old) (T.view station.new) result }
    ensures moments { MayBeCut (reply_text (refused (refusal_of refusal.now))) (T.view station.old) (T.view station.new) }
    ensures told { (T.view station.new).is_told ≡ (T.view station.old).is_told }
    ensures areas { AreasStay (T.view station.old) (T.view station.new) }
    ensures cause { HasCause (T.view station.old).faults (T.view station.new).faults result }
{
    match *refusal {
        Refusal::Request(word) => print_bad_word(station, word),
        Refusal::NotLoaded => station.print(b"refused notloaded\n"),
        Refusal::Sequence(have) => print_dated(station, b"refused sequence ", have),
        Refusal::Absent(file) => print_file(station, b"refused absent ", file),
        Refusal::Shelf(file) => print_file(station, b"refused shelf ", file),
        Refusal::TooLong(file) => print_file(station, b"refused toolong ", file),
        Refusal::Malformed(file, number, reason) => {
            print_line(station, b"refused malformed ", file, number, reason.text())
        }
        Refusal::Full(file, number, table) => {
            print_line(station, b"refused full ", file, number, table.text())
        }
        Refusal::Memory => station.print(b"refused memory\n"),
    }
}
