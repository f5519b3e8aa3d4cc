//! A run of requests, one line of the source after another.
ghost use Rattle.std.specs.Prelude.{◌≡◌, ◌≢◌, ◌⊎◌, ◌^◌, ◌∷◌, [], IsTrue, IfSome, codes, true};
ghost use Rattle.gaz_outside.specs.Outside.{HasCause, RisesOnce, SameNumbers, NoneOpen, left_of};
ghost use Rattle.gaz_num.specs.Pieces.{is_too_long};
ghost use Rattle.gaz_num.specs.Refusal.{request};
ghost use Rattle.gaz_lines.specs.Cutter.{line_limit_of, file_limit_of, IsFresh};
ghost use Rattle.gaz_plain.specs.Gazetteer.{Gazetteer};
ghost use Rattle.gaz_rows.specs.Content.{Mirrors};
ghost use Rattle.gaz_reply.specs.Reply.{refused};
ghost use Rattle.gaz_turns.specs.Turns.{State};
ghost use Rattle.gaz_serve.specs.Session.{IsOpen};
ghost use Rattle.gaz_serve.specs.Step.{Replies};
ghost use Rattle.gaz_serve.specs.Ran.{RunAnswersWithin, TellShelf};
ghost use Rattle.gaz_serve.specs.Serve.{Taken};

use crate::session::Session;
use crate::step::{EndFault, answer};
use gaz_framed::PagedStation;
use gaz_lines::{LineCutter, LineFault};
use gaz_outside::{Failed, Shelf, Source, Station};
use gaz_reply::{Refusal, write_refusal};
use gaz_words::BadRequest;

/// Answers a request line that is longer than the longest.
fn refuse_long<T: Station>(station: &mut T) -> Result<(), Failed>
    ensures replies { Replies (refused (request (codes "length"))) (T.view station.old) (T.view station.new) result }
    ensures unread { (T.view station.new).reads ≡ (T.view station.old).reads }
    ensures told { (T.view station.new).is_told ≡ (T.view station.old).is_told }
    ensures cause { HasCause (T.view station.old).faults (T.view station.new).faults result }
{
    write_refusal(station, &Refusal::Request(BadRequest::Length.word()))
}

/// Answers the lines of the source, one after another, and answers the status.
pub(crate) fn run<S: Source, F: Shelf, T: PagedStation>(
    session: &mut Session,
    source: &mut S,
    shelf: &mut F,
    station: &mut T,
    cutter: &mut LineCutter,
) -> u8
    requires open { IsOpen session.old (T.view station.old) }
    requires line_limit { line_limit_of cutter.old ≡ 4096 }
    requires file_limit { file_limit_of cutter.old ≡ 2 ^ 40 }
    requires fresh { IsFresh cutter.old }
    ensures answers { IsTrue (T.view station.old).is_told → IsTrue (F.view shelf.old).is_told → (first : State) → Mirrors (T.view station.old).bytes first.gaz
        → RunAnswersWithin first (left_of (S.view source.old)) (left_of (S.view source.new)) (F.view shelf.old) (F.view shelf.new) (T.view station.old) (T.view station.new) result }
    ensures failures { TellShelf (F.view shelf.old) (F.view shelf.new) (T.view station.old) (T.view station.new) result }
    ensures emptied { result ≡ 0 → IfSome (left_of (S.view source.new)) (λ bytes. bytes ≡ []) }
    ensures taken { Taken 65536 (left_of (S.view source.old)) (left_of (S.view source.new)) }
    ensures shelf_told { (F.view shelf.new).is_told ≡ (F.view shelf.old).is_told }
    ensures numbers { SameNumbers (F.view shelf.old) (F.view shelf.new) ⊎ NoneOpen (F.view shelf.new) }
    ensures station { result ≡ 3 → RisesOnce (T.view station.old).faults (T.view station.new).faults }
    ensures station_kept { result ≢ 3 → (T.view station.new).faults ≡ (T.view station.old).faults }
    ensures source { result ≡ 4 → RisesOnce (S.view source.old).faults (S.view source.new).faults }
    ensures source_kept { result ≢ 4 → (S.view source.new).faults ≡ (S.view source.old).faults }
    ensures past { result ≡ 7 → IfSome (left_of (S.view source.old)) (λ bytes. is_too_long bytes ≡ true) }
    ensures told { (T.view station.new).is_told ≡ (T.view station.old).is_told }
    ensures damaged { result ≡ 6 → IsTrue (T.view station.old).is_told → (gaz : Gazetteer) → Mirrors (T.view station.old).bytes gaz → ⊥ }
    ensures others { (result ≡ 0) ⊎ (result ≡ 3) ⊎ (result ≡ 4) ⊎ (result ≡ 6) ⊎ (result ≡ 7) }
{
    loop {
        match cutter.next_source(source) {
            Ok(Some(line)) => {
                match answer(session, shelf, station, line) {
                    Ok(()) => {}
                    Err(EndFault::Station) => return 3,
                    Err(EndFault::Damaged(_)) => return 6,
                }
            }
            Err(LineFault::TooLong(_)) => {
                if let Err(Failed) = refuse_long(station) {
                    return 3;
                }
            }
            Ok(None) => return 0,
            Err(LineFault::FileTooLong) => return 7,
            Err(LineFault::Failed) => return 4,
        }
    }
}
