//! One request is one step: it is read, met, and its reply is printed.
ghost use Rattle.std.specs.Prelude.{List, Ok, IsTrue, IfSome, OnOk};
ghost use Rattle.gaz_outside.specs.Outside.{files_of};
ghost use Rattle.gaz_num.specs.declared.words.FileName.{FileName};
ghost use Rattle.gaz_rows.specs.Content.{Mirrors};
ghost use Rattle.gaz_words.specs.Grammar.{asked_of, request_in, IsWithinLimits};
ghost use Rattle.gaz_turns.specs.Turns.{State, opens};
ghost use Rattle.gaz_ask.specs.Asked.{OverMirror};
ghost use Rattle.gaz_serve.specs.Bounds.{ReadsWithin, WritesWithin, most_read, most_read_by, most_written, most_written_by};
ghost use Rattle.gaz_serve.specs.Change.{Closes};
ghost use Rattle.gaz_serve.specs.Session.{IsOpen, dated_state};
ghost use Rattle.gaz_serve.specs.Step.{Lasts, Meets, OneStep, Reports, TellsShelf};

use crate::session::Session;
use crate::tell::refuse;
use gaz_framed::PagedStation;
use gaz_outside::Shelf;
use gaz_reply::Refusal;
use gaz_words::{Request, read_request};

/// Why a session ends with a request.
#[derive(Clone, Copy, Debug, PartialEq, Eq)]
pub enum EndFault {
    /// The station failed.
    Station,
    /// This page isn't what it has to be.
    Damaged(u32),
}

/// Answers a request that was read.
fn answer_request<F: Shelf, T: PagedStation>(
    session: &mut Session,
    shelf: &mut F,
    station: &mut T,
    request: &Request<'_>,
) -> Result<(), EndFault>
    requires open { IsOpen session.old (T.view station.old) }
    requires within { IsWithinLimits (asked_of request.now) }
    ensures step { IsTrue (T.view station.old).is_told → IfSome (files_of (F.view shelf.new)) (λ files. (state : State) → Mirrors (T.view station.old).bytes state.gaz
        → Meets files (asked_of request.now) state (F.view shelf.old) (F.view shelf.new) (T.view station.old) (T.view station.new) result) }
    ensures tells { TellsShelf (F.view shelf.old) (F.view shelf.new) (T.view station.old) (T.view station.new) result }
    ensures lasts { Lasts (T.view station.old) (T.view station.new) result }
    ensures open { OnOk result (IsOpen session.new (T.view station.new)) }
    ensures closes { Closes (opens (dated_state session.old) (Ok (asked_of request.now))) (F.view shelf.old) (F.view shelf.new) }
    ensures reads { OverMirror (T.view station.old) (λ gaz. ReadsWithin (most_read gaz (asked_of request.now)) (T.view station.old) (T.view station.new)) }
    ensures writes { IfSome (files_of (F.view shelf.new)) (λ files. WritesWithin (most_written files (asked_of request.now)) (T.view station.old) (T.view station.new)) }
    ensures reports { Reports (T.view station.old) (T.view station.new) result }
{
    match request {
        Request::Load(date) => session.load(shelf, station, *date),
        Request::Day(date) => session.day(shelf, station, *date),
        Request::Get(id) => session.tell_place(station, *id),
        Request::Search(query) => session.tell_search(station, query),
        Request::Children(id, max) => session.tell_children(station, *id, *max),
        Request::Hierarchy(id) => session.tell_chain(station, *id),
        Request::Admin(code) => session.tell_code(station, code),
    }
}

/// Answers one request line, given without its LF: a load or a day that is accepted is committed, and then the reply is printed.
/// After `Station` and `Damaged` a front of the reply was printed, and the session is at its end.
pub fn answer<F: Shelf, T: PagedStation>(
    session: &mut Session,
    shelf: &mut F,
    station: &mut T,
    line: &[u8],
) -> Result<(), EndFault>
    requires open { IsOpen session.old (T.view station.old) }

    // Over a shelf and a station that tell what they have: one step of a legal run, from the state that the areas mirror, with
    // the files that the shelf has behind it.
    ensures step { IsTrue (T.view station.old).is_told → IsTrue (F.view shelf.old).is_told → (state : State) → Mirrors (T.view station.old).bytes state.gaz
        → OneStep line.now state (F.view shelf.old) (F.view shelf.new) (T.view station.old) (T.view station.new) result }

    // Over any shelf: damage is met only where the areas mirror no gazetteer, and after `Ok` they mirror one where they did.
    ensures lasts { Lasts (T.view station.old) (T.view station.new) result }

    // Over any shelf: the reply says whether it failed, and at which file. No file is open that wasn't.
    ensures tells { TellsShelf (F.view shelf.old) (F.view shelf.new) (T.view station.old) (T.view station.new) result }
    ensures closes { (names : List FileName) × Closes names (F.view shelf.old) (F.view shelf.new) }

    // Where the areas mirror a gazetteer, a question reads no more pages than its bound over it, and a line that the grammar refuses none.
    ensures reads { OverMirror (T.view station.old) (λ gaz. ReadsWithin (most_read_by gaz (request_in line.now)) (T.view station.old) (T.view station.new)) }

    // A day writes no more pages than its lines may, and a question none.
    ensures writes { IfSome (files_of (F.view shelf.new)) (λ files. WritesWithin (most_written_by files (request_in line.now)) (T.view station.old) (T.view station.new)) }

    // After `Ok` the session has open what the areas mirror then.
    ensures open { OnOk result (IsOpen session.new (T.view station.new)) }
    ensures reports { Reports (T.view station.old) (T.view station.new) result }
{
    match read_request(line) {
        Ok(request) => answer_request(session, shelf, station, &request),
        Err(bad) => refuse(station, &Refusal::Request(bad.word())),
    }
}
