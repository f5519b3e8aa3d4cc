//! A session: an open mirror, the buffer by which files are read, and the room for lines and for answers.
ghost use Rattle.std.specs.Prelude.{◌≡◌, ◌≤◌, ◌⊎◌, ◌∷◌, [], None, Ok, ◌&&◌, Some, is_some, IsTrue, IfOk, IfErr, IfSome, OnOk, option_to_list, option_map};
ghost use Rattle.gaz_outside.specs.Outside.{files_of};
ghost use Rattle.gaz_num.specs.Refusal.{memory};
ghost use Rattle.gaz_num.specs.declared.words.Table.TheVariants.{Rows, Codes};
ghost use Rattle.gaz_plain.specs.Gazetteer.{Gazetteer, line_with};
ghost use Rattle.gaz_pick.specs.Asked.{asked};
ghost use Rattle.gaz_plain.specs.Search.{search_of};
ghost use Rattle.gaz_plain.specs.Kin.{children_of, hierarchy_of};
ghost use Rattle.gaz_words.specs.Grammar.{IsLimited, asks_load, asks_day, asks_get, asks_search, asks_children, asks_chain, asks_admin};
ghost use Rattle.gaz_plain.specs.Load.{load_files, in_sequence};
ghost use Rattle.gaz_rows.specs.Content.{Mirrors};
ghost use Rattle.gaz_rows.specs.Holds.{AllHold};
ghost use Rattle.gaz_open.specs.Opens.{FailsOnce, IsNoMirror, IsOpening};
ghost use Rattle.gaz_open.specs.declared.fault.Place.{Place};
ghost use Rattle.gaz_reply.specs.Reply.{refused, rows};
ghost use Rattle.gaz_turns.specs.Turns.{State, AsksName, day_opens, if_loaded};
ghost use Rattle.gaz_ask.specs.Asked.{OverMirror};
ghost use Rattle.gaz_serve.specs.Bounds.{OpensReadsWithin, ReadsWithin, WritesWithin, most_read, most_written};
ghost use Rattle.gaz_serve.specs.Change.{Closes};
ghost use Rattle.gaz_serve.specs.Session.{IsOpen, state_of};
ghost use Rattle.gaz_serve.specs.Step.{Lasts, Meets, Reports, Tells, TellsShelf};

use crate::step::EndFault;
use crate::tell::{end_of, refuse, tell_change, tell_found, tell_rows};
use gaz_ask::{chain, children, get_code, get_row, search};
use gaz_day::apply;
use gaz_framed::PagedStation;
use gaz_lines::LineCutter;
use gaz_load::load;
use gaz_num::Day;
use gaz_open::{OpenFault, open};
use gaz_outside::Shelf;
use gaz_pages::Mirror;
use gaz_pick::{Best, Query};
use gaz_reply::{Done, Refusal};
use gaz_rows::AskFault;
use std::alloc::{AllocError, Global};
use std::marker::Model;

/// Bytes of the longest line of a file.
const LINE_LIMIT: u32 = 65_535;

/// Bytes of the longest file.
const FILE_LIMIT: u64 = 1 << 40;

/// Room for two lines: one that is told, and one that is looked at beside it.
const ROOM: usize = 131_070;

/// An open mirror between two requests, the buffer by which files are read, the room for lines, and that for the pairs of an answer.
#[derive(Drop)]
pub struct Session {
    alloc: Global,
    mirror: Mirror,
    cutter: LineCutter,
    best: Best,
    buf: Vec<u8>,
}

impl Model for Session {
    ghost use Rattle.std.specs.Prelude.{◌≡◌, ◌^◌, length};
    ghost use Rattle.gaz_lines.specs.Cutter.{line_limit_of, file_limit_of};
    ghost use Rattle.gaz_pages.specs.Held.{root_of};
    ghost use Rattle.gaz_serve.specs.Session.{SessionView};

    ghost Value = { SessionView };

    ghost view = { λ session. record { root = root_of session.mirror } };

    ghost invariant = { λ session. (line_limit_of session.cutter ≡ 65535) × (file_limit_of session.cutter ≡ 2 ^ 40) × (length session.buf.items ≡ 131070) };
}

impl Session {
    /// Opens the mirror: reserves the buffer for files and the room for answers, syncs the areas, recovers from a stop, reads the root page,
    /// and reserves so many frames, 8 to 65,536, by which pages are read. It prints nothing.
    pub fn start<T: PagedStation>(
        alloc: Global,
        station: &mut T,
        frames: u32,
    ) -> Result<Session, OpenFault>
        requires enough { 8 ≤ frames }
        requires few { frames ≤ 65536 }

        // The device fits the session's mirror. Nothing is pending then: all outcomes have what the areas mirrored before.
        ensures open { IfOk result (λ session. IsOpen session (T.view station.new)) }
        ensures holds { OnOk result (IsTrue (T.view station.old).is_told → (gaz : Gazetteer) → Mirrors (T.view station.old).bytes gaz → AllHold (T.view station.new) gaz) }

        // A stop at any moment leaves a gazetteer that some outcome had when it began: the one that was there, if all had one.
        ensures opening { IsOpening (T.view station.old) (T.view station.new) }

        // As many frames as were asked for, all empty.
        ensures room { OnOk result ((T.room station.new ≡ frames) × (T.held station.new ≡ [])) }

        // In pieces of 4,096 bytes it reads no more than an opening may.
        ensures reads { OpensReadsWithin (Some 0) (T.view station.old) (T.view station.new) }

        // It says that there is no mirror only where the areas mirror none, and which of the log and Root is to blame.
        ensures none { IfErr result (λ why. IsTrue (T.view station.old).is_told → (place : Place) → why ≡ OpenFault.NotAMirror place → IsNoMirror place (T.view station.old)) }
        ensures cause { FailsOnce (T.view station.old).faults (T.view station.new).faults result }
    {
        let cutter = match LineCutter::new(alloc, LINE_LIMIT, FILE_LIMIT) {
            Ok(cutter) => cutter,
            Err(AllocError) => return Err(OpenFault::Memory),
        };
        let best = match Best::new(alloc) {
            Ok(best) => best,
            Err(AllocError) => return Err(OpenFault::Memory),
        };
        let buf = match vec![in alloc; 0; ROOM] {
            Ok(buf) => buf,
            Err(AllocError) => return Err(OpenFault::Memory),
        };
        match open(alloc, station, frames) {
            Ok(mirror) => Ok(Session {
                alloc,
                mirror,
                cutter,
                best,
                buf,
            }),
            Err(fault) => Err(fault),
        }
    }

    /// Whether a load was accepted before, where that is asked.
    pub(crate) fn is_in_the_way(&self, only_empty: bool) -> bool
        ensures { result ≡ (only_empty && is_some self.now.root) }
    {
        only_empty && self.mirror.root().is_some()
    }

    /// Loads a dump, and tells it, or why it is refused.
    pub(crate) fn load<F: Shelf, T: PagedStation>(
        &mut self,
        shelf: &mut F,
        station: &mut T,
        date: Day,
    ) -> Result<(), EndFault>
        requires open { IsOpen self.old (T.view station.old) }
        ensures meets { IsTrue (T.view station.old).is_told → IfSome (files_of (F.view shelf.new)) (λ files. (state : State) → Mirrors (T.view station.old).bytes state.gaz
            → Meets files (asks_load date) state (F.view shelf.old) (F.view shelf.new) (T.view station.old) (T.view station.new) result) }
        ensures tells { TellsShelf (F.view shelf.old) (F.view shelf.new) (T.view station.old) (T.view station.new) result }
        ensures lasts { Lasts (T.view station.old) (T.view station.new) result }
        ensures open { OnOk result (IsOpen self.new (T.view station.new)) }
        ensures closes { Closes load_files (F.view shelf.old) (F.view shelf.new) }
        ensures reports { Reports (T.view station.old) (T.view station.new) result }
    {
        let made = load(
            self.alloc,
            &mut self.mirror,
            shelf,
            station,
            &mut self.cutter,
            date,
        );
        tell_change(station, Done::Load(date), made)
    }

    /// Applies a day, and tells it, or why it is refused.
    pub(crate) fn day<F: Shelf, T: PagedStation>(
        &mut self,
        shelf: &mut F,
        station: &mut T,
        date: Day,
    ) -> Result<(), EndFault>
        requires open { IsOpen self.old (T.view station.old) }
        ensures meets { IsTrue (T.view station.old).is_told → IfSome (files_of (F.view shelf.new)) (λ files. (state : State) → Mirrors (T.view station.old).bytes state.gaz
            → Meets files (asks_day date) state (F.view shelf.old) (F.view shelf.new) (T.view station.old) (T.view station.new) result) }
        ensures tells { TellsShelf (F.view shelf.old) (F.view shelf.new) (T.view station.old) (T.view station.new) result }
        ensures lasts { Lasts (T.view station.old) (T.view station.new) result }
        ensures open { OnOk result (IsOpen self.new (T.view station.new)) }
        ensures closes { Closes (day_opens (in_sequence (option_map (λ root. root.day) self.old.root) date)) (F.view shelf.old) (F.view shelf.new) }
        ensures writes { IfSome (files_of (F.view shelf.new)) (λ files. WritesWithin (most_written files (asks_day date)) (T.view station.old) (T.view station.new)) }
        ensures reports { Reports (T.view station.old) (T.view station.new) result }
    {
        let made = apply(
            self.alloc,
            &mut self.mirror,
            shelf,
            station,
            &mut self.cutter,
            date,
        );
        tell_change(station, Done::Day(date), made)
    }

    /// Tells the place with the id, if there is one.
    pub(crate) fn tell_place<T: PagedStation>(
        &mut self,
        station: &mut T,
        id: u32,
    ) -> Result<(), EndFault>
        requires open { IsOpen self.old (T.view station.old) }
        ensures tells { Tells (λ gaz reply. reply ≡ if_loaded (state_of gaz) (rows (option_to_list (line_with Rows (id ∷ []) gaz)))) (T.view station.old) (T.view station.new) result }
        ensures reads { OverMirror (T.view station.old) (λ gaz. ReadsWithin (most_read gaz (asks_get id)) (T.view station.old) (T.view station.new)) }
        ensures kept { self.new ≡ self.old }
        ensures reports { Reports (T.view station.old) (T.view station.new) result }
    {
        if self.mirror.root().is_none() {
            return refuse(station, &Refusal::NotLoaded);
        }
        match get_row(&self.mirror, station, id, &mut self.buf) {
            Ok(Some(size)) => tell_found(station, Some(&self.buf[..size])),
            Ok(None) => tell_found(station, None),
            Err(fault) => Err(end_of(fault)),
        }
    }

    /// Tells the line of an admin code, if there is one.
    pub(crate) fn tell_code<T: PagedStation>(
        &mut self,
        station: &mut T,
        code: &str,
    ) -> Result<(), EndFault>
        requires open { IsOpen self.old (T.view station.old) }
        ensures tells { Tells (λ gaz reply. reply ≡ if_loaded (state_of gaz) (rows (option_to_list (line_with Codes code.now gaz)))) (T.view station.old) (T.view station.new) result }
        ensures reads { OverMirror (T.view station.old) (λ gaz. ReadsWithin (most_read gaz (asks_admin code.now)) (T.view station.old) (T.view station.new)) }
        ensures kept { self.new ≡ self.old }
        ensures reports { Reports (T.view station.old) (T.view station.new) result }
    {
        if self.mirror.root().is_none() {
            return refuse(station, &Refusal::NotLoaded);
        }
        match get_code(&self.mirror, station, code.as_bytes(), &mut self.buf) {
            Ok(Some(size)) => tell_found(station, Some(&self.buf[..size])),
            Ok(None) => tell_found(station, None),
            Err(fault) => Err(end_of(fault)),
        }
    }

    /// Tells the answer to a search, or that memory was wanting, which may be only where a name is asked for.
    pub(crate) fn tell_search<T: PagedStation>(
        &mut self,
        station: &mut T,
        query: &Query<'_>,
    ) -> Result<(), EndFault>
        requires limited { IsLimited (asked query.now) }
        requires open { IsOpen self.old (T.view station.old) }
        ensures tells { Tells (λ gaz reply. (reply ≡ if_loaded (state_of gaz) (rows (search_of gaz (asked query.now)))) ⊎ ((reply ≡ refused memory) × AsksName (asked query.now).name)) (T.view station.old) (T.view station.new) result }
        ensures reads { OverMirror (T.view station.old) (λ gaz. ReadsWithin (most_read gaz (asks_search (asked query.now))) (T.view station.old) (T.view station.new)) }
        ensures kept { self.new ≡ self.old }
        ensures reports { Reports (T.view station.old) (T.view station.new) result }
    {
        if self.mirror.root().is_none() {
            return refuse(station, &Refusal::NotLoaded);
        }
        match search(
            self.alloc,
            &self.mirror,
            station,
            query,
            &mut self.buf,
            &mut self.best,
        ) {
            Ok(()) => tell_rows(
                &self.mirror,
                station,
                &mut self.buf,
                self.best.cut(query.start, query.max),
                0,
            ),
            Err(AskFault::Memory) => refuse(station, &Refusal::Memory),
            Err(AskFault::Failed) => Err(EndFault::Station),
            Err(AskFault::Damaged(page)) => Err(EndFault::Damaged(page)),
        }
    }

    /// Tells the first children of the place with the id.
    pub(crate) fn tell_children<T: PagedStation>(
        &mut self,
        station: &mut T,
        id: u32,
        max: u32,
    ) -> Result<(), EndFault>
        requires max { max ≤ 1000 }
        requires open { IsOpen self.old (T.view station.old) }
        ensures tells { Tells (λ gaz reply. reply ≡ if_loaded (state_of gaz) (rows (children_of gaz id max))) (T.view station.old) (T.view station.new) result }
        ensures reads { OverMirror (T.view station.old) (λ gaz. ReadsWithin (most_read gaz (asks_children id max)) (T.view station.old) (T.view station.new)) }
        ensures kept { self.new ≡ self.old }
        ensures reports { Reports (T.view station.old) (T.view station.new) result }
    {
        if self.mirror.root().is_none() {
            return refuse(station, &Refusal::NotLoaded);
        }
        match children(
            &self.mirror,
            station,
            id,
            max,
            &mut self.buf,
            &mut self.best,
        ) {
            Ok(()) => tell_rows(
                &self.mirror,
                station,
                &mut self.buf,
                self.best.cut(0, max),
                0,
            ),
            Err(fault) => Err(end_of(fault)),
        }
    }

    /// Tells the chain of the place with the id, from the top down.
    pub(crate) fn tell_chain<T: PagedStation>(
        &mut self,
        station: &mut T,
        id: u32,
    ) -> Result<(), EndFault>
        requires open { IsOpen self.old (T.view station.old) }
        ensures tells { Tells (λ gaz reply. reply ≡ if_loaded (state_of gaz) (rows (hierarchy_of gaz id))) (T.view station.old) (T.view station.new) result }
        ensures reads { OverMirror (T.view station.old) (λ gaz. ReadsWithin (most_read gaz (asks_chain id)) (T.view station.old) (T.view station.new)) }
        ensures kept { self.new ≡ self.old }
        ensures reports { Reports (T.view station.old) (T.view station.new) result }
    {
        if self.mirror.root().is_none() {
            return refuse(station, &Refusal::NotLoaded);
        }
        let mut ids = [0; 64];
        match chain(&self.mirror, station, id, &mut self.buf, &mut ids) {
            Ok(count) => {
                let above = &mut ids[..count];
                above.reverse();
                tell_rows(&self.mirror, station, &mut self.buf, above, 0)
            }
            Err(fault) => Err(end_of(fault)),
        }
    }
}
