//! Alternate names by their ids and by their places.
use crate::PlainFault;
use crate::ids_by_key::IdsByKey;
use crate::key::AltId;
use crate::line_list::{LineIter, LineList};
use crate::wanted::Wanted;
use gaz_alt::Alt;
use gaz_num::Table;
use std::alloc::{AllocError, Global};
use std::marker::Model;

/// Alternate names, seen as the list of their lines. Those of a place are found without going over all.
#[derive(Drop)]
pub(crate) struct Alternates {
    list: LineList<AltId>,
    order: IdsByKey,
}

impl Model for Alternates {
    ghost use Rattle.std.specs.Prelude.{ℕ, List};
    ghost use Rattle.gaz_plain.specs.Placed.{ArePlaced};

    ghost Value = { List (List ℕ) };

    ghost view = { λ alternates. alternates.list };

    ghost invariant = { λ alternates. ArePlaced alternates.list alternates.order };
}

impl Alternates {
    ghost use Rattle.std.specs.Prelude.{◌≡◌, ◌≤◌, true, false, [], ◌∷◌, length, IfOk, IfErr, OnOk, OnErr};
    ghost use Rattle.std.specs.Option.{option_copied, option_map};
    ghost use Rattle.gaz_num.specs.declared.words.Kind.TheVariants.{Alt as AltKind};
    ghost use Rattle.gaz_num.specs.declared.words.Table.TheVariants.{Alternates as AltTable};
    ghost use Rattle.gaz_plain.specs.Gazetteer.{limit_of, line_at, IsLine, IsTable};
    ghost use Rattle.gaz_plain.specs.Faults.{IsPutFault};
    ghost use Rattle.gaz_plain.specs.Places.{IsKeyOf, with_line, without_line};
    ghost use Rattle.gaz_plain.specs.Placed.{place_in};
    ghost use Rattle.gaz_plain.specs.Wanted.{fits_line, fits_any};

    pub fn new(alloc: Global) -> Alternates
        ensures { result ≡ [] }
    {
        Alternates {
            list: LineList::new(alloc),
            order: IdsByKey::new(alloc),
        }
    }

    /// How many there are.
    pub fn len(&self) -> usize
        ensures count { result ≡ length self.now }
        ensures within { result ≤ limit_of AltTable }
    {
        self.list.len()
    }

    /// The lines in the order of their ids.
    pub fn lines(&self) -> LineIter<'_, AltId>
        ensures { result ≡ self.now }
    {
        self.list.lines()
    }

    /// The place of the one with the id, if there is one.
    fn place_of(&self, id: u32) -> Option<u32>
        ensures { result ≡ option_map place_in (line_at AltTable (id ∷ []) self.now) }
    {
        match self.list.get(&AltId(id)) {
            Some(line) => Some(Alt::of(line).place()),
            None => None,
        }
    }

    /// Puts the line in the place of the one with its id, or where it would stand. The pair goes in first, since no memory is
    /// wanting to take one out.
    pub fn put(&mut self, id: u32, line: &[u8]) -> Result<(), PlainFault>
        requires line { IsLine AltKind line.now }
        requires key { IsKeyOf AltTable (id ∷ []) line.now }
        ensures ok { OnOk result (self.new ≡ with_line AltTable (id ∷ []) line.now self.old) }
        ensures within { OnOk result (length self.new ≤ limit_of AltTable) }
        ensures fault { IfErr result (IsPutFault AltTable (length (with_line AltTable (id ∷ []) line.now self.old))) }
        ensures err { OnErr result (self.new ≡ self.old) }
    {
        if !self.list.has_room(&AltId(id)) {
            return Err(PlainFault::Full(Table::Alternates));
        }
        let place = Alt::of(line).place();
        let old = self.place_of(id);
        let added = self.order.insert(place as u64, id)?;
        if let Err(cause) = self.list.put(AltId(id), line) {
            if added {
                self.order.remove(place as u64, id);
            }
            return Err(cause);
        }
        match old {
            Some(old) => {
                if old != place {
                    self.order.remove(old as u64, id);
                }
            }
            None => {}
        }
        Ok(())
    }

    /// Takes out the line with the id, if there is one.
    pub fn take_out(&mut self, id: u32)
        ensures lines { self.new ≡ without_line AltTable (id ∷ []) self.old }
        ensures within { length self.new ≤ limit_of AltTable }
    {
        let old = self.place_of(id);
        self.list.take_out(&AltId(id));
        match old {
            Some(place) => self.order.remove(place as u64, id),
            None => {}
        }
    }

    /// Whether one of those of the place with this id fits as a name of it.
    pub fn has_name(
        &self,
        alloc: Global,
        wanted: &Wanted,
        lang: Option<&str>,
        place: u32,
    ) -> Result<bool, AllocError>
        requires { IsTable AltTable self.now }
        ensures { IfOk result (λ is. is ≡ fits_any wanted.now (option_copied lang.entry) place self.now) }
    {
        for (_, id) in self.order.of_key(place as u64) {
            if self.fits_at(alloc, wanted, lang, place, *id)? {
                return Ok(true);
            }
        }
        Ok(false)
    }

    /// Whether the one with the id fits as a name of the place.
    fn fits_at(
        &self,
        alloc: Global,
        wanted: &Wanted,
        lang: Option<&str>,
        place: u32,
        id: u32,
    ) -> Result<bool, AllocError>
        ensures { IfOk result (λ is. is ≡ fits_line wanted.now (option_copied lang.entry) place (line_at AltTable (id ∷ []) self.now)) }
    {
        match self.list.get(&AltId(id)) {
            Some(line) => wanted.fits_as(alloc, lang, place, &Alt::of(line)),
            None => Ok(false),
        }
    }
}
