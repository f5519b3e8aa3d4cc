//! The frames, and where each page stands among them.
ghost use Rattle.std.specs.Prelude.{◌≡◌, true, false, ◌<◌, ◌≤◌, [], ◌∷◌, ◌++◌, length, vec_capacity, slice_set, ℕ, None, IfOk, IfSome, IfNone};
ghost use Rattle.gaz_pool.specs.Frames.{number_of, pages_in, frame_at, settled, filled, is_beside, without_side};
ghost use Rattle.gaz_pool.specs.Numbers.{page_number};
ghost use Rattle.gaz_pool.specs.Table.{StandsAt, Has, OneEach, AreFound};
ghost use Rattle.gaz_places.specs.Places.{found_in, most_in};

use crate::frame::{Frame, number};
use gaz_page::Side;
use gaz_places::Places;
use std::alloc::{AllocError, Global};

/// The frames that hold a page, with room for as many as were reserved.
#[derive(Drop)]
pub(crate) struct Table {
    pub frames: Vec<Frame>,
    /// Where the frame of each page stands.
    places: Places,
    pub ghost found: { AreFound (found_in places) (pages_in frames.items) },
    pub ghost within: { length frames.items ≤ most_in places },
    pub ghost room: { most_in places ≤ vec_capacity frames },
    pub ghost some: { 1 ≤ most_in places },
    pub ghost few: { most_in places ≤ 65536 },
}

impl Table {
    ghost use Rattle.gaz_pool.specs.Rooms.{most_of};

    /// No page, and room for so many frames.
    pub fn new(alloc: Global, most: u32) -> Result<Table, AllocError>
        requires some { 1 ≤ most }
        requires few { most ≤ 65536 }
        ensures none { IfOk result (λ table. table.frames.items ≡ []) }
        ensures most { IfOk result (λ table. most_of table ≡ most) }
    {
        Ok(Table {
            frames: Vec::with_capacity(alloc, most as usize)?,
            places: Places::new(alloc, most)?,
        })
    }

    /// Where the frame of a page stands.
    pub fn find(&self, side: Side, page: u32) -> Option<usize>
        ensures here { IfSome result (λ place. StandsAt (pages_in self.now.frames.items) place (page_number side page)) }
        ensures none { IfNone result (Has (pages_in self.now.frames.items) (page_number side page) → ⊥) }
    {
        match self.places.get(number(side, page)) {
            Some(place) => Some(place as usize),
            None => None,
        }
    }

    /// Puts a frame of a page that isn't held behind the others.
    pub fn push(&mut self, frame: Frame)
        requires new { Has (pages_in self.old.frames.items) (number_of frame) → ⊥ }
        requires room { length self.old.frames.items < most_of self.old }
        ensures frames { self.new.frames.items ≡ self.old.frames.items ++ frame ∷ [] }
        ensures most { most_of self.new ≡ most_of self.old }
    {
        let place = self.frames.len() as u32;
        self.places.put(number(frame.side, frame.page), place);
        self.frames.push(frame).unwrap();
    }

    /// Puts a frame of a page that isn't held in the place of another.
    pub fn replace(&mut self, place: usize, frame: Frame)
        requires new { Has (pages_in self.old.frames.items) (number_of frame) → ⊥ }
        requires there { place < length self.old.frames.items }
        ensures frames { self.new.frames.items ≡ slice_set self.old.frames.items place frame }
        ensures most { most_of self.new ≡ most_of self.old }
    {
        let last = &self.frames[place];
        self.places.take_out(number(last.side, last.page));
        self.places
            .put(number(frame.side, frame.page), place as u32);
        self.frames[place] = frame;
    }

    /// Whether each frame holds a page.
    pub fn is_full(&self) -> bool
        ensures full { result ≡ true → length self.now.frames.items ≡ most_of self.now }
        ensures room { result ≡ false → length self.now.frames.items < most_of self.now }
    {
        self.frames.len() == self.places.most() as usize
    }

    /// Whether the frame at a place is of this side.
    pub fn is_of(&self, place: usize, side: Side) -> bool
        requires there { place < length self.now.frames.items }
        ensures beside { result ≡ false → is_beside side (frame_at self.now.frames.items place) ≡ true }
        ensures own { result ≡ true → (frame_at self.now.frames.items place).side ≡ side }
    {
        !is_beside(side, &self.frames[place])
    }

    /// Tells that a frame waits no longer to be written.
    pub fn settle(&mut self, place: usize)
        requires there { place < length self.old.frames.items }
        ensures frames { self.new.frames.items ≡ slice_set self.old.frames.items place (settled (frame_at self.old.frames.items place)) }
        ensures most { most_of self.new ≡ most_of self.old }
    {
        self.frames[place].waits = false;
    }

    /// Gives a frame other bytes, and says whether it waits to be written.
    pub fn fill(&mut self, place: usize, bytes: &[u8], waits: bool)
        requires there { place < length self.old.frames.items }
        requires size { length bytes.now ≡ 4096 }
        ensures frames { self.new.frames.items ≡ slice_set self.old.frames.items place (filled bytes.now waits (frame_at self.old.frames.items place)) }
        ensures most { most_of self.new ≡ most_of self.old }
    {
        let frame = &mut self.frames[place];
        frame.bytes.copy_from_slice(bytes);
        frame.waits = waits;
    }

    /// Drops the frames of a side.
    pub fn forget(&mut self, side: Side)
        ensures frames { self.new.frames.items ≡ without_side side self.old.frames.items }
        ensures most { most_of self.new ≡ most_of self.old }
    {
        self.frames.retain(
            |frame: &Frame| -> bool
                ensures { result ≡ is_beside side frame.now }
            { is_beside(side, frame) },
        );
        self.places.clear();
        enter_all(&self.frames, &mut self.places);
    }
}

/// Whether a frame isn't of this side.
fn is_beside(side: Side, frame: &Frame) -> bool
    ensures { result ≡ is_beside side frame.now }
{
    match (side, frame.side) {
        (Side::Left, Side::Left) => false,
        (Side::Right, Side::Right) => false,
        (Side::Left, Side::Right) => true,
        (Side::Right, Side::Left) => true,
    }
}

/// Gives each page the place of its frame.
fn enter_all(frames: &[Frame], places: &mut Places)
    requires empty { (number : ℕ) → found_in places.old number ≡ None }
    requires once { OneEach (pages_in frames.now) }
    requires room { length frames.now ≤ most_in places.old }
    requires few { most_in places.old ≤ 65536 }
    ensures found { AreFound (found_in places.new) (pages_in frames.now) }
    ensures most { most_in places.new ≡ most_in places.old }
{
    for (place, frame) in frames.iter().enumerate() {
        places.put(number(frame.side, frame.page), place as u32);
    }
}
