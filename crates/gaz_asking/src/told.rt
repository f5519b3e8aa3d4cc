//! Answers as texts.
use crate::draws::{number, put};
use crate::stopped::{Done, Stopped, had};
use gaz_pick::Best;
use std::alloc::Global;

/// Room for two lines.
const ROOM: usize = 131_070;

/// What a question needs, and its answer as a text.
#[derive(Drop)]
pub struct Desk {
    pub room: [u8; ROOM],
    pub ids: [u32; 64],
    pub best: Best,
    pub told: Vec<u8>,
}

impl Desk {
    pub fn new(alloc: Global) -> Result<Desk, Stopped> {
        let best = had(Best::new(alloc))?;
        Ok(Desk {
            room: [0; ROOM],
            ids: [0; 64],
            best,
            told: Vec::new(alloc),
        })
    }

    /// Tells that there is nothing, where nothing was told.
    pub fn tell_nothing(&mut self) -> Done {
        if self.told.is_empty() {
            put(&mut self.told, "none")?;
        }
        Ok(())
    }

    /// Tells the front of the room of this size.
    pub fn tell_front(&mut self, size: usize) -> Done {
        match self.room.get(..size) {
            Some(line) => had(self.told.extend_from_slice(line)),
            None => Err(Stopped::Wrong("the size of a line")),
        }
    }

    pub fn tell_pairs(&mut self, start: u32, max: u32) -> Done {
        for (_, id) in self.best.cut(start, max) {
            tell_id(*id, &mut self.told)?;
        }
        Ok(())
    }

    /// Tells the first so many ids of a chain, from the top down.
    pub fn tell_chain(&mut self, count: usize) -> Done {
        for id in self.ids.iter().take(count).rev() {
            tell_id(*id, &mut self.told)?;
        }
        Ok(())
    }
}

/// Tells an id behind others.
fn tell_id(id: u32, told: &mut Vec<u8>) -> Done {
    if !told.is_empty() {
        put(told, " ")?;
    }
    number(told, id)
}
