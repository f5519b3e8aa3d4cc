//! Which frame is given up.
ghost use Rattle.std.specs.Prelude.{◌≡◌, ◌<◌, ◌≤◌, length, IfOk};

use std::alloc::{AllocError, Global};

/// A hand that goes round the frames. It passes by those that were asked for since it came by last.
#[derive(Drop)]
pub(crate) struct Clock {
    /// Whether a frame was asked for since the hand came by.
    recent: Vec<bool>,
    /// Where the hand stands.
    hand: usize,
    ghost within: { hand < length recent.items },
}

impl Clock {
    ghost use Rattle.std.specs.Prelude.{◌≡◌, ◌≢◌, ◌⊎◌, ◌<◌, ◌≤◌, ℕ, true, false, IfOk};
    ghost use Rattle.gaz_pool.specs.Clock.{round_of, hand_of, is_recent, behind, AllRecent};

    /// A hand over so many frames, none of which was asked for.
    pub fn new(alloc: Global, frames: u32) -> Result<Clock, AllocError>
        requires { 1 ≤ frames }
        ensures { IfOk result (λ clock. round_of clock ≡ frames) }
    {
        let recent = vec![in alloc; false; frames as usize]?;
        Ok(Clock { recent, hand: 0 })
    }

    /// Tells that a frame was asked for.
    pub fn mark(&mut self, place: usize)
        requires { place < round_of self.old }
        ensures round { round_of self.new ≡ round_of self.old }
        ensures marked { is_recent self.new place ≡ true }
        ensures hand { hand_of self.new ≡ hand_of self.old }
    {
        self.recent[place] = true;
    }

    /// Moves the hand on, and answers the frame that it left and whether that was asked for.
    fn step(&mut self) -> (usize, bool)
        ensures place { result.0 < round_of self.old }
        ensures round { round_of self.new ≡ round_of self.old }
        ensures left { result.0 ≡ hand_of self.old }
        ensures recent { result.1 ≡ is_recent self.old (hand_of self.old) }
        ensures moves { hand_of self.new ≡ behind (round_of self.old) (hand_of self.old) }
        ensures passed { is_recent self.new (hand_of self.old) ≡ false }
        ensures others { (place : ℕ) → place ≢ hand_of self.old → is_recent self.new place ≡ is_recent self.old place }
    {
        let place = self.hand;
        let recent = self.recent[place];
        self.recent[place] = false;
        self.hand = if place + 1 < self.recent.len() {
            place + 1
        } else {
            0
        };
        (place, recent)
    }

    /// Moves the hand past the next frame that was not asked for since it came by last, which is the answer. In a second round there
    /// is one at the latest.
    pub fn turn(&mut self) -> usize
        ensures place { result < round_of self.old }
        ensures round { round_of self.new ≡ round_of self.old }
        ensures idle { (is_recent self.old result ≡ false) ⊎ AllRecent self.old }
    {
        for _ in 0..self.recent.len() {
            let (place, recent) = self.step();
            if !recent {
                return place;
            }
        }
        self.step().0
    }
}
