//! Numbers that seem random, and texts that are put together.
ghost use Rattle.std.specs.Prelude.{◌<◌};

use crate::stopped::{Stopped, had};

/// The numbers of Park and Miller.
#[derive(Drop)]
pub struct Draws {
    x: u64,
}

impl Draws {
    /// Those that follow from a number.
    pub fn from(x: u64) -> Draws {
        Draws { x }
    }

    /// The next number, less than `n`.
    pub fn below(&mut self, n: u64) -> u64
        requires { 0 < n }
        ensures { result < n }
    {
        self.x = self.x.wrapping_mul(16_807) % 2_147_483_647;
        self.x % n
    }

    /// One of these words.
    pub fn one_of(&mut self, words: &[&'static str]) -> &'static str {
        let most = words.len().max(1) as u64;
        match words.get(self.below(most) as usize) {
            Some(word) => *word,
            None => "",
        }
    }
}

/// Puts a text behind a line.
pub fn put(line: &mut Vec<u8>, text: &str) -> Result<(), Stopped> {
    had(line.extend_from_slice(text.as_bytes()))
}

/// Puts a column behind others.
pub fn column(line: &mut Vec<u8>, text: &str) -> Result<(), Stopped> {
    put(line, "\t")?;
    put(line, text)
}

/// Puts a number in decimal.
pub fn number(line: &mut Vec<u8>, n: u64) -> Result<(), Stopped> {
    had(line.extend_from_slice(itoa::Buffer::new().format(n).as_bytes()))
}

/// Puts a column that is a number.
pub fn number_column(line: &mut Vec<u8>, n: u64) -> Result<(), Stopped> {
    put(line, "\t")?;
    number(line, n)
}

/// Puts so many bytes `a`.
pub fn letters(line: &mut Vec<u8>, n: u64) -> Result<(), Stopped> {
    for _ in 0..n {
        put(line, "a")?;
    }
    Ok(())
}
