//! Numbers that seem random, and texts that are put together.
ghost use Rattle.std.specs.Prelude.{◌<◌};

use crate::stopped::{Done, had};

/// The numbers of Park and Miller.
#[derive(Drop)]
pub struct Draws {
    x: u64,
}

impl Draws {
    /// Those that follow from a number.
    pub fn from(x: u64) -> Draws {
        Draws { x }
    }

    /// The next number, less than `n`.
    pub fn below(&mut self, n: u32) -> u32
        requires { 0 < n }
        ensures { result < n }
    {
        self.x = self.x.wrapping_mul(16_807) % 2_147_483_647;
        (self.x % u64::from(n)) as u32
    }

    /// One of these words.
    pub fn one_of(&mut self, words: &[&'static str]) -> &'static str {
        let most = words.len().clamp(1, 100) as u32;
        match words.get(self.below(most) as usize) {
            Some(word) => *word,
            None => "",
        }
    }
}

/// Puts a text behind a line.
pub fn put(line: &mut Vec<u8>, text: &str) -> Done {
    had(line.extend_from_slice(text.as_bytes()))
}

/// Puts a number in decimal.
pub fn number(line: &mut Vec<u8>, n: u32) -> Done {
    had(line.extend_from_slice(itoa::Buffer::new().format(n).as_bytes()))
}

/// Puts a column that is one of these words.
pub fn word(draws: &mut Draws, words: &[&'static str], line: &mut Vec<u8>) -> Done {
    put(line, "\t")?;
    put(line, draws.one_of(words))
}

/// Puts so many bytes `a`.
pub fn letters(line: &mut Vec<u8>, n: u32) -> Done {
    for _ in 0..n {
        put(line, "a")?;
    }
    Ok(())
}

/// Puts so many thousandths.
pub fn thousandths(line: &mut Vec<u8>, n: u32) -> Done {
    number(line, n / 1000)?;
    put(line, ".")?;
    number(line, n / 100 % 10)?;
    number(line, n / 10 % 10)?;
    number(line, n % 10)
}
