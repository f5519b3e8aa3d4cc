//! The requests of a trial, as a source.
ghost use Rattle.std.specs.Prelude.{◌≡◌, ◌≤◌, min, take, drop, length, true, IsTrue};
ghost use Rattle.std.proofs.Common.{arith};
ghost use Rattle.gaz_outside.specs.Outside.{left_of};
ghost use Rattle.gaz_make.specs.Files.{request_text};

use gaz_outside::{Failed, Source};

/// The requests of a trial, each with an LF.
pub fn made_requests() -> &'static [u8]
    ensures { result.now ≡ request_text }
{
    b"load 2000-01-01\nday 2000-01-02\nsearch maxRows=3\n"
}

/// A source of the requests of a trial. It takes no memory and never fails.
#[derive(Drop)]
pub struct MadeRequests {
    /// How many bytes of them were taken.
    at: usize,
    ghost within: { at ≤ length request_text },
}

impl MadeRequests {
    /// A source of which nothing was taken.
    pub fn new() -> Self
        ensures { (⟦<MadeRequests as Source>⟧.view result).left ≡ request_text }
    {
        MadeRequests { at: 0 }
    }

    /// It tells its bytes and never failed. To call it is to know it; it does nothing.
    pub fn is_sound(&self)
        ensures told { IsTrue (⟦<MadeRequests as Source>⟧.view self.now).is_told }
        ensures faults { (⟦<MadeRequests as Source>⟧.view self.now).faults ≡ 0 }
    {}
}

/// Copies what comes next, as far as there is room.
fn copy_front(bytes: &[u8], buf: &mut [u8]) -> usize
    ensures count { result ≡ min (length buf.old) (length bytes.now) }
    ensures copied { take result buf.new ≡ take result bytes.now }
{
    let n = buf.len().min(bytes.len());
    buf[..n].copy_from_slice(&bytes[..n]);
    n
}

#[tactic(auto, unfolding(gaz_outside::specs::Outside::left_of))]
impl Source for MadeRequests {
    ghost view = { λ s. record { is_told = true; left = drop s.at request_text; faults = 0 } };

    ghost faults_fit = { λ s. omega arith };

    fn take(&mut self, buf: &mut [u8]) -> Result<usize, Failed> {
        let n = copy_front(&made_requests()[self.at..], buf);
        self.at += n;
        Ok(n)
    }
}
