//! The files of the current folder. It tells no bytes.
ghost use Rattle.std.specs.Prelude.{◌≡◌, ◌≢◌, ℕ, ◌≤◌, ◌<◌, ◌↔◌, ◌^◌, false, [], Some, None, length, IfErr, IfOk, IfSome, IsSome, IsErr, IsFalse, option_map};
ghost use Rattle.std.specs.IoError.{error_kind};
ghost use Rattle.gaz_outside.specs.Outside.{RisesOnce, HasCause, FindsFiles, Opens, Blames, files_of};

use crate::open_files::{NamedFile, OpenFiles};
use crate::short_name::{ShortName, short_name};
use crate::stdin_source::TRIES;
use crate::{Failed, Shelf};
use std::fs::{File, Files, OpenFile};
use std::io;
use std::io::ErrorKind;
use std::os::unix::fs::FileExt;

/// The files of the current folder, of which at most eight are open at once. An open number is a place among these.
/// A name is a path from there: one with a slash is followed, an empty one names no file, one with a NUL is a failure.
#[derive(Drop)]
pub struct DirShelf<'a, R: Files> {
    rt: &'a R,
    files: OpenFiles<R::File>,
    last_fault: Option<ShortName>,
    faults: u64,
    ghost fits: { faults < 2 ^ 64 },
}

impl<'a, R: Files> DirShelf<'a, R>
where
    R::File: FileExt,
{
    /// With no open file.
    pub fn new(rt: &'a R) -> Self
        ensures untold { IsFalse (⟦<DirShelf<'a, R> as Shelf>⟧.view result).is_told }
        ensures closed { (n : ℕ) → (⟦<DirShelf<'a, R> as Shelf>⟧.view result).opened n ≡ None }
        ensures no_fault { (⟦<DirShelf<'a, R> as Shelf>⟧.view result).last_fault ≡ None }
        ensures faults { (⟦<DirShelf<'a, R> as Shelf>⟧.view result).faults ≡ 0 }
    {
        DirShelf {
            rt,
            files: OpenFiles::new(),
            last_fault: None,
            faults: 0,
        }
    }

    fn fault(&mut self, name: ShortName) -> Failed
        ensures files { self.new.files ≡ self.old.files }
        ensures blamed { self.new.last_fault ≡ Some name }
        ensures later { self.old.faults ≤ self.new.faults }
        ensures rose { RisesOnce self.old.faults self.new.faults }
    {
        self.last_fault = Some(name);
        self.faults = self.faults.saturating_add(1);
        Failed
    }
}

/// The file, or none where there is none of the name. A folder is a failure.
fn open_file<R: Files>(rt: &R, name: &str) -> io::Result<Option<R::File>> {
    let file = match File::open(rt, name) {
        Ok(file) => file,
        Err(error) if error.kind() == ErrorKind::NotFound => return Ok(None),
        Err(error) => return Err(error),
    };
    if file.metadata()?.is_dir() {
        return Err(io::Error::from(ErrorKind::IsADirectory));
    }
    Ok(Some(file))
}

/// Hands on what one read at `at` gives, also a short one. Only an interrupted read is tried again.
pub(crate) fn read_at_once<F: FileExt>(file: &F, buf: &mut [u8], at: u64) -> io::Result<usize>
    ensures count { IfOk result (λ n. n ≤ length buf.old) }
    ensures retried { IfErr result (λ e. error_kind e ≢ ErrorKind.Interrupted) }
{
    for _ in 0..TRIES {
        match file.read_at(buf, at) {
            Ok(n) => return Ok(n),
            Err(error) => {
                if error.kind() != ErrorKind::Interrupted {
                    return Err(error);
                }
            }
        }
    }
    Err(io::Error::from(ErrorKind::TimedOut))
}

#[tactic(auto, unfolding(crate::specs::Outside::files_of, crate::specs::Outside::bytes_of))]
impl<'a, R: Files> Shelf for DirShelf<'a, R>
where
    R::File: FileExt,
{
    ghost use Rattle.gaz_outside.specs.OpenFiles.{name_in};
    ghost use Rattle.gaz_outside.specs.Untold.{not_told};

    ghost view = { λ s. record {
      is_told = false;
      files = λ _. None;
      earlier = [];
      opened = name_in s.files;
      last_fault = option_map (λ name. name.bytes) s.last_fault;
      faults = s.faults;
    } };

    ghost faults_fit = { λ s. s.fits };

    ghost open_told = { λ s n told. absurd (not_told told) };

    /// With eight open files it fails.
    fn open(&mut self, name: &str) -> Result<Option<u64>, Failed>
        requires { length name.now ≤ 48 }
        ensures found { IfOk result (λ number. IfSome (files_of (⟦<DirShelf<'a, R> as Shelf>⟧.view self.new)) (λ files. IsSome number ↔ IsSome (files name.now))) }
        ensures opens { Opens name.now (⟦<DirShelf<'a, R> as Shelf>⟧.view self.old) (⟦<DirShelf<'a, R> as Shelf>⟧.view self.new) result }
        ensures files { FindsFiles (⟦<DirShelf<'a, R> as Shelf>⟧.view self.old) (⟦<DirShelf<'a, R> as Shelf>⟧.view self.new) }
        ensures blames { Blames (Some name.now) (⟦<DirShelf<'a, R> as Shelf>⟧.view self.old) (⟦<DirShelf<'a, R> as Shelf>⟧.view self.new) result }
        ensures cause { HasCause (⟦<DirShelf<'a, R> as Shelf>⟧.view self.old).faults (⟦<DirShelf<'a, R> as Shelf>⟧.view self.new).faults result }
        ensures place { IfOk result (λ number. IfSome number (λ place. place < 8)) }
        ensures fresh { IfOk result (λ number. IfSome number (λ place. (⟦<DirShelf<'a, R> as Shelf>⟧.view self.old).opened place ≡ None)) }
        ensures full { ((place : ℕ) → place < 8 → IsSome ((⟦<DirShelf<'a, R> as Shelf>⟧.view self.old).opened place)) → IsErr result }
    {
        let Some(place) = self.files.free_place() else {
            return Err(self.fault(short_name(name)));
        };
        match open_file(self.rt, name) {
            Ok(Some(file)) => {
                let name = short_name(name);
                self.files.put(place, NamedFile { name, file });
                Ok(Some(place as u64))
            }
            Ok(None) => Ok(None),
            Err(_) => Err(self.fault(short_name(name))),
        }
    }

    fn read(&mut self, file: u64, at: u64, buf: &mut [u8]) -> Result<usize, Failed> {
        let opened = self.files.get(file as usize);
        let name = opened.name;
        match read_at_once(&opened.file, buf, at) {
            Ok(n) => Ok(n),
            Err(_) => Err(self.fault(name)),
        }
    }

    fn close_all(&mut self) {
        self.files.clear();
    }
}
