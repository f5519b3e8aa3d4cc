//! Eight places for open files.
ghost use Rattle.std.specs.Prelude.{◌≡◌, ◌≢◌, ℕ, ◌<◌, Some, None, IfSome, IsSome, IsNone};

use crate::short_name::ShortName;

/// An open file and its name.
#[derive(Drop)]
pub(crate) struct NamedFile<F> {
    pub(crate) name: ShortName,
    pub(crate) file: F,
}

/// Open files by their places.
#[derive(Drop)]
pub(crate) struct OpenFiles<F> {
    places: [Option<NamedFile<F>>; 8],
}

impl<F> OpenFiles<F> {
    ghost use Rattle.gaz_outside.specs.OpenFiles.{name_in};

    /// Eight free places.
    pub(crate) fn new() -> Self
        ensures { (place : ℕ) → name_in result place ≡ None }
    {
        OpenFiles {
            places: [None, None, None, None, None, None, None, None],
        }
    }

    /// A place with no file.
    pub(crate) fn free_place(&self) -> Option<usize>
        ensures within { IfSome result (λ place. place < 8) }
        ensures free { IfSome result (λ place. name_in self.now place ≡ None) }
        ensures full { IsNone result → (place : ℕ) → place < 8 → IsSome (name_in self.now place) }
    {
        for place in 0..8 {
            if self.places[place].is_none() {
                return Some(place);
            }
        }
        None
    }

    /// Puts a file into the place.
    pub(crate) fn put(&mut self, place: usize, file: NamedFile<F>)
    where
        F: Drop,
        requires { place < 8 }
        ensures given { name_in self.new place ≡ Some file.name.bytes }
        ensures others { (other : ℕ) → other ≢ place → name_in self.new other ≡ name_in self.old other }
    {
        self.places[place] = Some(file);
    }

    /// The file in the place.
    pub(crate) fn get(&self, place: usize) -> &NamedFile<F>
        requires { IsSome (name_in self.now place) }
        ensures { name_in self.now place ≡ Some result.now.name.bytes }
    {
        match self.places.get(place) {
            Some(Some(file)) => file,
            _ => unreachable!(),
        }
    }

    /// Closes all files.
    pub(crate) fn clear(&mut self)
    where
        F: Drop,
        ensures { (place : ℕ) → name_in self.new place ≡ None }
    {
        self.places = [None, None, None, None, None, None, None, None];
    }
}
