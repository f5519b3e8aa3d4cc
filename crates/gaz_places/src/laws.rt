//! What holds of each map from keys to places. To call this is to know it; it does nothing.
ghost use Rattle.std.specs.Prelude.{◌≡◌, ◌<◌, ℕ, Some};
ghost use Rattle.gaz_places.specs.declared.places.Places.{Places};
ghost use Rattle.gaz_places.specs.Places.{found_in, most_in};

/// A place has one key at most.
pub fn places_and_keys()
    ensures one { (places : Places) (a b place : ℕ) → found_in places a ≡ Some place → found_in places b ≡ Some place → a ≡ b }
    ensures within { (places : Places) (key place : ℕ) → found_in places key ≡ Some place → place < most_in places }
{}
