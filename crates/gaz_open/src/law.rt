//! What areas mirror. To call the law is to know it; it does nothing.
ghost use Rattle.std.specs.Prelude.{◌≡◌, ℕ, List, []};
ghost use Rattle.gaz_outside.specs.declared.station.Area.{Area};
ghost use Rattle.gaz_plain.specs.Gazetteer.{Gazetteer, IsGazetteer, empty};
ghost use Rattle.gaz_rows.specs.Content.{Mirrors};
ghost use Rattle.gaz_rows.specs.Holds.{SameMirror};

/// What areas mirror: one gazetteer, which is one by its definition; areas with the same bytes mirror the same, and areas of
/// length 0 the empty one. Everything above speaks of a mirror by these four facts.
pub fn areas_mirror()
    ensures one { (areas : Area → List ℕ) (gaz other : Gazetteer) → Mirrors areas gaz → Mirrors areas other → gaz ≡ other }
    ensures gazetteer { (areas : Area → List ℕ) (gaz : Gazetteer) → Mirrors areas gaz → IsGazetteer gaz }
    ensures same { (areas others : Area → List ℕ) → ((area : Area) → areas area ≡ others area) → SameMirror areas others }
    ensures at_first { (areas : Area → List ℕ) → ((area : Area) → areas area ≡ []) → Mirrors areas empty }
{}
