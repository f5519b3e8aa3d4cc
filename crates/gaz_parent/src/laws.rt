//! What holds of the parent rule. To call one of these is to know it; none does anything.
ghost use Rattle.gaz_parent.specs.Laws.{TakesLeast, OneLeast, ParentsAreOthers, ParentsAreLedTo, ChainsEnd};

/// What a rule takes is the least id of the rows that it may take, and there is one such answer: an index that finds it is
/// right.
pub fn takes_least()
    ensures least { TakesLeast }
    ensures one { OneLeast }
{}

/// A parent is a row of the gazetteer, and never the row itself. A link, codes or a country leads to it.
pub fn parents_are_others()
    ensures others { ParentsAreOthers }
    ensures led_to { ParentsAreLedTo }
{}

/// A chain has at most 64 places, each once.
pub fn chains_end()
    ensures { ChainsEnd }
{}
