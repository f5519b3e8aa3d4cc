//! What holds of every step, fold, load and day. To call one of these is to know it; none does anything.
ghost use Rattle.gaz_plain.specs.Laws.{FoldKeeps, PartKeeps, LoadGives, DayGives, DayTwice, StepLeavesOthers, StepPuts, StepTakesOut, PartIsFold, FoldsAppend, AnswersHaveRows, ChainsHaveRows, ChildrenHaveRows};

/// What a fold, a part of one, a load and a day make is a gazetteer with the date that they were for.
pub fn keeps_gazetteers()
    ensures fold { FoldKeeps }
    ensures part { PartKeeps }
    ensures load { LoadGives }
    ensures day { DayGives }
{}

/// A day is accepted once.
pub fn day_twice()
    ensures { DayTwice }
{}

/// A step puts its row at its key or takes out the one that is there, and leaves the lines of all other keys.
pub fn steps_by_key()
    ensures others { StepLeavesOthers }
    ensures puts { StepPuts }
    ensures takes_out { StepTakesOut }
{}

/// A part that doesn't stop is the whole.
pub fn part_is_fold()
    ensures { PartIsFold }
{}

/// Files can be folded one after another.
pub fn folds_append()
    ensures { FoldsAppend }
{}

/// The pairs of an answer are those of its rows, in order: no row is lost.
pub fn answers_have_rows()
    ensures { AnswersHaveRows }
{}

/// Each id of a chain has its row, and so has each pair of children.
pub fn kin_have_rows()
    ensures chains { ChainsHaveRows }
    ensures children { ChildrenHaveRows }
{}
