//! How the promises of a tree and of records go together. To call it is to know it; it does nothing.
ghost use Rattle.gaz_together.specs.Laws.{TreeAfterPut, TreeAfterDrop, TreeAfterReplace, RecordAfterKey, HeapAfterKey};

/// A record that is put, put in place of another one or dropped leaves the tree, and a key that is put or taken out leaves the records, the page for new ones and what is supposed
/// of the free pages.
pub fn side_by_side()
    ensures put { TreeAfterPut }
    ensures dropped { TreeAfterDrop }
    ensures replaced { TreeAfterReplace }
    ensures records { RecordAfterKey }
    ensures heap { HeapAfterKey }
{}
