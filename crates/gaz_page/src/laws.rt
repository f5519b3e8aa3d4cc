//! How reading and writing a root page go together. To call this is to know it; it does nothing.
ghost use Rattle.gaz_page.specs.Laws.{WrittenTreeRootIsRead, ReadTreeRootIsWritten, ReadTreeRootFits};

/// A root page that was written is read as it was, whatever stands behind it; what is read of one was so written, and its fields fit
/// into their places.
pub fn tree_roots()
    ensures written { WrittenTreeRootIsRead }
    ensures read { ReadTreeRootIsWritten }
    ensures fits { ReadTreeRootFits }
{}
