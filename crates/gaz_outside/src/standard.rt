//! The descriptors 0 to 2 of a program.
use std::fs::{File, Files};

/// Takes those of the descriptors 0 to 2 that the caller left closed, so that no file that is opened while the result lives
/// becomes standard output. A folder can neither be read nor be written as a file: what is closed fails still.
pub fn hold_standard<R: Files>(rt: &R) -> [Option<R::File>; 3] {
    [
        File::open(rt, "/").ok(),
        File::open(rt, "/").ok(),
        File::open(rt, "/").ok(),
    ]
}
