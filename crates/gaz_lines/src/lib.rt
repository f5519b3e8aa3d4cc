//! Lines out of a source or a file: `LineCutter` gives them one by one, each borrowed from the one buffer that it reserves.
//! They are the lines of the bytes, however these are handed out: each up to the line limit, with its number, a longer one
//! refused with its number, and none past the file limit. A text past that limit is refused behind its last whole line.
//! No more bytes are taken while a whole line is held, and none after the end. After a failure nothing is lost, and a further
//! call goes on. Only `new` takes memory.
#![tactic(auto)]

mod cutter;
mod fault;
mod window;

pub use cutter::LineCutter;
pub use fault::LineFault;
