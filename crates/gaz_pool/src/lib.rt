//! The frames by which pages of a device are read: at most so many as were reserved, one for each page that is held.
//! A page that is held costs no read, and what a frame holds is the page as the area has it, with the frames that wait to be written laid over.
//! A frame is given up only where every frame holds a page, the one that a clock hand meets which was not asked for since it came by last.
//! Nothing takes memory behind `new`, and a call fails only where the device failed.
//! Who has committed pages tells the pool by `refresh`, and who writes an area past it by `forget`.
#![tactic(auto)]

mod clock;
mod device;
mod frame;
mod pool;
mod table;

pub use pool::FramePool;
