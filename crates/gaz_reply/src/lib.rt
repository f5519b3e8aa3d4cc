//! The reply texts: each call prints exactly the bytes of its reply, or a front of them where the station failed.
//! `write_row` and `write_end` tell lines and their number, `write_done` acknowledges a change, `write_refusal` refuses.
//! No call takes memory, and each fails only where the station did. A line that acknowledges is printed in one piece.
#![tactic(auto)]

mod line;
mod refusal;
mod reply;

pub use refusal::{Refusal, write_refusal};
pub use reply::{Done, write_done, write_end, write_row};
