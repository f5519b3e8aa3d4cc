//! Records within one page.
//! A record page has a list of slots from its front and records from its end towards them; an overflow page has one piece of a record that is too
//! long for a record page. Each move is over the bytes of one page, in place, and keeps the page in form, with all other records as they were.
//! A record goes into the least free slot; the page is packed where it wouldn't fit else, and it is refused only where it doesn't fit even then.
//! Reading is safe on any bytes, and gives what the page shows in a slot. Nothing takes memory.
#![tactic(auto)]

mod bytes;
mod overflow;
mod record_page;

pub use overflow::{LONGEST, PIECE, Piece, copy_piece, fill_piece, next_of};
pub use record_page::{
    clear_slot, copy_slot, fill_alone, insert, is_record_page, is_used, replace, used_end,
};
