//! The request language: `read_request` answers what a request line asks, or the first bad word of it.
//! Both are exactly those of the grammar in specs/, Grammar.antt and, for a search and for children, Search.antt and Children.antt. A verb that isn't of the grammar is an unknown verb.
//! No call takes memory.
#![tactic(auto)]

mod children;
mod parameter;
mod request;
mod search;

pub use parameter::Parameter;
pub use request::{BadRequest, Request, read_request};
