//! Pages of a mirror on a device: the committed ones, those of a day with what it changed on top, and those of the area that isn't in use.
//! All three are `Pages` over any station that holds pages, and none writes to it: changed pages stay in memory, as images, until they are
//! committed. What the images hold, laid over the area, is what the pages tell, and leaves no gap; a call that fails says why.
//! A `Mirror` has the root, which a root page says.
//! `Changed::finish` writes the images in their places, in an area that no root names, and syncs it.
#![tactic(auto)]

mod changed;
mod day_pages;
mod extent;
mod held;
mod idle_pages;
mod live_pages;
mod mirror;

pub use changed::Changed;
pub use day_pages::DayPages;
pub use extent::Extent;
pub use idle_pages::IdlePages;
pub use live_pages::LivePages;
pub use mirror::{Mirror, area_of};
