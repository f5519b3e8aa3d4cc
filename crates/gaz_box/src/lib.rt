//! Boxes of coordinates: the box test, also over the antimeridian, and the bands of latitude and ranges of longitude by which
//! an index finds the places of a box. Coordinates are in units of 10^-12 degree. Nothing here takes memory.
//! The laws say that bands and ranges miss no place of a box, and which of the places there are in it.
#![tactic(auto)]

mod geo_box;
mod laws;

pub use geo_box::GeoBox;
pub use laws::{bands_cover, index_finds, spans_cover};
