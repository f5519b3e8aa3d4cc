//! Boxes and their bands.
ghost use Rattle.std.specs.Option.{ForSome};
ghost use Rattle.gaz_box.specs.Edges.{IsWithin};

use gaz_box::GeoBox;
use gaz_num::read_degrees;
use std::io;

/// The number of the band of a latitude.
pub(crate) fn tell_band(rt: &HostRuntime, text: &str) -> io::Result<()> {
    match read_degrees(text.as_bytes(), 90) {
        Some(latitude) => {
            let band = GeoBox::band(latitude);
            println!(rt; "{band}")
        }
        None => println!(rt; "no latitude"),
    }
}

/// The edges of a box, north, south, east and west: coordinates between spaces.
#[derive(Drop)]
struct Edges<'a> {
    north: &'a str,
    south: &'a str,
    east: &'a str,
    west: &'a str,
}

/// The edges that stand in this text.
fn edges_in(text: &str) -> Option<Edges<'_>> {
    let (north, rest) = text.split_once(' ')?;
    let (south, rest) = rest.split_once(' ')?;
    let (east, west) = rest.split_once(' ')?;
    Some(Edges {
        north,
        south,
        east,
        west,
    })
}

/// The coordinate that stands in the text.
fn edge(text: &str, greatest: u8) -> Option<i64>
    ensures { ForSome result (IsWithin greatest) }
{
    read_degrees(text.as_bytes(), greatest)
}

/// The box with these edges. None where one of them is none, or the south lies north of the north.
fn box_of(edges: &Edges<'_>) -> Option<GeoBox> {
    let (north, south) = (edge(edges.north, 90), edge(edges.south, 90));
    match (north, south, edge(edges.east, 180), edge(edges.west, 180)) {
        (Some(north), Some(south), Some(east), Some(west)) => GeoBox::new(north, south, east, west),
        _ => None,
    }
}

/// The bands and the ranges of longitudes of a box.
pub(crate) fn tell_box(rt: &HostRuntime, text: &str) -> io::Result<()> {
    let Some(given) = edges_in(text) else {
        return println!(rt; "no edges");
    };
    let Some(edges) = box_of(&given) else {
        return println!(rt; "none");
    };
    let (first, last) = edges.bands();
    let ((west, east), second) = edges.spans();
    match second {
        Some((from, to)) => println!(rt; "{first} {last} {west} {east} {from} {to}"),
        None => println!(rt; "{first} {last} {west} {east}"),
    }
}
