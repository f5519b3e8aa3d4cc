//! Bands and ranges find every place of a box. To call one of these is to know it; none does anything.
ghost use Rattle.gaz_box.specs.Laws.{BandsCover, SpansCover, BoxBySpans, PlacesAreSought};

/// The band of each latitude in a box is one of its bands.
pub fn bands_cover()
    ensures { BandsCover }
{}

/// A longitude passes the box test exactly where it lies in one of the ranges.
pub fn spans_cover()
    ensures { SpansCover }
{}

/// What an index by bands and longitudes rests on: each place of a box lies in its bands and ranges, and of the places there
/// those are in the box that pass the latitude test.
pub fn index_finds()
    ensures tested { BoxBySpans }
    ensures sought { PlacesAreSought }
{
    bands_cover();
    spans_cover();
}
