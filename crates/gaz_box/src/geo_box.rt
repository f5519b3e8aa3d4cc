//! A box of coordinates.
ghost use Rattle.gaz_box.specs.Edges.{IsBox};

/// 10^-12 degrees in a degree.
const DEGREE: i64 = 1_000_000_000_000;

/// The latitude of the south pole is minus this.
const POLE: i64 = 90 * DEGREE;

/// The longitude of the antimeridian, which is also minus this.
const ANTIMERIDIAN: i64 = 180 * DEGREE;

/// 10^-12 degrees in a band of latitudes, a quarter degree.
const BAND: u64 = 250_000_000_000;

/// A box of coordinates. Where west is greater than east it goes over the antimeridian.
#[derive(Clone, Copy, Debug, PartialEq, Eq)]
pub struct GeoBox {
    north: i64,
    south: i64,
    east: i64,
    west: i64,
    ghost on_globe: { IsBox (record { north = north; south = south; east = east; west = west }) },
}

impl GeoBox {
    ghost use Rattle.std.specs.Prelude.{◌≡◌, ◌≤◌, ◌≤ℤ◌, ◌↔◌, IsSome, IfSome};
    ghost use Rattle.gaz_box.specs.Edges.{IsWithin, wraps, has_latitude, has_longitude, in_box, band_of, spans_of};
    ghost use Rattle.gaz_box.specs.View.{edges_of};

    /// The box with these edges, or none where its south lies north of its north.
    pub fn new(north: i64, south: i64, east: i64, west: i64) -> Option<GeoBox>
        requires north { IsWithin 90 north }
        requires south { IsWithin 90 south }
        requires east { IsWithin 180 east }
        requires west { IsWithin 180 west }
        ensures some { IsSome result ↔ (south ≤ℤ north) }
        ensures edges { IfSome result (λ b. edges_of b ≡ record { north = north; south = south; east = east; west = west }) }
    {
        if south > north {
            return None;
        }
        Some(GeoBox {
            north,
            south,
            east,
            west,
        })
    }

    /// Whether its east lies west of its west.
    fn wraps(&self) -> bool
        ensures { result ≡ wraps (edges_of self.now) }
    {
        self.east < self.west
    }

    /// Whether the latitude lies between south and north.
    pub fn has_latitude(&self, latitude: i64) -> bool
        ensures { result ≡ has_latitude (edges_of self.now) latitude }
    {
        self.south <= latitude && latitude <= self.north
    }

    /// Whether the longitude lies between west and east, or, where the box goes over the antimeridian, beyond one of them.
    pub fn has_longitude(&self, longitude: i64) -> bool
        ensures { result ≡ has_longitude (edges_of self.now) longitude }
    {
        if self.wraps() {
            return longitude >= self.west || longitude <= self.east;
        }
        longitude >= self.west && longitude <= self.east
    }

    /// Whether the place lies in the box or on one of its edges.
    pub fn contains(&self, latitude: i64, longitude: i64) -> bool
        ensures { result ≡ in_box (edges_of self.now) latitude longitude }
    {
        self.has_latitude(latitude) && self.has_longitude(longitude)
    }

    /// The number of the band of a latitude: the whole quarter degrees from the south pole up to it.
    pub fn band(latitude: i64) -> u16
        requires { IsWithin 90 latitude }
        ensures value { result ≡ band_of latitude }
        ensures bound { result ≤ 720 }
    {
        ((latitude + POLE) as u64 / BAND) as u16
    }

    /// The bands of its south and its north.
    pub fn bands(&self) -> (u16, u16)
        ensures south { result.0 ≡ band_of (edges_of self.now).south }
        ensures north { result.1 ≡ band_of (edges_of self.now).north }
        ensures ordered { result.0 ≤ result.1 }
        ensures bound { result.1 ≤ 720 }
    {
        (GeoBox::band(self.south), GeoBox::band(self.north))
    }

    /// The closed ranges of its longitudes: one, or two where it goes over the antimeridian.
    pub fn spans(&self) -> ((i64, i64), Option<(i64, i64)>)
        ensures { result ≡ spans_of (edges_of self.now) }
    {
        if self.wraps() {
            return ((self.west, ANTIMERIDIAN), Some((-ANTIMERIDIAN, self.east)));
        }
        ((self.west, self.east), None)
    }
}
