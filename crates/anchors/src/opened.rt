// An ankr table opened once for many glyphs.
ghost use Rattle.std.specs.Prelude.{◌≡◌, ◌+◌, ◌*◌, ◌≤◌, Some, drop};
ghost use Rattle.tables.specs.Lookup.{lookup_at};
ghost use Rattle.tables.specs.Opened.{opened_of, found_in, LiesIn};
ghost use Rattle.anchors.specs.Anchors.{points_of, point_at};
ghost use Rattle.anchors.specs.Opened.{anchors_from, anchors_in, anchors_of, part_of, nowhere, place_of, points_by, point_by};

use crate::Point;
use tables::opened::Array;
use tables::units::{Reading, Units};
use tables::{lookup, opened, units};

// The lookup is an array of words, opened, or one that is searched, and its numbers count from `origin` on; or it is anything else.
#[derive(Clone, Copy)]
pub enum Anchors {
    Words { origin: u32, array: Array },
    Searched { lookup: u32, origin: u32 },
    Other,
}

// Where a glyph's points begin that has none: no table is that long.
pub const NOWHERE: usize = 0x8000_0000_0000_0000;

// The lookup at `lookup`, of elements of two bytes.
fn open_words(ankr: &[u8], lookup: u32, origin: u32) -> Anchors
    ensures { result ≡ anchors_from lookup origin (opened_of (drop lookup ankr.now)) }
{
    match opened::open(parse::from(ankr, lookup as usize)) {
        Some(array) => Anchors::Words { origin, array },
        None => Anchors::Searched { lookup, origin },
    }
}

// The table from its lookup on.
#[tactic(auto, unfolding(crate::specs::Opened::part_of))]
pub fn part_of(ankr: &[u8]) -> &[u8]
    ensures { result.now ≡ part_of ankr.now }
{
    let lookup = parse::read_u32(ankr, crate::LOOKUP).unwrap_or(0);
    parse::from(ankr, lookup as usize)
}

// The table, by a reading.
#[tactic(auto, unfolding(crate::specs::Opened::anchors_of, crate::specs::Opened::anchors_in))]
pub fn open(reading: Reading, ankr: &[u8]) -> Anchors
    ensures { result ≡ anchors_of reading ankr.now }
{
    let Some(lookup) = parse::read_u32(ankr, crate::LOOKUP) else {
        return Anchors::Other;
    };
    let Some(origin) = parse::read_u32(ankr, crate::DATA) else {
        return Anchors::Other;
    };
    match units::units_by(reading, parse::from(ankr, lookup as usize)) {
        Ok(Units::Words) => open_words(ankr, lookup, origin),
        Ok(Units::Bytes { .. }) | Err(_) => Anchors::Other,
    }
}

// Where a glyph's points begin, by a lookup that is searched.
fn place_searched(ankr: &[u8], lookup: u32, origin: u32, glyph: u16) -> Option<usize>
    ensures { result ≡ points_by ankr.now origin (lookup_at (drop lookup ankr.now) glyph) }
{
    let number = lookup::lookup_at(parse::from(ankr, lookup as usize), glyph).ok()?;
    crate::counted(ankr, number as usize + origin as usize)
}

// Where a glyph's points begin. It answers a number, which a function that is called hands over in a register.
#[tactic(auto, using(crate::proofs::Openings::searched_points))]
pub fn place_in(reading: Reading, ankr: &[u8], anchors: Anchors, glyph: u16) -> usize
    requires { anchors ≡ anchors_of reading ankr.now }
    ensures { result ≡ place_of (points_of reading ankr.now glyph) }
{
    let place = match anchors {
        Anchors::Searched { lookup, origin } => place_searched(ankr, lookup, origin, glyph),
        Anchors::Words { .. } | Anchors::Other => crate::points_of(reading, ankr, glyph),
    };
    place.unwrap_or(NOWHERE)
}

// The point with a number of those that begin at a place.
pub fn point_from(ankr: &[u8], place: usize, number: u16) -> Option<Point>
    requires { place ≤ nowhere }
    ensures { result ≡ point_at ankr.now (place + number * 4) }
{
    crate::point_at(ankr, place + number as usize * crate::STRIDE)
}

// The point of a glyph with this number, by an opened lookup.
pub fn point_in(
    ankr: &[u8],
    part: &[u8],
    origin: u32,
    opened: Option<Array>,
    glyph: u16,
    number: u16,
) -> Option<Point>
    requires { LiesIn part.now opened }
    ensures { result ≡ point_by ankr.now origin number (found_in part.now opened glyph) }
{
    let begins = opened::found_in(part, opened, glyph).ok()?;
    point_from(ankr, begins as usize + origin as usize + 4, number)
}
