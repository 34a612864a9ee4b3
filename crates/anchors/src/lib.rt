// The anchor points of glyphs, in an ankr table.
#![tactic(auto)]

ghost use Rattle.std.specs.Prelude.{◌≡◌, [], ◌∷◌, ◌-ℤ◌};
ghost use Rattle.answers.specs.Refuse.{refuse};
ghost use Rattle.anchors.specs.Anchors.{anchor_test, points_of, point_at, point_of};
ghost use Rattle.anchors.specs.Opened.{points_from};

use answers::Refusal;
use tables::units;
use tables::units::Reading;

pub mod opened;

// A point of a glyph.
#[derive(Clone, Copy)]
pub struct Point {
    pub x: i16,
    pub y: i16,
}

// Where the lookup and the points are told to begin, and the bytes of a point.
pub const LOOKUP: usize = 4;

pub const DATA: usize = 8;

pub const STRIDE: usize = 4;

// The test of an ankr table, which is no longer than any other.
#[tactic(auto, unfolding(answers::specs::Refuse::refuse, answers::specs::Limits::table_limit, crate::specs::Anchors::anchor_test))]
pub fn refuse_anchors(length: usize) -> Result<(), Refusal>
    ensures { result ≡ refuse (anchor_test length ∷ []) }
{
    if answers::TABLE_LIMIT < length {
        return Err(Refusal::Anchor);
    }
    Ok(())
}

// Where the points of a glyph begin, behind their count, which has to be there and is not looked at.
#[tactic(auto, unfolding(crate::specs::Anchors::points_of))]
fn points_of(reading: Reading, ankr: &[u8], glyph: u16) -> Option<usize>
    ensures { result ≡ points_of reading ankr.now glyph }
{
    let lookup = parse::read_u32(ankr, LOOKUP)?;
    let base = parse::read_u32(ankr, DATA)?;
    let number = units::lookup_by(reading, parse::from(ankr, lookup as usize), glyph).ok()?;
    counted(ankr, number as usize + base as usize)
}

// Where the points behind a count begin, where that can be read.
#[tactic(auto, using(parse::proofs::Laws::u32_value))]
fn counted(ankr: &[u8], place: usize) -> Option<usize>
    ensures { result ≡ points_from ankr.now place }
{
    parse::read_u32(ankr, place)?;
    Some(place + 4)
}

// The point at a place, where both its numbers lie in the table.
#[tactic(auto, unfolding(crate::specs::Anchors::point_at, parse::specs::Reads::read_i16, parse::specs::Reads::inside))]
fn point_at(ankr: &[u8], place: usize) -> Option<Point>
    ensures { result ≡ point_at ankr.now place }
{
    if ankr.len() < STRIDE || ankr.len() - STRIDE < place {
        return None;
    }
    Some(Point {
        x: parse::to_signed16(parse::u16_at(ankr, place)),
        y: parse::to_signed16(parse::u16_at(ankr, place + 2)),
    })
}

// The point of a glyph with this number.
#[tactic(auto, using(crate::proofs::Lying::points_lie), unfolding(crate::specs::Anchors::point_of))]
pub fn point_of(reading: Reading, ankr: &[u8], glyph: u16, number: u16) -> Option<Point>
    ensures { result ≡ point_of reading ankr.now glyph number }
{
    let place = points_of(reading, ankr, glyph)?;
    point_at(ankr, place + number as usize * STRIDE)
}

// How much a number is above another.
pub fn difference(a: i16, b: i16) -> i32
    ensures { result ≡ a -ℤ b }
{
    i32::from(a) - i32::from(b)
}
