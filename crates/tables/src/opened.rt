// A lookup table opened once for many glyphs.
ghost use Rattle.std.specs.Prelude.{◌≡◌, ◌≤◌};
ghost use Rattle.tables.specs.Opened.{most_in, opened_trimmed, opened_of, in_array, found_in, LiesIn};

use crate::lookup;
use crate::lookup::Why;
use crate::records::Format;

// An array, of which so many elements lie in the table.
#[derive(Clone, Copy)]
pub struct Array {
    pub base: u32,
    pub first: u16,
    pub count: usize,
}

// How many elements of an array at `base` can lie in the table.
#[tactic(auto, unfolding(crate::specs::Opened::most_in))]
fn most_in(bytes: &[u8], base: u32) -> usize
    ensures { result ≡ most_in bytes.now base }
{
    if bytes.len() < base as usize {
        return 0;
    }
    (bytes.len() - base as usize) / 2
}

#[tactic(auto, unfolding(crate::specs::Opened::opened_trimmed, crate::specs::Opened::opened_array))]
fn open_trimmed(bytes: &[u8], head: u16) -> Option<Array>
    ensures { result ≡ opened_trimmed bytes.now head }
{
    let first = parse::read_u16(bytes, head as usize)?;
    let count = parse::read_u16(bytes, head as usize + 2)?;
    let base = head as u32 + 4;
    let most = most_in(bytes, base);
    Some(Array {
        base,
        first,
        count: most.min(count as usize),
    })
}

// The lookup table that begins with `bytes`, where it is an array.
#[tactic(auto, unfolding(crate::specs::Opened::opened_of))]
pub fn open(bytes: &[u8]) -> Option<Array>
    ensures { result ≡ opened_of bytes.now }
{
    let number = parse::read_u16(bytes, 0)?;
    match Format::from(number) {
        Format::Simple => Some(Array {
            base: 2,
            first: 0,
            count: most_in(bytes, 2),
        }),
        Format::Trimmed(head) => open_trimmed(bytes, head),
        Format::Records(_) | Format::Unknown => None,
    }
}

// The element of a glyph in an array; why there is none is not told apart.
#[tactic(auto, unfolding(crate::specs::Opened::in_array, crate::specs::Opened::most_in))]
fn in_array(bytes: &[u8], array: Array, glyph: u16) -> Result<u16, Why>
    requires { array.count ≤ most_in bytes.now array.base }
    ensures { result ≡ in_array bytes.now array.base array.first array.count glyph }
{
    let index = lookup::index_in(array.first, array.count, glyph)?;
    Ok(parse::u16_at(bytes, array.base as usize + index * 2))
}

// The element of a glyph; why there is none is not told apart.
#[tactic(auto, unfolding(crate::specs::Opened::found_in))]
pub fn found_in(bytes: &[u8], opened: Option<Array>, glyph: u16) -> Result<u16, Why>
    requires { LiesIn bytes.now opened }
    ensures { result ≡ found_in bytes.now opened glyph }
{
    match opened {
        Some(array) => in_array(bytes, array, glyph),
        None => lookup::lookup_at(bytes, glyph).or(Err(Why::NotCovered)),
    }
}
