// Sorted records, those of a lookup table and kerning pairs, and the one search over them.
ghost use Rattle.std.specs.Prelude.{◌≡◌, ℕ, ◌+◌, ◌<◌, ◌≤◌, ◌^◌, length};
ghost use Rattle.parse.specs.Reads.{u32_at};
ghost use Rattle.tables.specs.Records.{stride_of, record_place, pair_place, first_at, format_of};
ghost use Rattle.tables.specs.declared.records.Keys.TheVariants.{Pairs};
ghost use Rattle.tables.specs.Search.{against, side_of_range, side_of_array, side_of_single, side_of_record, side_of_pair, side_of, find, searched};

// The records of formats 2, 4 and 6: last, first, element; last, first, offset; glyph, element.
#[derive(Clone, Copy)]
pub enum Kind {
    Ranges,
    Arrays,
    Singles,
}

// What a search looks for: a glyph in the records of a lookup table, or a kerning pair, whose key is both its glyphs.
#[derive(Clone, Copy)]
pub enum Keys {
    Glyphs(Kind),
    Pairs,
}

// How a lookup table is laid out; of a trimmed array, where its first glyph stands.
#[derive(Clone, Copy)]
pub enum Format {
    Simple,
    Records(Kind),
    Trimmed(u16),
    Unknown,
}

// Where a key lies from a record.
#[derive(Clone, Copy)]
pub enum Side {
    Left,
    Here,
    Right,
    Cut,
}

// What a search finds: the number of a record, no record, or a record that is cut short.
#[derive(Clone, Copy)]
pub enum Spot {
    At(u32),
    Absent,
    Cut,
}

// The bytes of a record.
pub fn stride_of(kind: Kind) -> u16
    ensures { result ≡ stride_of kind }
{
    match kind {
        Kind::Ranges => 6,
        Kind::Arrays => 6,
        Kind::Singles => 4,
    }
}

// The format by its number.
impl From<u16> for Format {
    ghost from_gives = { λ number format. format ≡ format_of number };

    #[tactic(auto, unfolding(crate::specs::Records::format_of))]
    fn from(number: u16) -> Format
        ensures { result ≡ format_of number }
    {
        match number {
            0 => Format::Simple,
            2 => Format::Records(Kind::Ranges),
            4 => Format::Records(Kind::Arrays),
            6 => Format::Records(Kind::Singles),
            8 => Format::Trimmed(2),
            10 => Format::Trimmed(4),
            _ => Format::Unknown,
        }
    }
}

// Where record `index` begins, the first record being at `base`.
pub fn record_place(base: u16, kind: Kind, index: u32) -> usize
    ensures { (result ≡ record_place base kind index) × (result < 2 ^ 36) }
{
    match kind {
        Kind::Ranges | Kind::Arrays => base as usize + index as usize * 6,
        Kind::Singles => base as usize + index as usize * 4,
    }
}

// Where kerning pair `index` begins, the first pair being at `base`.
pub fn pair_place(base: u16, index: u32) -> usize
    ensures { (result ≡ pair_place base index) × (result < 2 ^ 36) }
{
    base as usize + index as usize * 6
}

// The first glyph of a record that lies in the table.
pub fn first_at(bytes: &[u8], kind: Kind, place: usize) -> u16
    requires { place + 4 ≤ length bytes.now }
    ensures { result ≡ first_at bytes.now kind place }
{
    match kind {
        Kind::Ranges | Kind::Arrays => parse::u16_at(bytes, place + 2),
        Kind::Singles => parse::u16_at(bytes, place),
    }
}

// Against last alone where that decides, as the crate reads format 2.
#[tactic(auto, using(parse::proofs::Laws::u16_inside), unfolding(crate::specs::Search::side_of_range))]
fn side_of_range(bytes: &[u8], place: usize, key: u32) -> Side
    ensures { result ≡ side_of_range bytes.now place key }
{
    let Some(last) = parse::read_u16(bytes, place) else {
        return Side::Cut;
    };
    if (last as u32) < key {
        return Side::Right;
    }
    let Some(first) = parse::read_u16(bytes, place + 2) else {
        return Side::Cut;
    };
    if key < first as u32 {
        return Side::Left;
    }
    Side::Here
}

// A key against the first and last glyph of a record, or the one key of a pair.
fn against(key: u32, first: u32, last: u32) -> Side
    ensures { result ≡ against key first last }
{
    if last < key {
        Side::Right
    } else if key < first {
        Side::Left
    } else {
        Side::Here
    }
}

// First and last are both read before either is compared, as the crate reads format 4.
#[tactic(auto, unfolding(crate::specs::Search::side_of_array))]
fn side_of_array(bytes: &[u8], place: usize, key: u32) -> Side
    requires { place < 2 ^ 36 }
    ensures { result ≡ side_of_array bytes.now place key }
{
    let Some(first) = parse::read_u16(bytes, place + 2) else {
        return Side::Cut;
    };
    let Some(last) = parse::read_u16(bytes, place) else {
        return Side::Cut;
    };
    against(key, first as u32, last as u32)
}

#[tactic(auto, unfolding(crate::specs::Search::side_of_single))]
fn side_of_single(bytes: &[u8], place: usize, key: u32) -> Side
    ensures { result ≡ side_of_single bytes.now place key }
{
    let Some(glyph) = parse::read_u16(bytes, place) else {
        return Side::Cut;
    };
    against(key, glyph as u32, glyph as u32)
}

// Both glyphs of a pair are one key, left before right.
#[tactic(auto, unfolding(crate::specs::Search::side_of_pair))]
fn side_of_pair(bytes: &[u8], place: usize, key: u32) -> Side
    ensures { result ≡ side_of_pair bytes.now place key }
{
    let Some(pair) = parse::read_u32(bytes, place) else {
        return Side::Cut;
    };
    against(key, pair, pair)
}

// Where a glyph lies from record `index` of a lookup table.
#[tactic(auto, unfolding(crate::specs::Search::side_of_record))]
fn side_of_record(bytes: &[u8], base: u16, kind: Kind, key: u32, index: u32) -> Side
    ensures { result ≡ side_of_record bytes.now base kind key index }
{
    let place = record_place(base, kind, index);
    match kind {
        Kind::Ranges => side_of_range(bytes, place, key),
        Kind::Arrays => side_of_array(bytes, place, key),
        Kind::Singles => side_of_single(bytes, place, key),
    }
}

// Where a key lies from record or pair `index`.
#[tactic(auto, unfolding(crate::specs::Search::side_of))]
fn side_of(bytes: &[u8], base: u16, keys: Keys, key: u32, index: u32) -> Side
    ensures { result ≡ side_of bytes.now base keys key index }
{
    match keys {
        Keys::Glyphs(kind) => side_of_record(bytes, base, kind, key, index),
        Keys::Pairs => side_of_pair(bytes, pair_place(base, index), key),
    }
}

// The crate's search by halves over so many records or pairs, by the side of each that it looks at.
// kept: `binary_search_by` and `partition_point` are methods of a slice of records, and these are read from bytes, some of them cut short.
pub(crate) fn halve<F: Fn(u32) -> Side>(count: u32, side: F) -> Spot
    requires { (i : ℕ) → i < count → F.pre side i }
    ensures { (sides : ℕ → Side) → ((i : ℕ) (s : Side) → i < count → F.post side i s → s ≡ sides i)
        → result ≡ find sides count 0 count }
{
    let mut lo: usize = 0;
    let mut hi = count as usize;
    while lo < hi {
        let mid = (lo + hi) / 2;
        match side(mid as u32) {
            Side::Left => hi = mid,
            Side::Right => lo = mid + 1,
            Side::Here => return Spot::At(mid as u32),
            Side::Cut => return Spot::Cut,
        }
    }
    Spot::Absent
}

// The search over records or pairs any of which may be cut short.
pub fn search(bytes: &[u8], base: u16, keys: Keys, count: u32, key: u32) -> Spot
    ensures { result ≡ searched bytes.now base keys count key }
{
    halve(count, |index| side_of(bytes, base, keys, key, index))
}

// The key of the pair at a place that is known to lie in the table.
fn pair_at(bytes: &[u8], place: usize) -> u32
    requires { place + 4 ≤ length bytes.now }
    ensures { result ≡ u32_at bytes.now place }
{
    parse::u16_at(bytes, place) as u32 * 65536 + parse::u16_at(bytes, place + 2) as u32
}

// The same search over pairs that are known to lie in the table, whose reads need no test.
// kept: by `halve` and a closure each turn makes a `Side` before it branches, and a search took 228 instructions where this loop takes 160.
pub fn search_inside(bytes: &[u8], base: u16, count: u32, key: u32) -> Spot
    requires { pair_place base count ≤ length bytes.now }
    ensures { result ≡ searched bytes.now base Pairs count key }
{
    let mut lo: usize = 0;
    let mut hi = count as usize;
    while lo < hi {
        let mid = (lo + hi) / 2;
        let pair = pair_at(bytes, base as usize + mid * 6);
        if key < pair {
            hi = mid;
        } else if pair < key {
            lo = mid + 1;
        } else {
            return Spot::At(mid as u32);
        }
    }
    Spot::Absent
}
