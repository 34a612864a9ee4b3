// Kerning pairs, for kern and kerx alike: ordered pairs (format 0 of both) and class pairs (kerx format 2).
#![tactic(auto)]

ghost use Rattle.std.specs.Prelude.{◌≡◌, ℕ, true, false, ◌+◌, ◌-◌, ◌<◌, ◌≤◌, ◌^◌, length, Result, ℤ};
ghost use Rattle.tables.specs.declared.lookup.Why.{Why};
ghost use Rattle.answers.specs.Limits.{room_limit};
ghost use Rattle.tables.specs.Records.{pair_place};
ghost use Rattle.tables.specs.Opened.{LiesIn};
ghost use Rattle.kerning.specs.Additions.{add_all};
ghost use Rattle.kerning.specs.Bounds.{Within};
ghost use Rattle.pairs.specs.Reply.{reply_of};
ghost use Rattle.pairs.specs.Pass.{is_counted, counts, pairs_below, worked_by};
ghost use Rattle.pairs.specs.Pairs.{key_of, ordered_kern, ordered_kerx, classes_kerx, number_at, number_in, ordered_number, class_number, pair_number};
ghost use Rattle.pairs.specs.Work.{in_words, is_plain, opened_number, FirstFrom, added, stretch, Gives};

use answers::{Answer, Refusal};
use kerning::choices::PairRule;
use kerning::heads::Unready;
use tables::lookup::Why;
use tables::opened::Array;
use tables::records::{Keys, Spot};
use tables::units::{Reading, Units};
use tables::{opened, records, units};

// Where a subtable's pairs lie, from its own start on: as many ordered pairs as counted, or the left glyphs' rows, the right
// ones' columns, and the array; rows and columns are read by a reading.
// kept: the theorems on pairs (`promises/Demand2.antt`) speak of these variants by their numbers, and not of structs.
#[derive(Clone, Copy)]
pub enum PairTable {
    Ordered {
        first: u16,
        count: u32,
    },
    Classes {
        rows: u32,
        columns: u32,
        array: u32,
        reading: Reading,
    },
}

// kern format 0: the count stands right behind the head, the pairs 8 bytes further on.
#[tactic(auto, unfolding(crate::specs::Pairs::ordered_kern))]
pub fn ordered_kern(bytes: &[u8], head: u16) -> Result<PairTable, Unready>
    requires { head < 65528 }
    ensures { result ≡ ordered_kern bytes.now head }
{
    let count = parse::read_u16(bytes, head as usize).ok_or(Unready::Short)?;
    Ok(PairTable::Ordered {
        first: head + 8,
        count: u32::from(count),
    })
}

// kerx format 0.
#[tactic(auto, unfolding(crate::specs::Pairs::ordered_kerx))]
pub fn ordered_kerx(bytes: &[u8]) -> Result<PairTable, Unready>
    ensures { result ≡ ordered_kerx bytes.now }
{
    let count = parse::read_u32(bytes, 12).ok_or(Unready::Short)?;
    Ok(PairTable::Ordered { first: 28, count })
}

// kerx format 2.
#[tactic(auto, unfolding(crate::specs::Pairs::classes_kerx))]
pub fn classes_kerx(bytes: &[u8], reading: Reading) -> Result<PairTable, Unready>
    ensures { result ≡ classes_kerx bytes.now reading }
{
    let rows = parse::read_u32(bytes, 16).ok_or(Unready::Short)?;
    let columns = parse::read_u32(bytes, 20).ok_or(Unready::Short)?;
    let array = parse::read_u32(bytes, 24).ok_or(Unready::Short)?;
    Ok(PairTable::Classes {
        rows,
        columns,
        array,
        reading,
    })
}

// The number at a place.
#[tactic(auto, unfolding(crate::specs::Pairs::number_at))]
fn number_at(bytes: &[u8], place: usize) -> Result<i16, Why>
    ensures { result ≡ number_at bytes.now place }
{
    parse::read_i16(bytes, place).ok_or(Why::CutShort)
}

// Both glyphs as one key.
fn key_of(left: u16, right: u16) -> u32
    ensures { result ≡ key_of left right }
{
    left as u32 * 65536 + right as u32
}

// The number of the pair that a search found.
#[tactic(auto, unfolding(crate::specs::Pairs::number_in))]
fn number_in(bytes: &[u8], first: u16, spot: Spot) -> Result<i16, Why>
    ensures { result ≡ number_in bytes.now first spot }
{
    match spot {
        Spot::At(index) => number_at(bytes, records::pair_place(first, index) + 4),
        Spot::Absent => Err(Why::NotCovered),
        Spot::Cut => Err(Why::CutShort),
    }
}

// The number of a pair among ordered pairs.
#[tactic(auto, unfolding(crate::specs::Pairs::ordered_number))]
fn ordered_number(bytes: &[u8], first: u16, count: u32, left: u16, right: u16) -> Result<i16, Why>
    ensures { result ≡ ordered_number bytes.now first count left right }
{
    let spot = records::search(bytes, first, Keys::Pairs, count, key_of(left, right));
    number_in(bytes, first, spot)
}

// The number of a pair by its classes: the left glyph's gives the row, the right one's the column, both in bytes.
#[tactic(auto, unfolding(crate::specs::Pairs::class_number, crate::specs::Pairs::number_in_row))]
fn class_number(
    bytes: &[u8],
    rows: u32,
    columns: u32,
    array: u32,
    reading: Reading,
    left: u16,
    right: u16,
) -> Result<i16, Why>
    ensures { result ≡ class_number bytes.now rows columns array reading left right }
{
    let row = units::lookup_by(reading, parse::from(bytes, rows as usize), left)?;
    let column = units::lookup_by(reading, parse::from(bytes, columns as usize), right)?;
    number_at(bytes, array as usize + row as usize + column as usize)
}

// The number of a pair of glyphs.
#[tactic(auto, unfolding(crate::specs::Pairs::pair_number))]
pub fn number_of(bytes: &[u8], pairs: PairTable, left: u16, right: u16) -> Result<i16, Why>
    ensures { result ≡ pair_number bytes.now pairs left right }
{
    match pairs {
        PairTable::Ordered { first, count } => ordered_number(bytes, first, count, left, right),
        PairTable::Classes {
            rows,
            columns,
            array,
            reading,
        } => class_number(bytes, rows, columns, array, reading, left, right),
    }
}

// The answer for a pair by the subtable that begins with `bytes`, of which `opened` is what opening its pairs gives.
#[tactic(auto, unfolding(crate::specs::Reply::reply_of))]
pub fn reply(
    bytes: &[u8],
    opened: Result<PairTable, Unready>,
    left: u16,
    right: u16,
) -> Result<Result<i16, Why>, Refusal>
    ensures { result ≡ reply_of bytes.now opened left right }
{
    let pairs = opened?;
    Ok(number_of(bytes, pairs, left, right))
}

// The number of a deleted glyph.
const DELETED: u16 = 0xFFFF;

// Whether the place of a glyph counts.
fn counts(rule: PairRule, glyph: u16) -> bool
    ensures { result ≡ is_counted rule glyph }
{
    match rule {
        PairRule::Neighbours => true,
        PairRule::Joined => glyph < DELETED,
    }
}

// The first place from `from` on that counts or does not, or the line's end.
fn next_place(rule: PairRule, so: bool, glyphs: &[u16], used: usize, from: usize) -> usize
    requires { used ≤ length glyphs.now }
    ensures { FirstFrom (counts rule glyphs.now) so from used result }
{
    for place in from..used {
        if counts(rule, glyphs[place]) == so {
            return place;
        }
    }
    used
}

// Where the stretch that begins at `from` ends: at the first place that does not count, of which neighbours have none.
#[tactic(auto, using(crate::proofs::Scans::none_skipped))]
fn stretch_end(rule: PairRule, glyphs: &[u16], used: usize, from: usize) -> usize
    requires { used ≤ length glyphs.now }
    ensures { FirstFrom (counts rule glyphs.now) false from used result }
{
    match rule {
        PairRule::Neighbours => used,
        PairRule::Joined => next_place(rule, false, glyphs, used, from),
    }
}

// What a pair gives is added to the place of its left glyph.
#[tactic(auto, using(crate::proofs::Passes::within_added), unfolding(kerning::specs::Additions::add_all))]
fn add_number(along: &mut [i64], place: usize, number: Option<i16>)
    requires { (place < length along.old) × Within (2 ^ 62) along.old }
    ensures along { along.new ≡ add_all (added place number) along.old }
    ensures small { (b : ℕ) → Within b along.old → Within (b + 32768) along.new }
{
    if let Some(amount) = number {
        kerning::add(along, place, amount);
    }
}

// A stretch of places, each with the one before it and the first with `before`: what `number` gives for the two glyphs is added.
fn add_each<F: Fn(u16, u16) -> Option<i16>>(
    number: F,
    glyphs: &[u16],
    before: usize,
    from: usize,
    stop: usize,
    along: &mut [i64],
)
    requires callable { F.IsAlwaysCallable number }
    requires places { (before < from) × (from ≤ stop) × (stop ≤ length glyphs.now) × (stop ≤ length along.old) × (stop ≤ room_limit) × Within (2 ^ 61)
        along.old }
    ensures { (numbers : (left right : ℕ) → Result ℤ Why) → Gives (F.post number) numbers
        → along.new ≡ add_all (stretch numbers glyphs.now before from (stop - from))
        along.old }
{
    let mut left = before;
    for place in from..stop {
        add_number(along, left, number(glyphs[left], glyphs[place]));
        left = place;
    }
}

// The number of a pair among ordered pairs that all lie in the table.
#[tactic(auto, unfolding(crate::specs::Pairs::ordered_number))]
fn inside_number(bytes: &[u8], first: u16, count: u32, left: u16, right: u16) -> Result<i16, Why>
    requires { pair_place first count ≤ length bytes.now }
    ensures { result ≡ ordered_number bytes.now first count left right }
{
    let spot = records::search_inside(bytes, first, count, key_of(left, right));
    number_in(bytes, first, spot)
}

// The number of a pair by its classes, whose tables are opened; why there is none is not told.
#[tactic(auto, unfolding(crate::specs::Work::opened_number))]
fn opened_number(
    bytes: &[u8],
    rows: &[u8],
    left_rows: Option<Array>,
    columns: &[u8],
    right_columns: Option<Array>,
    array: u32,
    left: u16,
    right: u16,
) -> Option<i16>
    requires { LiesIn rows.now left_rows × LiesIn columns.now right_columns }
    ensures { result ≡ opened_number bytes.now rows.now left_rows columns.now right_columns array left right }
{
    let row = opened::found_in(rows, left_rows, left).ok()?;
    let column = opened::found_in(columns, right_columns, right).ok()?;
    number_at(bytes, array as usize + row as usize + column as usize).ok()
}

// Whether rows and columns both have elements of two bytes, by a reading.
#[tactic(auto, unfolding(crate::specs::Work::in_words))]
fn in_words(bytes: &[u8], rows: u32, columns: u32, reading: Reading) -> bool
    ensures { result ≡ in_words bytes.now rows columns reading }
{
    matches!(
        units::units_by(reading, parse::from(bytes, rows as usize)),
        Ok(Units::Words)
    ) && matches!(
        units::units_by(reading, parse::from(bytes, columns as usize)),
        Ok(Units::Words)
    )
}

// Whether the pairs are ordered ones that all lie in the table, or classes in elements of two bytes, each of which have a loop of their own.
#[tactic(auto, unfolding(crate::specs::Work::is_plain))]
fn is_plain(bytes: &[u8], pairs: PairTable) -> bool
    ensures { result ≡ is_plain bytes.now pairs }
{
    match pairs {
        PairTable::Ordered { first, count } => records::pair_place(first, count) <= bytes.len(),
        PairTable::Classes {
            rows,
            columns,
            reading,
            ..
        } => in_words(bytes, rows, columns, reading),
    }
}

// A stretch by whatever pairs.
#[tactic(auto, using(crate::proofs::Passes::plain_ordered, crate::proofs::Passes::opens_inside))]
fn add_stretch(
    bytes: &[u8],
    pairs: PairTable,
    glyphs: &[u16],
    before: usize,
    from: usize,
    stop: usize,
    along: &mut [i64],
)
    requires { (before < from) × (from ≤ stop) × (stop ≤ length glyphs.now) × (stop ≤ length along.old) × (stop ≤ room_limit) × Within (2 ^ 61)
        along.old }
    ensures { along.new ≡ add_all (stretch (pair_number bytes.now pairs) glyphs.now before from (stop - from))
        along.old }
{
    if !is_plain(bytes, pairs) {
        let number = |left: u16, right: u16| number_of(bytes, pairs, left, right).ok();
        add_each(number, glyphs, before, from, stop, along);
        return;
    }
    match pairs {
        PairTable::Ordered { first, count } => {
            let number = |left: u16, right: u16| inside_number(
                bytes, first, count, left, right,
            ).ok();
            add_each(number, glyphs, before, from, stop, along);
        }
        PairTable::Classes {
            rows,
            columns,
            array,
            ..
        } => {
            let lefts = parse::from(bytes, rows as usize);
            let rights = parse::from(bytes, columns as usize);
            let left_rows = opened::open(lefts);
            let right_columns = opened::open(rights);
            let number = |left: u16, right: u16| {
                opened_number(
                    bytes,
                    lefts,
                    left_rows,
                    rights,
                    right_columns,
                    array,
                    left,
                    right,
                )
            };
            add_each(number, glyphs, before, from, stop, along);
        }
    }
}

// The pairs of a line, stretch by stretch of places that count.
fn add_pairs(
    bytes: &[u8],
    pairs: PairTable,
    glyphs: &[u16],
    used: usize,
    along: &mut [i64],
    rule: PairRule,
)
    requires { (used ≤ length glyphs.now) × (used ≤ length along.old) × (used ≤ room_limit) × Within (2 ^ 60) along.old }
    ensures { along.new ≡ add_all (pairs_below (counts rule glyphs.now) (pair_number bytes.now pairs) glyphs.now
        used) along.old }
{
    let mut before = next_place(rule, true, glyphs, used, 0);
    let mut from = next_place(rule, true, glyphs, used, before + 1);
    // kept: each round goes on where the stretch that it found ends, so no range gives its places.
    while from < used {
        let stop = stretch_end(rule, glyphs, used, from);
        add_stretch(bytes, pairs, glyphs, before, from, stop, along);
        before = stop - 1;
        from = next_place(rule, true, glyphs, used, stop);
    }
}

// The pair pass by the subtable that begins with `bytes`, of which `opened` is what opening its pairs gives.
#[tactic(auto, unfolding(crate::specs::Pass::worked_by, kerning::specs::Additions::add_all))]
pub fn work(
    bytes: &[u8],
    opened: Result<PairTable, Unready>,
    glyphs: &[u16],
    used: usize,
    along: &mut [i64],
    rule: PairRule,
) -> Answer
    requires { (used ≤ length glyphs.now) × (used ≤ length along.old) × (used ≤ room_limit) × Within (2 ^ 60) along.old }
    ensures answer { result ≡ (worked_by bytes.now opened glyphs.now used rule).answer }
    ensures along { along.new ≡ add_all (worked_by bytes.now opened glyphs.now used rule).additions along.old }
{
    match opened {
        Ok(pairs) => {
            add_pairs(bytes, pairs, glyphs, used, along, rule);
            Answer::Done
        }
        Err(why) => Answer::Refused(Refusal::from(why)),
    }
}
