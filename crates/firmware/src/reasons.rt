// The exported lookup and pairs that say why nothing was found.
ghost use Rattle.std.specs.Prelude.{◌≡◌};
ghost use Rattle.answers.specs.Numbers.{number_of};
ghost use Rattle.tables.specs.Lookup as Lookup;
ghost use Rattle.tables.specs.Lookup.{lookup_reply};
ghost use Rattle.pairs.specs.Reply as Pair;
ghost use Rattle.kerning_lists.specs.Family as List;
ghost use Rattle.kern.specs.Kern.{kern};
ghost use Rattle.kerx.specs.Kerx.{kerx};
ghost use Rattle.firmware.specs.Reasons.{why_number, why_of, lookup_why, pair_why};

use answers::Refusal;
use tables::lookup::Why;

// The number of a reason.
fn why_number(why: Why) -> u32
    ensures { result ≡ why_number why }
{
    match why {
        Why::NotCovered => 1,
        Why::CutShort => 2,
        Why::UnknownFormat => 3,
    }
}

// Puts the reason of a lookup's or a pair's reply where it was lent.
fn put_why<T: Copy>(reply: Result<Result<T, Why>, Refusal>, why: &mut u32)
    ensures { why.new ≡ why_of reply why.old }
{
    if let Ok(Err(reason)) = reply {
        *why = why_number(reason);
    }
}

// The element of a glyph in the lookup table at `start`, or why there is none.
#[unsafe(no_mangle)]
pub extern "C" fn aat_lookup_why(
    table: &[u8],
    start: usize,
    glyph: u16,
    value: &mut u32,
    why: &mut u32,
) -> u32
    ensures answer { result ≡ number_of (Lookup.answer_of (lookup_reply table.now start glyph)) }
    ensures value { value.new ≡ Lookup.value_of (lookup_reply table.now start glyph) value.old }
    ensures why { why.new ≡ lookup_why (lookup_reply table.now start glyph) why.old }
{
    let reply = tables::lookup::lookup(table, start, glyph);
    put_why(reply, why);
    crate::put_element(reply, value)
}

// The number of a pair of glyphs by the kern subtable at `start`, or why there is none.
#[unsafe(no_mangle)]
pub extern "C" fn aat_kern_pair_why(
    table: &[u8],
    start: usize,
    version: u16,
    left: u16,
    right: u16,
    value: &mut i32,
    why: &mut u32,
) -> u32
    ensures answer { result ≡ number_of (Pair.answer_of (List.pair_call kern table.now start version left right)) }
    ensures value { value.new ≡ Pair.value_of (List.pair_call kern table.now start version left right) value.old }
    ensures why { why.new ≡ pair_why (List.pair_call kern table.now start version left right) why.old }
{
    let reply = kern::pair(table, start, version, left, right);
    put_why(reply, why);
    crate::kern_steps::put_pair(reply, value)
}

// The number of a pair of glyphs by the kerx subtable at `start`, or why there is none.
#[unsafe(no_mangle)]
pub extern "C" fn aat_kerx_pair_why(
    table: &[u8],
    start: usize,
    version: u16,
    left: u16,
    right: u16,
    value: &mut i32,
    why: &mut u32,
) -> u32
    ensures answer { result ≡ number_of (Pair.answer_of (List.pair_call kerx table.now start version left right)) }
    ensures value { value.new ≡ Pair.value_of (List.pair_call kerx table.now start version left right) value.old }
    ensures why { why.new ≡ pair_why (List.pair_call kerx table.now start version left right) why.old }
{
    let reply = kerx::pair(table, start, version, left, right);
    put_why(reply, why);
    crate::kern_steps::put_pair(reply, value)
}
