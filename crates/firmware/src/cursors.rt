// The exported cursors over a morx table's chains, features and subtables: a cursor crosses as two numbers, an element as its fields.
ghost use Rattle.std.specs.Prelude.{◌≡◌};
ghost use Rattle.answers.specs.Numbers.{number_of};
ghost use Rattle.chains.specs.Orders.{order_of, order_number};
ghost use Rattle.chains.specs.Entries.{chains_call, chains_answer, chain_answer, feature_answer, subtable_answer};
ghost use Rattle.firmware.specs.Cursors.{cursor_from, cursor_slots, start_cursor, chain_after, chain_cursor, chain_fields, cursor_behind_chain, fields_of_chain, feature_after, feature_cursor, feature_fields};
ghost use Rattle.firmware.specs.Cursors.{cursor_behind_feature, fields_of_feature, subtable_after, subtable_cursor, subtable_fields, cursor_behind_subtable, fields_of_subtable, reversed_number};

use answers::Answer;
use chains::{Chain, Cursor, Edition, Feature, Subtable};

// The numbers of a cursor: the place of its next element, and how many are left.
fn put_cursor(slots: &mut [u64; 2], cursor: Cursor)
    ensures { slots.new ≡ cursor_slots cursor }
{
    *slots = [cursor.place as u64, cursor.left as u64];
}

// The cursor that two numbers say.
fn cursor_from(slots: &[u64; 2]) -> Cursor
    ensures { result ≡ cursor_from slots.now }
{
    Cursor {
        place: slots[0] as usize,
        left: slots[1] as usize,
    }
}

// The cursor at the chains of the morx table at `start`.
#[unsafe(no_mangle)]
pub extern "C" fn aat_morx_chains(table: &[u8], start: usize, cursor: &mut [u64; 2]) -> u32
    ensures answer { result ≡ number_of (chains_answer (chains_call table.now start)) }
    ensures cursor { cursor.new ≡ start_cursor (chains_call table.now start) cursor.old }
{
    match chains::chains(table, start) {
        Ok(first) => {
            put_cursor(cursor, first);
            0
        }
        Err(why) => u32::from(why),
    }
}

// The numbers of a chain and the cursor behind it; at the end 0 each, and the cursor stays.
#[tactic(auto)]
fn put_chain(cursor: &mut [u64; 2], fields: &mut [u64; 6], next: Option<Chain>)
    ensures cursor { cursor.new ≡ cursor_behind_chain next cursor.old }
    ensures fields { fields.new ≡ fields_of_chain next }
{
    let Some(chain) = next else {
        *fields = [0; 6];
        return;
    };
    *fields = [
        1,
        chain.flags as u64,
        chain.features.place as u64,
        chain.features.left as u64,
        chain.subtables.place as u64,
        chain.subtables.left as u64,
    ];
    put_cursor(cursor, chain.next);
}

// The next chain of a list of an edition.
pub fn next_chain(
    edition: Edition,
    table: &[u8],
    cursor: &mut [u64; 2],
    fields: &mut [u64; 6],
) -> u32
    ensures answer { result ≡ number_of (chain_answer (chain_after edition table.now cursor.old)) }
    ensures cursor { cursor.new ≡ chain_cursor (chain_after edition table.now cursor.old) cursor.old }
    ensures fields { fields.new ≡ chain_fields (chain_after edition table.now cursor.old) fields.old }
{
    let given = cursor_from(cursor);
    match chains::next_chain(edition, table, given) {
        Ok(next) => {
            put_chain(cursor, fields, next);
            0
        }
        Err(why) => u32::from(why),
    }
}

// The next chain of a list.
#[unsafe(no_mangle)]
pub extern "C" fn aat_morx_next_chain(
    table: &[u8],
    cursor: &mut [u64; 2],
    fields: &mut [u64; 6],
) -> u32
    ensures answer { result ≡ number_of (chain_answer (chain_after Edition.Morx table.now cursor.old)) }
    ensures cursor { cursor.new ≡ chain_cursor (chain_after Edition.Morx table.now cursor.old) cursor.old }
    ensures fields { fields.new ≡ chain_fields (chain_after Edition.Morx table.now cursor.old) fields.old }
{
    next_chain(Edition::Morx, table, cursor, fields)
}

// The numbers of a feature and the cursor behind it; at the end 0 each, and the cursor stays.
#[tactic(auto)]
fn put_feature(cursor: &mut [u64; 2], fields: &mut [u64; 5], next: Option<Feature>)
    ensures cursor { cursor.new ≡ cursor_behind_feature next cursor.old }
    ensures fields { fields.new ≡ fields_of_feature next }
{
    let Some(feature) = next else {
        *fields = [0; 5];
        return;
    };
    *fields = [
        1,
        feature.selector as u64,
        feature.setting as u64,
        feature.enable as u64,
        feature.disable as u64,
    ];
    put_cursor(cursor, feature.next);
}

// The next feature of a list.
#[unsafe(no_mangle)]
pub extern "C" fn aat_morx_next_feature(
    table: &[u8],
    cursor: &mut [u64; 2],
    fields: &mut [u64; 5],
) -> u32
    ensures answer { result ≡ number_of (feature_answer (feature_after table.now cursor.old)) }
    ensures cursor { cursor.new ≡ feature_cursor (feature_after table.now cursor.old) cursor.old }
    ensures fields { fields.new ≡ feature_fields (feature_after table.now cursor.old) fields.old }
{
    let given = cursor_from(cursor);
    match chains::next_feature(table, given) {
        Ok(next) => {
            put_feature(cursor, fields, next);
            0
        }
        Err(why) => u32::from(why),
    }
}

// The numbers of a subtable's head and the cursor behind it; at the end 0 each, and the cursor stays.
#[tactic(auto)]
fn put_subtable(cursor: &mut [u64; 2], fields: &mut [u64; 6], next: Option<Subtable>)
    ensures cursor { cursor.new ≡ cursor_behind_subtable next cursor.old }
    ensures fields { fields.new ≡ fields_of_subtable next }
{
    let Some(subtable) = next else {
        *fields = [0; 6];
        return;
    };
    *fields = [
        1,
        subtable.place as u64,
        subtable.coverage as u64,
        subtable.flags as u64,
        subtable.kind as u64,
        chains::order_number(subtable.order) as u64,
    ];
    put_cursor(cursor, subtable.next);
}

// The next subtable of a list of an edition.
pub fn next_subtable(
    edition: Edition,
    table: &[u8],
    cursor: &mut [u64; 2],
    fields: &mut [u64; 6],
) -> u32
    ensures answer { result ≡ number_of (subtable_answer (subtable_after edition table.now cursor.old)) }
    ensures cursor { cursor.new ≡ subtable_cursor (subtable_after edition table.now cursor.old) cursor.old }
    ensures fields { fields.new ≡ subtable_fields (subtable_after edition table.now cursor.old) fields.old }
{
    let given = cursor_from(cursor);
    match chains::next_subtable(edition, table, given) {
        Ok(next) => {
            put_subtable(cursor, fields, next);
            0
        }
        Err(why) => u32::from(why),
    }
}

// The next subtable of a list.
#[unsafe(no_mangle)]
pub extern "C" fn aat_morx_next_subtable(
    table: &[u8],
    cursor: &mut [u64; 2],
    fields: &mut [u64; 6],
) -> u32
    ensures answer { result ≡ number_of (subtable_answer (subtable_after Edition.Morx table.now cursor.old)) }
    ensures cursor { cursor.new ≡ subtable_cursor (subtable_after Edition.Morx table.now cursor.old)
        cursor.old }
    ensures fields { fields.new ≡ subtable_fields (subtable_after Edition.Morx table.now cursor.old)
        fields.old }
{
    next_subtable(Edition::Morx, table, cursor, fields)
}

// The number of the order that a coverage asks for.
#[unsafe(no_mangle)]
pub extern "C" fn aat_morx_order(coverage: u32, order: &mut u32) -> u32
    ensures answer { result ≡ number_of Answer.Done }
    ensures order { order.new ≡ order_number (order_of coverage) }
{
    *order = chains::order_number(chains::order_of(coverage));
    0
}

// Whether a line of this direction is turned for a subtable of this coverage.
#[tactic(auto, unfolding(crate::specs::Cursors::reversed_number))]
#[unsafe(no_mangle)]
pub extern "C" fn aat_morx_should_reverse(
    coverage: u32,
    right_to_left: u32,
    reversed: &mut u32,
) -> u32
    ensures answer { result ≡ number_of Answer.Done }
    ensures reversed { reversed.new ≡ reversed_number coverage right_to_left }
{
    let order = chains::order_of(coverage);
    *reversed = u32::from(chains::should_reverse(order, right_to_left != 0));
    0
}
