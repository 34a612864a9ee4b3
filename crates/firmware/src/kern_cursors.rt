// The exported cursors over the subtables of kern and kerx: a cursor crosses as three numbers, a subtable as its fields.
ghost use Rattle.std.specs.Prelude.{◌≡◌};
ghost use Rattle.answers.specs.Numbers.{number_of};
ghost use Rattle.kerning_lists.specs.Cursors.{start_answer, reply_answer};
ghost use Rattle.kerning_lists.specs.Family.{list_call};
ghost use Rattle.kern.specs.Kern.{kern};
ghost use Rattle.kerx.specs.Kerx.{kerx};
ghost use Rattle.firmware.specs.KernCursors.{version_from, cursor_from, cursor_slots, start_cursor, cursor_behind, fields_of, reply_cursor, reply_fields, next_after};

use answers::Refusal;
use kerning_lists::{Cursor, NextSubtable};

// The numbers of a cursor: the place of its next subtable, how many are left, and the list's version.
fn put_cursor(slots: &mut [u64; 3], cursor: Cursor)
    ensures { slots.new ≡ cursor_slots cursor }
{
    *slots = [
        cursor.place as u64,
        cursor.left as u64,
        cursor.version as u64,
    ];
}

// The version that a number says; a wider one counts as the last.
#[tactic(auto, unfolding(crate::specs::KernCursors::version_from))]
fn version_from(number: u64) -> u16
    ensures { result ≡ version_from number }
{
    number.min(crate::steps::WIDEST) as u16
}

// The cursor that three numbers say.
#[tactic(auto)]
fn cursor_from(slots: &[u64; 3]) -> Cursor
    ensures { result ≡ cursor_from slots.now }
{
    Cursor {
        place: slots[0] as usize,
        left: slots[1] as usize,
        version: version_from(slots[2]),
    }
}

// The cursor at a list's start, and the number of the answer.
fn put_start(cursor: &mut [u64; 3], start: Result<Cursor, Refusal>) -> u32
    ensures answer { result ≡ number_of (start_answer start) }
    ensures cursor { cursor.new ≡ start_cursor start cursor.old }
{
    match start {
        Ok(first) => {
            put_cursor(cursor, first);
            0
        }
        Err(why) => u32::from(why),
    }
}

// The numbers of a subtable's head and the cursor behind it; at the end 0 each, and the cursor stays.
#[tactic(auto)]
fn put_subtable(cursor: &mut [u64; 3], fields: &mut [u64; 5], next: Option<NextSubtable>)
    ensures cursor { cursor.new ≡ cursor_behind next cursor.old }
    ensures fields { fields.new ≡ fields_of next }
{
    let Some(next) = next else {
        *fields = [0; 5];
        return;
    };
    let subtable = next.subtable;
    *fields = [
        1,
        subtable.body as u64,
        subtable.format as u64,
        u64::from(subtable.passed_over),
        u64::from(subtable.turned),
    ];
    put_cursor(cursor, next.next);
}

// What a list goes on with, and the number of the answer.
#[tactic(auto)]
fn put_next(
    cursor: &mut [u64; 3],
    fields: &mut [u64; 5],
    reply: Result<Option<NextSubtable>, Refusal>,
) -> u32
    ensures answer { result ≡ number_of (reply_answer reply) }
    ensures cursor { cursor.new ≡ reply_cursor reply cursor.old }
    ensures fields { fields.new ≡ reply_fields reply fields.old }
{
    match reply {
        Ok(next) => {
            put_subtable(cursor, fields, next);
            0
        }
        Err(why) => u32::from(why),
    }
}

// The cursor at the subtables of the kern table at `start`.
#[unsafe(no_mangle)]
pub extern "C" fn aat_kern_subtables(table: &[u8], start: usize, cursor: &mut [u64; 3]) -> u32
    ensures answer { result ≡ number_of (start_answer (list_call kern table.now start)) }
    ensures cursor { cursor.new ≡ start_cursor (list_call kern table.now start) cursor.old }
{
    put_start(cursor, kern::subtables(table, start))
}

// The cursor at the subtables of the kerx table at `start`.
#[unsafe(no_mangle)]
pub extern "C" fn aat_kerx_subtables(table: &[u8], start: usize, cursor: &mut [u64; 3]) -> u32
    ensures answer { result ≡ number_of (start_answer (list_call kerx table.now start)) }
    ensures cursor { cursor.new ≡ start_cursor (list_call kerx table.now start) cursor.old }
{
    put_start(cursor, kerx::subtables(table, start))
}

// The next subtable of a kern list.
#[unsafe(no_mangle)]
pub extern "C" fn aat_kern_next_subtable(
    table: &[u8],
    cursor: &mut [u64; 3],
    fields: &mut [u64; 5],
) -> u32
    ensures answer { result ≡ number_of (reply_answer (next_after kern table.now cursor.old)) }
    ensures cursor { cursor.new ≡ reply_cursor (next_after kern table.now cursor.old) cursor.old }
    ensures fields { fields.new ≡ reply_fields (next_after kern table.now cursor.old) fields.old }
{
    put_next(
        cursor,
        fields,
        kern::next_subtable(table, cursor_from(cursor)),
    )
}

// The next subtable of a kerx list.
#[unsafe(no_mangle)]
pub extern "C" fn aat_kerx_next_subtable(
    table: &[u8],
    cursor: &mut [u64; 3],
    fields: &mut [u64; 5],
) -> u32
    ensures answer { result ≡ number_of (reply_answer (next_after kerx table.now cursor.old)) }
    ensures cursor { cursor.new ≡ reply_cursor (next_after kerx table.now cursor.old) cursor.old }
    ensures fields { fields.new ≡ reply_fields (next_after kerx table.now cursor.old) fields.old }
{
    put_next(
        cursor,
        fields,
        kerx::next_subtable(table, cursor_from(cursor)),
    )
}
