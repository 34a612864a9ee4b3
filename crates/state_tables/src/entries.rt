// The entry of a state and a class.
ghost use Rattle.std.specs.Prelude.{◌≡◌, ◌+◌, ◌*◌, ◌/◌, ◌<◌, ◌≤◌, ◌^◌, length};
ghost use Rattle.parse.specs.Reads.{u16_at};
ghost use Rattle.state_tables.specs.Entries.{read_narrow, entry_number, entry_at, by_row, resolved, entry_of};
ghost use Rattle.state_tables.specs.Rows.{is_classic, reached_in};

use crate::{Edition, States};

// An entry: the state that it leads to, its flags, and where its payload begins.
#[derive(Clone, Copy)]
pub struct Entry {
    pub state: u16,
    pub flags: u16,
    pub payload: usize,
}

// What a row and a class of a classic table give: the row that the entry leads to, by the number of its first cell, and the entry's flags.
#[derive(Clone, Copy)]
pub struct Reached {
    pub row: u32,
    pub flags: u16,
}

// The two numbers of a payload.
#[derive(Clone, Copy)]
pub struct Two {
    pub first: u16,
    pub second: u16,
}

// A byte, as a 16-bit number.
#[tactic(auto, unfolding(crate::specs::Entries::read_narrow))]
fn read_narrow(bytes: &[u8], at: usize) -> Option<u16>
    ensures { result ≡ read_narrow bytes.now at }
{
    Some(parse::read_u8(bytes, at)? as u16)
}

// The number of a state's cell for a class, counted over all rows; a class at or above the class count reaches into a later row.
fn cell_of(classes: u32, state: u16, class: u16) -> usize
    ensures { (result ≡ state * classes + class) × (result < 2 ^ 49) }
{
    state as usize * classes as usize + class as usize
}

// The number of the entry that stands in a cell: 16 bits in an extended table, a byte in a classic one.
#[tactic(auto, unfolding(crate::specs::Entries::entry_number, crate::specs::Entries::number_in))]
fn entry_number(bytes: &[u8], states: States, state: u16, class: u16) -> Option<u16>
    ensures { result ≡ entry_number bytes.now states state class }
{
    let cell = cell_of(states.classes, state, class);
    let array = states.array as usize;
    match states.edition {
        Edition::Extended { .. } => parse::read_u16(bytes, array + cell * 2),
        Edition::Classic { .. } => read_narrow(bytes, array + cell),
    }
}

// Where an entry begins: each has four bytes and its payload's.
fn entry_place(entries: u32, number: u16, payload: u16) -> usize
    ensures { (result ≡ entries + number * (4 + payload)) × (result < 2 ^ 49) }
{
    entries as usize + number as usize * (4 + payload as usize)
}

// The entry at a place, where all of it lies in the table.
#[tactic(auto, unfolding(crate::specs::Entries::entry_at, parse::specs::Parts::read_part, parse::specs::Reads::inside))]
fn entry_at(bytes: &[u8], place: usize, payload: u16) -> Option<Entry>
    ensures { result ≡ entry_at bytes.now place payload }
{
    parse::read_part(bytes, place, 4 + payload as usize)?;
    Some(Entry {
        state: parse::u16_at(bytes, place),
        flags: parse::u16_at(bytes, place + 2),
        payload: place + 4,
    })
}

// A classic entry names its new state by the byte offset of its row.
#[tactic(auto, unfolding(crate::specs::Entries::by_row))]
fn by_row(entry: Entry, array: u32, classes: u32) -> Option<Entry>
    ensures { result ≡ by_row entry array classes }
{
    let offset = (entry.state as u32).checked_sub(array)?;
    let state = offset.checked_div(classes)?;
    Some(Entry {
        state: state as u16,
        ..entry
    })
}

// The entry with the number of its new state.
#[tactic(auto, unfolding(crate::specs::Entries::resolved, crate::specs::Entries::resolved_in))]
fn resolved(states: States, entry: Entry) -> Option<Entry>
    ensures { result ≡ resolved states entry }
{
    match states.edition {
        Edition::Extended { .. } => Some(entry),
        Edition::Classic { .. } => by_row(entry, states.array, states.classes),
    }
}

// The entry of a state and a class, where each entry has `payload` bytes of payload: 0, 2 or 4.
#[tactic(auto, unfolding(crate::specs::Entries::entry_of))]
pub fn entry_of(bytes: &[u8], states: States, state: u16, class: u16, payload: u16) -> Option<Entry>
    ensures { result ≡ entry_of bytes.now states state class payload }
{
    let number = entry_number(bytes, states, state, class)?;
    let place = entry_place(states.entries, number, payload);
    let entry = entry_at(bytes, place, payload)?;
    resolved(states, entry)
}

// The number in a payload of 2 bytes.
pub fn one_number(bytes: &[u8], payload: usize) -> u16
    requires { payload + 2 ≤ length bytes.now }
    ensures { result ≡ u16_at bytes.now payload }
{
    parse::u16_at(bytes, payload)
}

// The numbers in a payload of 4 bytes.
pub fn two_numbers(bytes: &[u8], payload: usize) -> Two
    requires { payload + 4 ≤ length bytes.now }
    ensures { (result.first ≡ u16_at bytes.now payload) × (result.second ≡ u16_at bytes.now (payload + 2)) }
{
    Two {
        first: parse::u16_at(bytes, payload),
        second: parse::u16_at(bytes, payload + 2),
    }
}

// The first cell of the row that a cell is in.
// kept: one turn is enough, but as an `if` a step took 13 ns and so 5: a loop is a branch, foretold, so that nobody waits for the division
fn row_of(cell: u32, classes: u32) -> u32
    requires { 0 < classes }
    ensures { result ≡ cell / classes * classes }
{
    let mut row = cell;
    while row % classes != 0 {
        row -= row % classes;
    }
    row
}

// Whether a state table is a classic one.
pub fn is_classic(states: States) -> bool
    ensures { result ≡ is_classic states.edition }
{
    matches!(states.edition, Edition::Classic { .. })
}

// The entry of a row and a class, in a classic table whose entries have no payload: what `entry_of` gives for the row's state.
#[tactic(auto, unfolding(crate::specs::Rows::reached_in, crate::specs::Rows::row_of))]
pub fn reach(bytes: &[u8], states: States, row: u32, class: u16) -> Option<Reached>
    ensures { result ≡ reached_in bytes.now states row class }
{
    let cell = row as usize + class as usize;
    let number = read_narrow(bytes, states.array as usize + cell)?;
    let place = entry_place(states.entries, number, 0);
    let entry = entry_at(bytes, place, 0)?;
    let offset = (entry.state as u32).checked_sub(states.array)?;
    if states.classes == 0 {
        return None;
    }
    Some(Reached {
        row: row_of(offset, states.classes),
        flags: entry.flags,
    })
}
