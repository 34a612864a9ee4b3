// The exported steps: a state crosses as numbers, and comes back in the same place.
ghost use Rattle.std.specs.Prelude.{◌≡◌, ◌+◌, ◌≤◌, true, length, None};
ghost use Rattle.answers.specs.Numbers.{number_of};
ghost use Rattle.line.specs.Line.{line_of};
ghost use Rattle.firmware.specs.Steps.{is_refused, no_rearrangement, rearrangement_from, window_slots, rearrangement_stepped, flag_number, no_context, contextual_from, contextual_stepped, contextual_leaves};
ghost use Rattle.firmware.specs.Steps.{no_insertion, insertion_from, insertion_stepped, edit_slots, slot_count, places_begin, glyphs_begin, no_ligature, slots_from, are_glyphs, ligature_from, ligature_slots};
ghost use Rattle.firmware.specs.Steps.{ligature_stepped, ligature_leaves, rearrangement_state, rearrangement_advance, rearrangement_window, contextual_state, advance_by, insertion_state, insertion_advance};
ghost use Rattle.firmware.specs.Steps.{insertion_edits, ligature_state};
ghost use Rattle.std.proofs.Math.Seq.{paste};

use answers::Answer;
use contextual::ContextualState;
use insertion::{Insertion, InsertionState};
use ligature::LigatureState;
use rearrangement::{RearrangementState, Window};

// The largest number of a 16-bit field.
pub const WIDEST: u64 = 0xFFFF;

// The slots of a ligature's stack, and its state as numbers: the state table's, the depth, so many places, so many glyphs.
const SLOTS: usize = LigatureState::DEPTH;

const PLACES: usize = 2;

const GLYPHS: usize = PLACES + SLOTS;

const NUMBERS: usize = GLYPHS + SLOTS;

// Whether an answer is a refusal.
pub fn is_refused(answer: Answer) -> bool
    ensures { result ≡ is_refused answer }
{
    matches!(answer, Answer::Refused(_))
}

// The state that STATE refuses.
fn no_rearrangement() -> RearrangementState
    ensures { result ≡ no_rearrangement }
{
    RearrangementState {
        state: 0,
        first: 0,
        last: 0,
        cycles: 0xFFFF,
    }
}

// The state that four numbers say: state, first, last, cycles.
#[tactic(auto, unfolding(crate::specs::Steps::rearrangement_from))]
fn rearrangement_from(slots: &[u64; 4]) -> RearrangementState
    ensures { result ≡ rearrangement_from slots.now }
{
    let state = slots[0];
    let cycles = slots[3];
    if WIDEST < state {
        return no_rearrangement();
    }
    if WIDEST < cycles {
        return no_rearrangement();
    }
    RearrangementState {
        state: state as u16,
        first: slots[1] as usize,
        last: slots[2] as usize,
        cycles: cycles as u16,
    }
}

// The numbers of a window: first, last, verb; without an edit 0 each.
#[tactic(auto)]
fn put_window(slots: &mut [u64; 3], window: Option<Window>)
    ensures { slots.new ≡ window_slots window }
{
    *slots = match window {
        Some(window) => [window.first as u64, window.last as u64, window.verb as u64],
        None => [0; 3],
    };
}

// A lone step of the rearrangement machine.
#[unsafe(no_mangle)]
#[tactic(auto, using(crate::proofs::Stepping::numbered, crate::proofs::Stepping::kept, crate::proofs::Stepping::put, crate::proofs::Stepping::rearrangement_is))]
pub extern "C" fn aat_rearrangement_step(
    state: &mut [u64; 4],
    table: &[u8],
    start: usize,
    used: usize,
    index: usize,
    glyph: u16,
    ends: u32,
    advance: &mut usize,
    window: &mut [u64; 3],
) -> u32
    ensures answer { result ≡ number_of (rearrangement_stepped table.now start state.old used index glyph ends).answer }
    ensures state { state.new ≡ rearrangement_state (rearrangement_stepped table.now start state.old used index glyph ends)
        state.old }
    ensures advance { advance.new ≡ rearrangement_advance (rearrangement_stepped table.now start state.old used index glyph
        ends) advance.old }
    ensures window { window.new ≡ rearrangement_window (rearrangement_stepped table.now start state.old used index glyph
        ends) window.old }
{
    let given = rearrangement_from(state);
    let step = given.step(table, start, used, index, glyph, ends != 0);
    let answer = step.answer;
    if is_refused(answer) {
        return u32::from(answer);
    }
    let after = step.state;
    *state = [
        after.state as u64,
        after.first as u64,
        after.last as u64,
        after.cycles as u64,
    ];
    *advance = step.advance;
    put_window(window, step.edit);
    u32::from(answer)
}

// The state that STATE refuses: its mark is above every length.
fn no_context() -> ContextualState
    ensures { result ≡ no_context }
{
    ContextualState {
        state: 0,
        mark_set: false,
        mark_index: 0xFFFF,
        mark_id: 0,
    }
}

// The state that four numbers say: state, whether a mark is set, its place, its glyph.
#[tactic(auto, unfolding(crate::specs::Steps::contextual_from))]
fn contextual_from(slots: &[u64; 4]) -> ContextualState
    ensures { result ≡ contextual_from slots.now }
{
    let state = slots[0];
    let set = slots[1];
    let glyph = slots[3];
    if WIDEST < state {
        return no_context();
    }
    if 1 < set {
        return no_context();
    }
    if WIDEST < glyph {
        return no_context();
    }
    ContextualState {
        state: state as u16,
        mark_set: set == 1,
        mark_index: slots[2] as usize,
        mark_id: glyph as u16,
    }
}

// A lone step of the contextual machine.
#[unsafe(no_mangle)]
pub extern "C" fn aat_contextual_step(
    state: &mut [u64; 4],
    table: &[u8],
    start: usize,
    glyphs: &mut [u16],
    tags: &[u16],
    homes: &[u16],
    used: usize,
    index: usize,
    glyph: u16,
    ends: u32,
    advance: &mut usize,
) -> u32
    ensures answer { result ≡ number_of (contextual_stepped table.now start state.old
        (line_of glyphs.old tags.now homes.now used) index glyph ends).answer }
    ensures state { state.new ≡ contextual_state (contextual_stepped table.now start state.old
        (line_of glyphs.old tags.now homes.now used) index glyph ends) state.old }
    ensures glyphs { glyphs.new ≡ (contextual_leaves table.now start state.old
        (line_of glyphs.old tags.now homes.now used) index glyph ends).glyphs }
    ensures advance { advance.new ≡ advance_by (contextual_stepped table.now start state.old
        (line_of glyphs.old tags.now homes.now used) index glyph ends) advance.old }
{
    let given = contextual_from(state);
    let step = given.step(
        table,
        start,
        glyphs,
        tags,
        homes,
        used,
        index,
        glyph,
        ends != 0,
    );
    let answer = step.answer;
    if is_refused(answer) {
        return u32::from(answer);
    }
    let after = step.state;
    *state = [
        after.state as u64,
        u64::from(after.mark_set),
        after.mark_index as u64,
        after.mark_id as u64,
    ];
    *advance = step.advance;
    u32::from(answer)
}

// The state that STATE refuses.
fn no_insertion() -> InsertionState
    ensures { result ≡ no_insertion }
{
    InsertionState {
        state: 0,
        mark: 0,
        cycles: 0xFFFF,
    }
}

// The state that three numbers say: state, mark, cycles.
#[tactic(auto, unfolding(crate::specs::Steps::insertion_from))]
fn insertion_from(slots: &[u64; 3]) -> InsertionState
    ensures { result ≡ insertion_from slots.now }
{
    let state = slots[0];
    let cycles = slots[2];
    if WIDEST < state {
        return no_insertion();
    }
    if WIDEST < cycles {
        return no_insertion();
    }
    InsertionState {
        state: state as u16,
        mark: slots[1] as usize,
        cycles: cycles as u16,
    }
}

// The numbers of one insertion, the other places 0.
#[tactic(auto, unfolding(crate::specs::Steps::edit_slots))]
fn put_insertion(slots: &mut [u64; 7], edit: Option<Insertion>)
    ensures { slots.new ≡ edit_slots edit None }
{
    let Some(edit) = edit else {
        *slots = [0; 7];
        return;
    };
    *slots = [
        1,
        edit.place as u64,
        edit.count as u64,
        edit.glyphs as u64,
        0,
        0,
        0,
    ];
}

// The numbers of a step's insertions: how many, then for each its place, its count and where its glyphs lie.
#[tactic(auto, using(crate::proofs::Stepping::one_edit), unfolding(crate::specs::Steps::edit_slots))]
fn put_insertions(slots: &mut [u64; 7], marked: Option<Insertion>, current: Option<Insertion>)
    ensures { slots.new ≡ edit_slots marked current }
{
    let Some(first) = marked else {
        put_insertion(slots, current);
        return;
    };
    let Some(second) = current else {
        put_insertion(slots, marked);
        return;
    };
    *slots = [
        2,
        first.place as u64,
        first.count as u64,
        first.glyphs as u64,
        second.place as u64,
        second.count as u64,
        second.glyphs as u64,
    ];
}

// A lone step of the insertion machine.
#[unsafe(no_mangle)]
#[tactic(auto, using(crate::proofs::Stepping::numbered, crate::proofs::Stepping::kept, crate::proofs::Stepping::put, crate::proofs::Stepping::insertion_is))]
pub extern "C" fn aat_insertion_step(
    state: &mut [u64; 3],
    table: &[u8],
    start: usize,
    used: usize,
    room: usize,
    index: usize,
    glyph: u16,
    ends: u32,
    advance: &mut usize,
    edits: &mut [u64; 7],
) -> u32
    ensures answer { result ≡ number_of (insertion_stepped table.now start state.old used room index glyph ends).answer }
    ensures state { state.new ≡ insertion_state (insertion_stepped table.now start state.old used room index glyph ends)
        state.old }
    ensures advance { advance.new ≡ insertion_advance (insertion_stepped table.now start state.old used room index glyph
        ends) advance.old }
    ensures edits { edits.new ≡ insertion_edits (insertion_stepped table.now start state.old used room index glyph ends)
        edits.old }
{
    let given = insertion_from(state);
    let step = given.step(table, start, used, room, index, glyph, ends != 0);
    let answer = step.answer;
    if is_refused(answer) {
        return u32::from(answer);
    }
    let after = step.state;
    *state = [after.state as u64, after.mark as u64, after.cycles as u64];
    *advance = step.advance;
    put_insertions(edits, step.marked, step.current);
    u32::from(answer)
}

// The state that STATE refuses: more slots are used than there are.
#[tactic(auto, unfolding(laws::specs::Lists::tab))]
fn no_ligature() -> LigatureState
    ensures { result ≡ no_ligature }
{
    LigatureState {
        state: 0,
        places: [0; SLOTS],
        glyphs: [0; SLOTS],
        depth: 0xFFFF,
    }
}

// Whether as many numbers as there are slots, from some place on, are no wider than a glyph.
fn are_glyphs(slots: &[u64; NUMBERS], from: usize) -> bool
    requires { from ≤ glyphs_begin }
    ensures { result ≡ are_glyphs slots.now from }
{
    for slot in 0..SLOTS {
        if WIDEST < slots[from + slot] {
            return false;
        }
    }
    true
}

// The places.
fn places_from(slots: &[u64; NUMBERS]) -> [usize; SLOTS]
    ensures { result ≡ slots_from slots.now places_begin }
{
    let mut places = [0; SLOTS];
    for slot in 0..SLOTS {
        places[slot] = slots[PLACES + slot] as usize;
    }
    places
}

// The glyphs.
fn glyphs_from(slots: &[u64; NUMBERS]) -> [u16; SLOTS]
    requires { are_glyphs slots.now glyphs_begin ≡ true }
    ensures { result ≡ slots_from slots.now glyphs_begin }
{
    let mut glyphs = [0; SLOTS];
    for slot in 0..SLOTS {
        glyphs[slot] = slots[GLYPHS + slot] as u16;
    }
    glyphs
}

// The state that numbers say.
#[tactic(auto, unfolding(crate::specs::Steps::ligature_from))]
fn ligature_from(slots: &[u64; NUMBERS]) -> LigatureState
    ensures { result ≡ ligature_from slots.now }
{
    let state = slots[0];
    if WIDEST < state {
        return no_ligature();
    }
    if !are_glyphs(slots, GLYPHS) {
        return no_ligature();
    }
    LigatureState {
        state: state as u16,
        places: places_from(slots),
        glyphs: glyphs_from(slots),
        depth: slots[1] as usize,
    }
}

// Writes the places, or the glyphs, from some number on.
fn put_places(slots: &mut [u64], from: usize, places: &[usize])
    requires { (from + slot_count ≤ length slots.old) × (length places.now ≡ slot_count) }
    ensures { slots.new ≡ paste slots.old from places.now slot_count }
{
    for slot in 0..SLOTS {
        slots[from + slot] = places[slot] as u64;
    }
}

fn wide(glyph: u16) -> u64
    ensures { result ≡ glyph }
{
    glyph as u64
}

fn put_glyphs(slots: &mut [u64], from: usize, glyphs: &[u16])
    requires { (from + slot_count ≤ length slots.old) × (length glyphs.now ≡ slot_count) }
    ensures { slots.new ≡ paste slots.old from glyphs.now slot_count }
{
    for slot in 0..SLOTS {
        slots[from + slot] = wide(glyphs[slot]);
    }
}

// The numbers of a state.
#[tactic(auto, using(crate::proofs::Stepping::put_both))]
fn put_ligature(slots: &mut [u64; NUMBERS], state: LigatureState)
    ensures { slots.new ≡ ligature_slots slots.old state }
{
    slots[0] = state.state as u64;
    slots[1] = state.depth as u64;
    put_places(slots, PLACES, &state.places);
    put_glyphs(slots, GLYPHS, &state.glyphs);
}

// A lone step of the ligature machine.
#[unsafe(no_mangle)]
pub extern "C" fn aat_ligature_step(
    state: &mut [u64; NUMBERS],
    table: &[u8],
    start: usize,
    glyphs: &mut [u16],
    tags: &[u16],
    homes: &mut [u16],
    used: usize,
    index: usize,
    glyph: u16,
    ends: u32,
    advance: &mut usize,
) -> u32
    ensures answer { result ≡ number_of (ligature_stepped table.now start state.old
        (line_of glyphs.old tags.now homes.old used) index glyph ends).answer }
    ensures state { state.new ≡ ligature_state (ligature_stepped table.now start state.old
        (line_of glyphs.old tags.now homes.old used) index glyph ends) state.old }
    ensures glyphs { glyphs.new ≡ (ligature_leaves table.now start state.old
        (line_of glyphs.old tags.now homes.old used) index glyph ends).glyphs }
    ensures homes { homes.new ≡ (ligature_leaves table.now start state.old
        (line_of glyphs.old tags.now homes.old used) index glyph ends).homes }
    ensures advance { advance.new ≡ advance_by (ligature_stepped table.now start state.old
        (line_of glyphs.old tags.now homes.old used) index glyph ends) advance.old }
{
    let given = ligature_from(state);
    let step = given.step(
        table,
        start,
        glyphs,
        tags,
        homes,
        used,
        index,
        glyph,
        ends != 0,
    );
    let answer = step.answer;
    if is_refused(answer) {
        return u32::from(answer);
    }
    let after = step.state;
    put_ligature(state, after);
    *advance = step.advance;
    u32::from(answer)
}
