// The actions of a ligature subtable, over the bytes from the state table on.
ghost use Rattle.std.specs.Prelude.{◌≡◌, ◌+◌, ◌<◌, ◌≤◌};
ghost use Rattle.std.specs.Int.Signed.{mag};
ghost use Rattle.ligature.specs.Actions.{offset_of, component_of, read_action, read_number, stores, made_by, action_of};
ghost use Rattle.ligature.specs.Work.{sum_of};

use crate::LigatureState;

// What an action that does not end the step does: it adds its component to the sum, or makes the ligature of the sum too, perhaps as the
// last.
#[derive(Clone, Copy)]
pub enum Action {
    Adds(u32),
    Makes { sum: u32, ligature: u16, last: bool },
}

// An action's offset: its low 30 bits, signed.
#[tactic(auto, unfolding(crate::specs::Actions::offset_of))]
pub fn offset_of(action: u32) -> i32
    ensures { result ≡ offset_of action }
{
    let number = (action % 1_073_741_824) as i32;
    if 536_870_912 <= number {
        return number - 1_073_741_824;
    }
    number
}

// The number of a glyph's component.
#[tactic(auto, unfolding(crate::specs::Actions::component_of))]
fn component_of(glyph: u16, offset: i32) -> Option<u32>
    requires { mag offset < 0x20000000 }
    ensures { result ≡ component_of glyph offset }
{
    u32::try_from(glyph as i32 + offset).ok()
}

// An action of 32 bits.
#[tactic(auto, unfolding(crate::specs::Actions::read_action))]
fn read_action(bytes: &[u8], number: u16) -> Option<u32>
    ensures { result ≡ read_action bytes.now number }
{
    let list = parse::read_u32(bytes, 16)?;
    parse::read_u32(bytes, list as usize + number as usize * 4)
}

// A 16-bit number of the list that begins where the number at `head` says.
#[tactic(auto, unfolding(crate::specs::Actions::read_number))]
fn read_number(bytes: &[u8], head: usize, number: u32) -> Option<u16>
    ensures { result ≡ read_number bytes.now head number }
{
    let list = parse::read_u32(bytes, head)?;
    parse::read_u16(bytes, list as usize + number as usize * 2)
}

// Whether an action makes a ligature.
fn stores(action: u32) -> bool
    ensures { result ≡ stores action }
{
    parse::is_set(action, LigatureState::LAST) || parse::is_set(action, LigatureState::STORE)
}

// What an action does by its flags, with its component in the sum.
#[tactic(auto, unfolding(crate::specs::Actions::made_by))]
fn made_by(bytes: &[u8], action: u32, sum: u32) -> Option<Action>
    ensures action { result ≡ made_by bytes.now action sum }
    ensures sum { sum_of result ≤ sum }
{
    if !stores(action) {
        return Some(Action::Adds(sum));
    }
    let ligature = read_number(bytes, 24, sum)?;
    let last = parse::is_set(action, LigatureState::LAST);
    Some(Action::Makes {
        sum,
        ligature,
        last,
    })
}

// What an action does with a glyph of the stack and the sum so far; None where it ends the step. The crate, built with overflow checks,
// panics behind the action of number 65,535.
#[tactic(auto, using(crate::proofs::Offsets::offset_size), unfolding(crate::specs::Actions::action_of))]
pub fn action_of(bytes: &[u8], number: u16, glyph: u16, sum: u32) -> Option<Action>
    requires { sum < 0x80000000 }
    ensures action { result ≡ action_of bytes.now number glyph sum }
    ensures sum { sum_of result ≤ sum + 65535 }
{
    if number == 0xFFFF {
        return None;
    }
    let action = read_action(bytes, number)?;
    let component = component_of(glyph, offset_of(action))?;
    let adds = read_number(bytes, 20, component)?;
    made_by(bytes, action, sum + adds as u32)
}
