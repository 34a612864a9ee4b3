// The pass by a state table that the machine is lent, as mort has it: the loops of morx's own pass, whose classes are read where they lie. A loop of
// its own is compiled for its own edition, so that morx's does not ask at each entry which one it has.
ghost use Rattle.std.specs.Prelude.{◌≡◌, ◌≤◌, length};
ghost use Rattle.answers.specs.Limits.{room_limit};
ghost use Rattle.line.specs.Line.{line_of};
ghost use Rattle.machine.specs.Machine.{passed};
ghost use Rattle.machine.specs.Work.{passed_leaves};
ghost use Rattle.rearrangement.specs.Calls.{rearrangement};

use crate::RearrangementState;
use answers::Answer;
use state_tables::{States, entries};

// The pass over a line that LINE has taken, with the bytes from the state table on.
// kept: a loop of its own, since by `pass_line`'s opened classes 20,000 passes over 4,096 places took 2.7 s and not 2.2 s.
pub fn pass(
    bytes: &[u8],
    states: States,
    glyphs: &mut [u16],
    tags: &mut [u16],
    homes: &[u16],
    used: usize,
) -> Answer
    requires { (used ≤ length glyphs.old) × (used ≤ length tags.old) × (used ≤ room_limit) }
    ensures answer { result ≡ (passed rearrangement bytes.now states
        (line_of glyphs.old tags.old homes.now used)).answer }
    ensures glyphs { glyphs.new ≡ (passed_leaves rearrangement bytes.now states
        (line_of glyphs.old tags.old homes.now used)).glyphs }
    ensures tags { tags.new ≡ (passed_leaves rearrangement bytes.now states
        (line_of glyphs.old tags.old homes.now used)).tags }
{
    let mut state = RearrangementState::new();
    for place in 0..used {
        'steps: loop {
            let class = machine::class_at(bytes, states, glyphs[place], false);
            let Some(entry) = entries::entry_of(bytes, states, state.state, class, 0) else {
                return Answer::Ended;
            };
            let step = state.act(entry, place);
            crate::edit(glyphs, tags, homes, used, step.edit);
            state = step.state;
            if step.advance != 0 {
                break;
            }
        }
    }
    let step = state.next(bytes, states, used, machine::END, true);
    crate::edit(glyphs, tags, homes, used, step.edit);
    step.answer
}
