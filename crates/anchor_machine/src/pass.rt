// The pass over a line, by an ankr table that is opened once. What an entry does here a lone step does by the table itself.
ghost use Rattle.std.specs.Prelude.{◌≡◌, ◌≤◌, length};
ghost use Rattle.answers.specs.Limits.{room_limit};
ghost use Rattle.anchor_machine.specs.Writes.{write_x, write_y, write_back};
ghost use Rattle.anchor_machine.specs.Machine.{passed_indexed};

use crate::points::Opened;
use crate::{AnchorState, Anchoring};
use answers::Answer;
use state_tables::entries;

// The pass over a line that LINE has taken.
pub fn pass_line(
    ankr: &[u8],
    bytes: &[u8],
    anchoring: Anchoring,
    glyphs: &[u16],
    used: usize,
    x: &mut [i32],
    y: &mut [i32],
    back: &mut [u16],
    index: &[u16],
) -> Answer
    requires { (used ≤ length glyphs.now) × (used ≤ length x.old) × (used ≤ length y.old) × (used ≤ length back.old) × (used ≤ room_limit) }
    ensures answer { result ≡ (passed_indexed index.now ankr.now bytes.now anchoring glyphs.now used).answer }
    ensures x { x.new ≡ write_x (passed_indexed index.now ankr.now bytes.now anchoring glyphs.now
        used).writes x.old }
    ensures y { y.new ≡ write_y (passed_indexed index.now ankr.now bytes.now anchoring glyphs.now
        used).writes y.old }
    ensures back { back.new ≡ write_back (passed_indexed index.now ankr.now bytes.now anchoring
        glyphs.now used).writes back.old }
{
    let states = anchoring.states;
    let opened = state_tables::opened::open(bytes, states);
    let mut memo = state_tables::opened::nothing_found();
    let mut points = Opened::new(anchoring.reading, ankr);
    let mut state = AnchorState::new();
    for place in 0..used {
        // A place has a loop of its own, so that the next glyph's read does not wait for this entry's flags.
        let mut stays = true;
        while stays {
            // What `next` does, written out: as a call of its own its answer would go through memory.
            let class = indexes::class_by(bytes, opened, &mut memo, glyphs[place], index);
            let Some(entry) = entries::entry_of(bytes, states, state.state, class, 2) else {
                return Answer::Ended;
            };
            let step = state.act(&mut points, bytes, anchoring, entry, place, glyphs[place]);
            if !machine::is_done(step.answer) {
                return step.answer;
            }
            crate::put(step.written, used, place, x, y, back);
            state = step.state;
            stays = step.advance == 0;
        }
    }
    Answer::Done
}
