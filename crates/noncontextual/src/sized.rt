// The pass by a lookup that is read by a reading: in the manual's, the unit size of format 10 says how many bytes an element has.
ghost use Rattle.std.specs.Prelude.{◌≡◌, ◌≤◌, length};
ghost use Rattle.line.specs.Line.{line_of};
ghost use Rattle.tables.specs.Units.{lookup_by};
ghost use Rattle.noncontextual.specs.Work.{passed_leaves};

use tables::units;
use tables::units::Reading;

// The pass over a line that LINE has taken, with the bytes of a lookup that is read by a reading.
#[tactic(auto, using(crate::proofs::Passes::passed_each))]
pub fn pass_by(
    reading: Reading,
    body: &[u8],
    glyphs: &mut [u16],
    tags: &[u16],
    homes: &[u16],
    used: usize,
)
    requires { used ≤ length glyphs.old }
    ensures { glyphs.new ≡ (passed_leaves (lookup_by reading body.now)
        (line_of glyphs.old tags.now homes.now used)).glyphs }
{
    crate::each(
        glyphs,
        used,
        |glyph| units::lookup_by(reading, body, glyph).unwrap_or(glyph),
    );
}
