// Where the points of glyphs are found: by the table itself, for a lone step, or by one that is opened once, for a pass.
ghost use Rattle.std.specs.Prelude.{◌≡◌, List, ℕ};
ghost use Rattle.tables.specs.declared.units.Reading.{Reading};
ghost use Rattle.anchors.specs.Anchors.{points_of};
ghost use Rattle.anchors.specs.Opened.{anchors_of, part_of, place_of, Placed};
ghost use Rattle.anchor_machine.specs.Machine.{written_by};
ghost use Rattle.anchor_machine.specs.declared.Numbers.TheVariants.{At};

use crate::{AnchorState, Written};
use anchors::opened;
use anchors::opened::Anchors;
use tables::units::Reading;

pub trait Points {
    // The table, and whose reading of it is taken.
    ghost table: { Self → List ℕ };

    ghost reading: { Self → Reading };

    // What a record writes by the numbers of two points, of the marked glyph and of this one.
    fn offset(
        &mut self,
        state: AnchorState,
        index: usize,
        glyph: u16,
        mark: u16,
        current: u16,
    ) -> Option<Written>
        ensures written { result ≡ written_by (table self.old) (reading self.old) state index glyph (At mark current) }
        ensures table { table self.new ≡ table self.old }
        ensures reading { reading self.new ≡ reading self.old };
}

#[derive(Clone, Copy)]
pub struct Table<'a> {
    pub ankr: &'a [u8],
    pub reading: Reading,
}

impl<'a> Points for Table<'a> {
    ghost table = { λ points. points.ankr.now };

    ghost reading = { λ points. points.reading };

    #[tactic(auto, unfolding(crate::specs::Machine::written_by))]
    fn offset(
        &mut self,
        state: AnchorState,
        index: usize,
        glyph: u16,
        mark: u16,
        current: u16,
    ) -> Option<Written> {
        let marked = anchors::point_of(self.reading, self.ankr, state.glyph, mark);
        let here = anchors::point_of(self.reading, self.ankr, glyph, current);
        crate::offset(marked, here, index.saturating_sub(state.mark))
    }
}

// The marked glyph whose points were looked up last, and where they begin. Both have 64 bits: with room between them a copy goes through memory.
#[derive(Clone, Copy)]
struct Kept {
    glyph: usize,
    place: usize,
}

#[derive(Clone, Copy)]
pub struct Opened<'a> {
    ankr: &'a [u8],
    part: &'a [u8],
    reading: Reading,
    anchors: Anchors,
    kept: Kept,
    ghost opened: { anchors ≡ anchors_of reading ankr.now },
    ghost from_lookup: { part.now ≡ part_of ankr.now },
    ghost placed: { Placed reading ankr.now kept.glyph kept.place },
}

// Where a glyph's points begin.
#[tactic(auto, using(anchors::proofs::Openings::placed))]
fn place_of(reading: Reading, ankr: &[u8], anchors: Anchors, glyph: u16) -> usize
    requires { anchors ≡ anchors_of reading ankr.now }
    ensures place { result ≡ place_of (points_of reading ankr.now glyph) }
    ensures placed { Placed reading ankr.now glyph result }
{
    opened::place_in(reading, ankr, anchors, glyph)
}

impl<'a> Opened<'a> {
    pub(crate) fn new(reading: Reading, ankr: &'a [u8]) -> Opened<'a>
        ensures ankr { result.ankr.now ≡ ankr.now }
        ensures part { result.part.now ≡ part_of ankr.now }
        ensures reading { result.reading ≡ reading }
        ensures anchors { result.anchors ≡ anchors_of reading ankr.now }
        ensures kept { (result.kept.glyph ≡ 0) × (result.kept.place ≡ place_of (points_of reading ankr.now 0)) }
    {
        let anchors = opened::open(reading, ankr);
        Opened {
            ankr,
            part: opened::part_of(ankr),
            reading,
            anchors,
            kept: Kept {
                glyph: 0,
                place: place_of(reading, ankr, anchors, 0),
            },
        }
    }
}

impl<'a> Points for Opened<'a> {
    ghost table = { λ points. points.ankr.now };

    ghost reading = { λ points. points.reading };

    #[tactic(auto, using(anchors::proofs::Openings::words_lie, anchors::proofs::Openings::words_point), unfolding(crate::specs::Machine::written_by))]
    fn offset(
        &mut self,
        state: AnchorState,
        index: usize,
        glyph: u16,
        mark: u16,
        current: u16,
    ) -> Option<Written> {
        let back = index.saturating_sub(state.mark);
        if let Anchors::Words { origin, array } = self.anchors {
            let words = Some(array);
            let marked = opened::point_in(self.ankr, self.part, origin, words, state.glyph, mark);
            let here = opened::point_in(self.ankr, self.part, origin, words, glyph, current);
            return crate::offset(marked, here, back);
        }
        if self.kept.glyph != state.glyph as usize {
            self.kept = Kept {
                glyph: state.glyph as usize,
                place: place_of(self.reading, self.ankr, self.anchors, state.glyph),
            };
        }
        let marked = opened::point_from(self.ankr, self.kept.place, mark);
        let here = place_of(self.reading, self.ankr, self.anchors, glyph);
        crate::offset(marked, opened::point_from(self.ankr, here, current), back)
    }
}
