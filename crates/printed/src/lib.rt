// A line as the programs print it: its length, glyph and tag of each place, and the home of each character.
#![tactic(auto)]

ghost use Rattle.std.specs.Prelude.{Some};
ghost use Rattle.printed.specs.Printed.{text_of};

use std::fmt;

// The first `used` places and the first `characters` homes of what is lent.
#[derive(Clone, Copy)]
pub struct LineText<'a> {
    pub glyphs: &'a [u16],
    pub tags: &'a [u16],
    pub homes: &'a [u16],
    pub used: usize,
    pub characters: usize,
}

impl<'a> fmt::Display for LineText<'a> {
    ghost output = { λ line. Some (text_of line) };

    fn fmt<W: fmt::Write>(&self, f: &mut fmt::Formatter<W>) -> fmt::Result {
        writeln!(f, "length {}", self.used)?;
        let places = self.glyphs.iter().zip(self.tags.iter()).take(self.used);
        for (place, (glyph, tag)) in places.enumerate() {
            writeln!(f, "{place} {glyph} {tag}")?;
        }
        write!(f, "homes")?;
        for home in self.homes.iter().take(self.characters) {
            write!(f, " {home}")?;
        }
        writeln!(f)
    }
}
