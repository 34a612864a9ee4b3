// The head of a lookup table that can be mended.
ghost use Rattle.std.specs.Prelude.{◌≡◌};
ghost use Rattle.mend.specs.Mend.{counted, lot_of};

use tables::records;
use tables::records::Kind;

// So many records of a kind.
#[derive(Clone, Copy)]
pub struct Lot {
    pub kind: Kind,
    pub count: u16,
}

// So many records of a kind, where they have the unit size that the survey passes and none is cut short.
#[tactic(auto, unfolding(crate::specs::Mend::counted))]
fn counted(bytes: &[u8], kind: Kind, unit_size: u16, count: u16) -> Option<Lot>
    ensures { result ≡ counted bytes.now kind unit_size count }
{
    if unit_size != records::stride_of(kind) {
        return None;
    }
    if count == 0 {
        return Some(Lot { kind, count });
    }
    if bytes.len() < records::record_place(12, kind, count as u32) {
        return None;
    }
    Some(Lot { kind, count })
}

// The records of the lookup table that begins with `bytes`, where its format is 2 or 6.
#[tactic(auto, using(parse::proofs::Laws::u16_value), unfolding(crate::specs::Mend::lot_of))]
pub fn lot_of(bytes: &[u8]) -> Option<Lot>
    ensures { result ≡ lot_of bytes.now }
{
    let format = parse::read_u16(bytes, 0)?;
    let count = parse::read_u16(bytes, 4)?;
    let unit_size = parse::u16_at(bytes, 2);
    match format {
        2 => counted(bytes, Kind::Ranges, unit_size, count),
        6 => counted(bytes, Kind::Singles, unit_size, count),
        _ => None,
    }
}
