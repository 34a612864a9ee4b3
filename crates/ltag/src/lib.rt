// The language tags of an `ltag` table: the index of a name among them.
#![tactic(auto)]

ghost use Rattle.std.specs.Prelude.{◌≡◌};
ghost use Rattle.ltag.specs.Ltag.{look_at, sought, index_of, language_index};

use answers::Refusal;
use parse::bytes::Bytes;

// Whether tag `index` is the name: its range, an offset and a size, then its bytes. `None` is a bad range.
#[tactic(auto, unfolding(crate::specs::Ltag::look_at, parse::specs::Parts::read_part, parse::specs::Reads::inside))]
fn look_at(bytes: &[u8], name: &[u8], index: u32) -> Option<bool>
    ensures { result ≡ look_at bytes.now name.now index }
{
    let range = 12 + index as usize * 4;
    let start = parse::read_u16(bytes, range)? as usize;
    let size = parse::read_u16(bytes, range + 2)? as usize;
    let end = parse::read_part(bytes, start, size)?;
    Some(&bytes[start..end] == name)
}

// The first of `count` tags that is the name; a bad range ends the search.
#[tactic(auto, using(crate::proofs::Seeking::sought_all, crate::proofs::Seeking::sought_same, crate::proofs::Seeking::sought_bad, crate::proofs::Seeking::sought_other, crate::proofs::Seeking::sought_none))]
fn seek(bytes: &[u8], name: &[u8], count: u32) -> Option<u32>
    ensures { result ≡ sought bytes.now name.now count }
{
    for index in 0..count {
        if look_at(bytes, name, index)? {
            return Some(index);
        }
    }
    None
}

// The index of a name in the table that begins with `bytes`.
#[tactic(auto, unfolding(crate::specs::Ltag::index_of))]
fn index_of(bytes: &[u8], name: &[u8]) -> Option<u32>
    ensures { result ≡ index_of bytes.now name.now }
{
    seek(bytes, name, parse::read_u32(bytes, 8)?)
}

// The index of a name in the `ltag` table that a reader holds.
#[tactic(auto, unfolding(crate::specs::Ltag::language_index))]
pub fn language_index_in<'a, 'b>(bytes: Bytes<'a>, name: &'b [u8]) -> Result<Option<u32>, Refusal>
    ensures { result ≡ language_index bytes.entry.table.now bytes.entry.start name.now }
{
    let Bytes { table, start } = bytes;
    answers::refuse_table(table.len())?;
    Ok(index_of(parse::from(table, start), name))
}

// The index of a name in the `ltag` table at `start`.
pub fn language_index(table: &[u8], start: usize, name: &[u8]) -> Result<Option<u32>, Refusal>
    ensures { result ≡ language_index table.now start name.now }
{
    language_index_in(Bytes::new(table, start), name)
}
