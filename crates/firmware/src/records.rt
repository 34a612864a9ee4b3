// The exported entries that store a line and read it back.
ghost use Rattle.std.specs.Prelude.{◌≡◌};
ghost use Rattle.answers.specs.Numbers.{number_of};
ghost use Rattle.line.specs.Line.{line_of};
ghost use Rattle.stored.specs.Entries.{store_call, store_answer, store_size, newest_version, read_call, read_answer, read_used, read_characters};

// Writes the record of a line to the buffer's start.
#[unsafe(no_mangle)]
pub extern "C" fn aat_store_line(
    glyphs: &[u16],
    tags: &[u16],
    homes: &[u16],
    used: usize,
    buffer: &mut [u8],
    size: &mut usize,
) -> u32
    ensures answer { result ≡ number_of (store_answer (store_call (line_of glyphs.now tags.now homes.now used)
        buffer.old).reply) }
    ensures buffer { buffer.new ≡ (store_call (line_of glyphs.now tags.now homes.now used)
        buffer.old).buffer }
    ensures size { size.new ≡ store_size (store_call (line_of glyphs.now tags.now homes.now used)
        buffer.old).reply size.old }
{
    match stored::store_line(glyphs, tags, homes, used, buffer) {
        Ok(count) => {
            *size = count;
            0
        }
        Err(why) => u32::from(why),
    }
}

// Reads the line of a record into the room that is lent.
#[unsafe(no_mangle)]
pub extern "C" fn aat_read_line(
    bytes: &[u8],
    glyphs: &mut [u16],
    tags: &mut [u16],
    homes: &mut [u16],
    used: &mut usize,
    characters: &mut usize,
) -> u32
    ensures answer { result ≡ number_of (read_answer (read_call newest_version bytes.now glyphs.old tags.old
        homes.old).reply) }
    ensures glyphs { glyphs.new ≡ (read_call newest_version bytes.now glyphs.old tags.old
        homes.old).glyphs }
    ensures tags { tags.new ≡ (read_call newest_version bytes.now glyphs.old tags.old
        homes.old).tags }
    ensures homes { homes.new ≡ (read_call newest_version bytes.now glyphs.old tags.old
        homes.old).homes }
    ensures used { used.new ≡ read_used (read_call newest_version bytes.now glyphs.old tags.old
        homes.old).reply used.old }
    ensures characters { characters.new ≡ read_characters (read_call newest_version bytes.now glyphs.old tags.old
        homes.old).reply characters.old }
{
    match stored::read_line(bytes, glyphs, tags, homes) {
        Ok(lengths) => {
            *used = lengths.used;
            *characters = lengths.characters;
            0
        }
        Err(why) => u32::from(why),
    }
}
