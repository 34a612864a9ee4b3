// The exported report on kerned lines.
ghost use Rattle.std.specs.Prelude.{◌≡◌};
ghost use Rattle.answers.specs.Numbers.{number_of};
ghost use Rattle.report.specs.Report.{lines_of, page_of, report_answer, report_leaves};

// The sums, the largest and the smallest along numbers of lines that are lent as a reel's, and of all of them.
#[unsafe(no_mangle)]
pub extern "C" fn aat_kerning_report(
    rooms: &[usize],
    characters: &[usize],
    used: &[usize],
    glyphs: &[u16],
    tags: &[u16],
    homes: &[u16],
    along: &[i64],
    sums: &mut [i64],
    largest: &mut [i64],
    smallest: &mut [i64],
    totals: &mut [i64; 3],
) -> u32
    ensures answer { result ≡ number_of (report_answer (lines_of rooms.now characters.now used.now
        glyphs.now tags.now homes.now along.now)
        (page_of sums.old largest.old smallest.old totals.old)) }
    ensures sums { sums.new ≡ (report_leaves (lines_of rooms.now characters.now used.now
        glyphs.now tags.now homes.now along.now)
        (page_of sums.old largest.old smallest.old totals.old)).sums }
    ensures largest { largest.new ≡ (report_leaves (lines_of rooms.now characters.now used.now
        glyphs.now tags.now homes.now along.now)
        (page_of sums.old largest.old smallest.old totals.old)).largest }
    ensures smallest { smallest.new ≡ (report_leaves (lines_of rooms.now characters.now used.now
        glyphs.now tags.now homes.now along.now)
        (page_of sums.old largest.old smallest.old totals.old)).smallest }
    ensures totals { totals.new ≡ (report_leaves (lines_of rooms.now characters.now used.now
        glyphs.now tags.now homes.now along.now)
        (page_of sums.old largest.old smallest.old totals.old)).totals }
{
    u32::from(report::report(
        rooms, characters, used, glyphs, tags, homes, along, sums, largest, smallest, totals,
    ))
}
