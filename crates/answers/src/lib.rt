// The answers of document 01 and the refusals of document 02 with their numbers, the limits, and the refusal that every public
// entry begins with.
#![tactic(auto)]

ghost use Rattle.std.specs.Prelude.{◌≡◌, [], ◌∷◌, ltb};
ghost use Rattle.answers.specs.Limits.{room_limit};
ghost use Rattle.answers.specs.Numbers.{number_of};
ghost use Rattle.answers.specs.Refuse.{refuse, table_test};

// The most bytes that a table may have.
pub const TABLE_LIMIT: usize = 16_777_216;

// The most places that a line may have room for.
pub const ROOM: usize = 32_768;

// The most heads that a run reads.
pub const HEADS: u32 = 65_535;

// Why a call is refused; it then changes nothing.
#[derive(Clone, Copy)]
pub enum Refusal {
    Table,
    Line,
    Place,
    State,
    Head,
    Request,
    Record,
    Version,
    Tuples,
    Index,
    Reel,
    Anchor,
    Overlap,
    Space,
}

// What a call answers.
#[derive(Clone, Copy)]
pub enum Answer {
    Done,
    Nothing,
    Full,
    Ended,
    Limit,
    Refused(Refusal),
}

// The number of a refusal in the documents.
impl From<Refusal> for u32 {
    ghost use Rattle.answers.specs.declared.Answer.TheVariants.{Refused};

    ghost from_gives = { λ refusal number. number ≡ number_of (Refused refusal) };

    fn from(refusal: Refusal) -> u32 {
        match refusal {
            Refusal::Table => 2,
            Refusal::Line => 3,
            Refusal::Place => 4,
            Refusal::State => 5,
            Refusal::Head => 6,
            Refusal::Request => 10,
            Refusal::Record => 11,
            Refusal::Version => 12,
            Refusal::Tuples => 13,
            Refusal::Index => 14,
            Refusal::Reel => 15,
            Refusal::Anchor => 16,
            Refusal::Overlap => 17,
            Refusal::Space => 18,
        }
    }
}

// The number of an answer in the documents.
impl From<Answer> for u32 {
    ghost from_gives = { λ answer number. number ≡ number_of answer };

    fn from(answer: Answer) -> u32 {
        match answer {
            Answer::Done => 0,
            Answer::Nothing => 1,
            Answer::Full => 7,
            Answer::Ended => 8,
            Answer::Limit => 9,
            Answer::Refused(refusal) => u32::from(refusal),
        }
    }
}

// The one test of an entry that is lent a table and no line.
#[tactic(auto, unfolding(crate::specs::Refuse::refuse, crate::specs::Refuse::table_test, crate::specs::Limits::table_limit))]
pub fn refuse_table(table_length: usize) -> Result<(), Refusal>
    ensures { result ≡ refuse (table_test table_length ∷ []) }
{
    if TABLE_LIMIT < table_length {
        return Err(Refusal::Table);
    }
    Ok(())
}

// Whether a length is more than any line has room for.
#[tactic(auto, unfolding(crate::specs::Limits::room_limit))]
pub fn above_room(places: usize) -> bool
    ensures { result ≡ ltb room_limit places }
{
    ROOM < places
}
