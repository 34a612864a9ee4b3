// Lists that no table has, for what is promised of all of them.
ghost use Rattle.std.specs.Prelude.{false, Some, Ok, pos};
ghost use Rattle.kerning.specs.Additions.{nothing_added};
ghost use Rattle.answers.specs.declared.Answer.TheVariants.{Done};

use super::*;

// Lists with a head wherever one is asked for, also where the bytes are at their end.
struct Endless;

impl Lists for Endless {
    ghost family = { record {
      list_of = λ bytes. record { version = 0; count = 1; first = 0 };
      head_in = λ rtl version at part. Some (record { passed_over = false; turned = false; format = 0; body = at; next = at });
      worked = λ bytes version format glyphs used choices. nothing_added Done;
      pair_by = λ bytes version format left right. Ok (Ok (pos 7));
    } };

    fn list_of(_: &[u8]) -> ListHead {
        ListHead {
            version: 0,
            count: 1,
            first: 0,
        }
    }

    fn head_in(_: bool, _: u16, at: usize, _: &[u8]) -> Option<Subtable> {
        Some(Subtable {
            passed_over: false,
            turned: false,
            format: 0,
            body: at,
            next: at,
        })
    }

    #[tactic(auto, unfolding(kerning::specs::Additions::add_all))]
    fn work(_: &[u8], _: u16, _: u32, _: &[u16], _: usize, _: &mut [i64], _: Choices) -> Answer {
        Answer::Done
    }

    fn pair_by(_: &[u8], _: u16, _: u32, _: u16, _: u16) -> Result<Result<i16, Why>, Refusal> {
        Ok(Ok(7))
    }
}

// The head of no bytes is the list's to say, whatever list it is.
#[test]
fn heads_are_asked_past_the_end(rt: HostRuntime) {
    for at in [1, 9, usize::MAX] {
        let head = head_at::<Endless>(false, &[0], 0, at);
        assert_eq!(rt; head.map(|subtable| subtable.body), Some(at));
    }
}

// A list, its next subtable, a pair and a pass, from the table's end or past it.
#[test]
fn calls_past_the_end(rt: HostRuntime) {
    let cursor = subtables::<Endless>(&[0], 1).ok();
    assert_eq!(rt; cursor.map(|cursor| cursor.place), Some(1));
    let cursor = Cursor {
        place: 9,
        left: 1,
        version: 0,
    };
    let next = next_subtable::<Endless>(&[0], cursor).ok().flatten();
    assert_eq!(rt; next.map(|next| next.subtable.body), Some(9));
    let number = pair::<Endless>(&[0], 9, 0, 1, 2)
        .ok()
        .and_then(|found| found.ok());
    assert_eq!(rt; number, Some(7));
    let answer = pass_by::<Endless>(&[0], 9, 0, &[], &[], &[], 0, &mut [], Choices::default());
    assert_eq!(rt; u32::from(answer), u32::from(Answer::Done));
}
