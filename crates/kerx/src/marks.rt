// What a run does with x, y and the distances besides the writes: they are zeroed first, and turned with the line.
ghost use Rattle.std.specs.Prelude.{◌≡◌, length};
ghost use Rattle.laws.specs.Backward.{backward};
ghost use Rattle.kerning_lists.specs.Run.{zeros};
ghost use Rattle.kerx.specs.Anchored.{nones};

// All three become zero.
#[tactic(auto, using(kerning_lists::proofs::Turns::zeros_same, crate::proofs::Written::nones_same))]
pub fn zero(x: &mut [i32], y: &mut [i32], back: &mut [u16])
    ensures x { x.new ≡ zeros (length x.old) }
    ensures y { y.new ≡ zeros (length y.old) }
    ensures back { back.new ≡ nones (length back.old) }
{
    x.fill(0);
    y.fill(0);
    back.fill(0);
}

// Turns all three round; each is as long as the used part of the line, or empty.
#[tactic(auto, using(kerning_lists::proofs::Turns::backward_whole, laws::proofs::Backward::backward_none))]
#[inline(always)]
pub fn turn(x: &mut [i32], y: &mut [i32], back: &mut [u16])
    ensures x { x.new ≡ backward (length x.old) x.old }
    ensures y { y.new ≡ backward (length y.old) y.old }
    ensures back { back.new ≡ backward (length back.old) back.old }
{
    if x.is_empty() && y.is_empty() && back.is_empty() {
        return;
    }
    x.reverse();
    y.reverse();
    back.reverse();
}
