// Which segments of a block have come.
ghost use Rattle.std.specs.Prelude.{◌≡◌, ◌≤◌};
ghost use Rattle.refusals.specs.Refusals.{answer_number};
ghost use Rattle.blocks.specs.Marking.{marked, with_mark, marks_refusal, unfinished_refusal};

use refusals::Refusal;

// The marks of an assembly: bit s is set once segment s is stored. A record with a mark above 24 is impossible.
#[derive(Clone, Copy, Debug, PartialEq, Eq)]
pub struct Marks {
    pub segments: u32,
}

// The marks of a finished block: all 25 segments.
pub const ALL: u32 = 0x1FF_FFFF;

// Inner. Refuses, with 12, where there is a mark above 24.
#[tactic(auto, unfolding(crate::specs::Marking::marks_refusal, refusals::specs::Refusals::when))]
pub fn marks_refusal(marks: Marks) -> Result<(), Refusal>
    ensures { answer_number result ≡ marks_refusal marks }
{
    if marks.segments <= ALL {
        Ok(())
    } else {
        Err(Refusal::State)
    }
}

// Inner. Refuses, with 9, where not all 25 segments are marked.
#[tactic(auto, unfolding(crate::specs::Marking::unfinished_refusal, refusals::specs::Refusals::when))]
pub fn unfinished_refusal(marks: Marks) -> Result<(), Refusal>
    ensures { answer_number result ≡ unfinished_refusal marks }
{
    if marks.segments == ALL {
        Ok(())
    } else {
        Err(Refusal::Unfinished)
    }
}

// Inner. Whether a segment is marked.
#[tactic(auto, unfolding(crate::specs::Marking::marked))]
pub fn is_marked(marks: Marks, segment: u8) -> bool
    requires { segment ≤ 24 }
    ensures { result ≡ marked marks segment }
{
    (marks.segments >> segment) % 2 == 1
}

// Inner. The marks with one more segment.
#[tactic(auto, unfolding(crate::specs::Marking::with_mark))]
pub fn with_mark(marks: Marks, segment: u8) -> Marks
    requires { segment ≤ 24 }
    ensures { result ≡ with_mark marks segment }
{
    Marks {
        segments: marks.segments | (1u32 << segment),
    }
}
