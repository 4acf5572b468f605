// How far a document is read.
ghost use Rattle.std.specs.Prelude.{◌≡◌};
ghost use Rattle.mc_kernel.specs.Readings.{is_cutting, is_ruling};
ghost use Rattle.mc_document.specs.Proof.Stacks.{stage_of};

/// How far a document is read: its cuts, its heads, its rule lines, or the end.
#[derive(Clone, Copy, Debug, PartialEq, Eq)]
pub enum Stage {
    Cutting,
    Heading,
    Ruling,
    Finished,
}

/// Whether its cuts are read.
pub fn is_cutting(stage: Stage) -> bool
    ensures { result ≡ is_cutting (stage_of stage) }
{
    match stage {
        Stage::Cutting => true,
        Stage::Heading => false,
        Stage::Ruling => false,
        Stage::Finished => false,
    }
}

/// Whether its rule lines are read.
pub fn is_ruling(stage: Stage) -> bool
    ensures { result ≡ is_ruling (stage_of stage) }
{
    match stage {
        Stage::Cutting => false,
        Stage::Heading => false,
        Stage::Ruling => true,
        Stage::Finished => false,
    }
}
