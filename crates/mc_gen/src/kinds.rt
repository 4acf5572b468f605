// The kinds of blocks.
ghost use Rattle.std.specs.Prelude.{◌≡◌, ◌<◌};
ghost use Rattle.mc_gen.specs.Texts.{kind_of, number_of};

/// What a block of a program does.
#[derive(Clone, Copy, Debug, PartialEq, Eq)]
pub enum BlockKind {
    /// Goes through a list.
    Walk,
    /// Builds a list.
    Build,
    /// Takes and frees ten blocks.
    Turns,
    /// Writes into a block without asking whether it is there.
    Unchecked,
    /// Goes down a tree.
    Descend,
}

impl BlockKind {
    /// The kind that a number below 5 stands for.
    pub fn of_number(number: u32) -> BlockKind
        requires { number < 5 }
        ensures { result ≡ kind_of number }
    {
        match number {
            0 => BlockKind::Walk,
            1 => BlockKind::Build,
            2 => BlockKind::Turns,
            3 => BlockKind::Unchecked,
            _ => BlockKind::Descend,
        }
    }

    /// The number that stands for it.
    pub fn number(self) -> u64
        ensures { result ≡ number_of self }
    {
        match self {
            BlockKind::Walk => 0,
            BlockKind::Build => 1,
            BlockKind::Turns => 2,
            BlockKind::Unchecked => 3,
            BlockKind::Descend => 4,
        }
    }
}
