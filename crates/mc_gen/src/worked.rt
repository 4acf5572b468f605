// Programs whose blocks are known.
ghost use Rattle.std.specs.Prelude.{◌≡◌, [], ◌∷◌};
ghost use Rattle.mc_gen.specs.declared.kinds.BlockKind.TheVariants.{Walk, Build, Unchecked, Descend};
ghost use Rattle.mc_gen.specs.Programs.{kinds_of, next_program};

/// The blocks of the first two programs of 0.
pub fn first_programs_are_known()
    ensures first { kinds_of 0 ≡ Build ∷ Unchecked ∷ Descend ∷ [] }
    ensures second { kinds_of (next_program 0) ≡ Walk ∷ Build ∷ Walk ∷ [] }
{}
