// States that are tidy, and one for each way not to be.
ghost use Rattle.mc_state.specs.Facts.{IsTidy};
ghost use Rattle.mc_kernel.specs.Shown.TidyStates.{tidy, with_offset, with_no_number, with_lost_cell, with_second_name};
ghost use Rattle.mc_kernel.specs.Shown.TidyStates.{with_zero};

/// A cell at a variable is tidy, also where another node is the number in it and one more.
pub fn tidy_states()
    ensures one { IsTidy tidy }
    ensures apart { IsTidy with_offset }
{
    mc_pure::derived_is_true();
}

/// A false state is not tidy, nor is one with an edge that nothing reaches, nor one with two equal nodes of one
/// kind, nor one with a node that is null.
pub fn states_not_tidy()
    ensures wrong { ¬ IsTidy with_no_number }
    ensures lost { ¬ IsTidy with_lost_cell }
    ensures twice { ¬ IsTidy with_second_name }
    ensures zero { ¬ IsTidy with_zero }
{
    mc_pure::derived_is_true();
}
