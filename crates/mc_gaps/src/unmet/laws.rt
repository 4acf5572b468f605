// The law of gaps.
ghost use Rattle.mc_gaps.specs.Unmet.Laws.{GapsAreTold};

/// Of a valid flow graph the instruction at a point is unmet, by another cause than a shape, exactly where `gap_at` says
/// so. The law is what this function ensures, and it does nothing.
pub fn gaps_are_told()
    ensures { GapsAreTold }
{
    mc_state::back_is_told();
}
