// What jumps are judged by. The law is what a function with no body ensures.
ghost use Rattle.mc_check_line.specs.Jump.Fitting.{JumpsAreFits};

/// A state that is not false jumps to a state of its cut exactly where it fits that state, and else the first premise
/// that is unmet is that of fitting.
pub fn jumps_are_fits()
    ensures { JumpsAreFits }
{}
