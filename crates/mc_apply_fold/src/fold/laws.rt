// What the rules that fold rest on. Each law is what a function ensures.
ghost use Rattle.mc_apply_fold.specs.Fold.Fitting.{AreKindsThere, AreNamesThere};

use mc_state::tests_tell;

/// Nodes that are known to have kinds are there.
pub fn kinds_are_there()
    ensures { AreKindsThere }
{
    tests_tell();
}

/// Of nodes that are there, those of names and those of parameters are there.
pub fn names_are_there()
    ensures { AreNamesThere }
{}
