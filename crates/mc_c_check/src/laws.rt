// Laws of typed programs.
ghost use Rattle.mc_c_check.specs.Ranks.{CallsHaveRanks};

/// The functions of a well typed program have ranks: each is above those that it calls, so no chain of calls goes on for ever.
pub fn calls_have_ranks()
    ensures { CallsHaveRanks }
{}
