// Lines that stand out of place, and a pass with a head before it.
ghost use Rattle.std.specs.Prelude.{[]};
ghost use Rattle.mc_state.specs.declared.line.InstrRule.TheVariants.{S1};
ghost use Rattle.mc_lines.specs.declared.cert.line.Line.TheVariants.{Header, Cut, Head, Pass, End, Step, C1, C2, C3};
ghost use Rattle.mc_state.specs.declared.line.Form.TheVariants.{Certificate, Chain};
ghost use Rattle.mc_state.specs.declared.line.Version.TheVariants.{One};
ghost use Rattle.mc_kernel.specs.Examples.{at, loop_state};
ghost use Rattle.mc_kernel.specs.Readings.{begun};
ghost use Rattle.mc_kernel.specs.Shown.Lines.{Becomes, Refuses, one_cut, one_head, one_pass, closed_pass, one_end};

/// A cut at an input, at no point, twice, and after a head; a head where the loop's head is no cut, and before the last
/// head, these three in a certificate and in a chain; a head at no cut, and after the pass of a chain; and a header.
pub fn cuts_and_heads_out_of_place()
    ensures input { Refuses (begun Certificate) (Cut (at 2)) 3 }
    ensures no_point { Refuses (begun Certificate) (Cut (at 9)) 3 }
    ensures twice { Refuses (one_cut Certificate) (Cut (at 1)) 4 }
    ensures before { Refuses (one_cut Certificate) (Cut (at 0)) 4 }
    ensures late { Refuses (one_head Certificate) (Cut (at 5)) 1 }
    ensures late_chain { Refuses (one_head Chain) (Cut (at 5)) 1 }
    ensures uncut { Refuses (begun Certificate) (Head (at 1) loop_state) 1 }
    ensures uncut_chain { Refuses (begun Chain) (Head (at 1) loop_state) 1 }
    ensures no_cut { Refuses (one_cut Certificate) (Head (at 5) loop_state) 3 }
    ensures order { Refuses (one_head Certificate) (Head (at 1) loop_state) 3 }
    ensures order_chain { Refuses (one_head Chain) (Head (at 1) loop_state) 3 }
    ensures behind_rules { Refuses one_pass (Head (at 1) loop_state) 1 }
    ensures header { Refuses (one_cut Certificate) (Header One Certificate) 1 }
{}

/// The pass of a chain with a head opens the entry and the head.
pub fn passes_open_heads()
    ensures { Becomes (one_head Chain) Pass one_pass }
{}

/// A rule where the loop's head is no cut, before a pass, with and without heads, and where no branch is open; a pass
/// in a certificate, and one after a pass that changed nothing; a pass and the end where the loop's head is no cut; the
/// end where the roots or other branches are open, and before a pass; steps of chains that are not judged yet; and
/// lines after the end.
pub fn rules_out_of_place()
    ensures uncut { Refuses (begun Certificate) (Step S1) 1 }
    ensures no_pass { Refuses (one_cut Chain) (Step S1) 1 }
    ensures no_pass_headed { Refuses (one_head Chain) (Step S1) 1 }
    ensures no_branch { Refuses closed_pass C1 1 }
    ensures in_certificate { Refuses (one_cut Certificate) Pass 1 }
    ensures again { Refuses closed_pass Pass 3 }
    ensures pass_uncut { Refuses (begun Chain) Pass 1 }
    ensures end_uncut { Refuses (begun Certificate) End 1 }
    ensures roots_open { Refuses (one_cut Certificate) End 3 }
    ensures end_first { Refuses (one_cut Chain) End 1 }
    ensures still_open { Refuses one_pass End 3 }
    ensures new_state { Refuses one_pass (C2 []) 1 }
    ensures joined { Refuses one_pass (C3 0 []) 1 }
    ensures behind_end { Refuses one_end End 1 }
    ensures rule_behind_end { Refuses one_end (Step S1) 1 }
{}
