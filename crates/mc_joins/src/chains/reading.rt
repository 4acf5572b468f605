// What reading chains line by line says. Each law is what a function with no body ensures.
ghost use Rattle.mc_joins.specs.Chains.ReadLaws.{PassLinesAreJudged, BegunChainIsKept, LinesKeepChains, PassLinesAreRead};
ghost use Rattle.mc_joins.specs.Chains.ReadLaws.{LegalChainsAreRead, AlarmsAreSaid, NoAlarmIsSaid, UnfinishedIsSaid, OpenIsSaid};
ghost use Rattle.mc_joins.specs.Chains.ReadLaws.{ShortChainsAreLegal, LinesAreAdded, RefusalsAreRead, RefusalIsOne};
ghost use Rattle.mc_joins.specs.Chains.ReadLaws.{ChainsAreDecided, ReadIsNotRefused, RefusedIsNeverLegal, ChainJudgesAgree, LegalChainsAreOne};
ghost use Rattle.mc_joins.specs.Chains.Short.{ShortReadingsAgree};

use crate::chains::laws::changes_are_judged;
use crate::same::numbering_is_sound;
use crate::{joins_are_determined, joins_make_well, steps_are_determined, stuck_is_every};
use mc_kernel::lines_are_judged;
use mc_kernel::reading::lines_make_well_made;
use mc_state::numbers_stay_bounded;

/// A final legal chain of one pass is what a chain of one pass is where no line changes the states of cuts. And lines
/// without one that does are read as there.
pub fn short_chains_are_legal()
    ensures legal { ShortChainsAreLegal }
    ensures read { ShortReadingsAgree }
{}

/// A chain goes on line by line. It has ended, is open, or has one line that is refused, with one premise.
pub fn refusals_are_one()
    ensures added { LinesAreAdded }
    ensures answered { RefusalsAreRead }
    ensures once { RefusalIsOne }
    ensures decided { ChainsAreDecided }
    ensures apart { ReadIsNotRefused }
{}

/// A line of a pass gives these branches and these states of cuts exactly where it is an instance, and is read exactly
/// where it is one at the first open branch. The states of cuts of a chain that is read are at cuts, and they and
/// those of its open branches are well made, whatever lines are read.
pub fn lines_are_read()
    ensures judged { PassLinesAreJudged }
    ensures begun { BegunChainIsKept }
    ensures kept { LinesKeepChains }
    ensures read { PassLinesAreRead }
{
    changes_are_judged();
    joins_make_well();
    lines_are_judged();
    lines_make_well_made();
    numbering_is_sound();
    numbers_stay_bounded();
}

/// The lines after its header are read to the end exactly where the document is a legal chain, with its stuck branches
/// and its states of cuts; and alarms, none, or that it is not final, are said of it exactly where they hold. No legal
/// chain goes on from lines of which one is refused.
pub fn legal_chains_are_read()
    ensures legal { LegalChainsAreRead }
    ensures alarms { AlarmsAreSaid }
    ensures no_alarm { NoAlarmIsSaid }
    ensures unfinished { UnfinishedIsSaid }
    ensures early { OpenIsSaid }
    ensures never_legal { RefusedIsNeverLegal }
{
    changes_are_judged();
    joins_make_well();
    lines_are_judged();
    lines_make_well_made();
    numbering_is_sound();
    numbers_stay_bounded();
}

/// What judges rightly judges alike: which line of a chain is refused, and its premise, are the chain's own, and so is
/// what it becomes. And a legal chain is one by whatever tells what is entailed.
pub fn chain_judges_agree()
    ensures judges { ChainJudgesAgree }
    ensures legal { LegalChainsAreOne }
{
    changes_are_judged();
    joins_are_determined();
    joins_make_well();
    lines_are_judged();
    lines_make_well_made();
    numbering_is_sound();
    numbers_stay_bounded();
    steps_are_determined();
    stuck_is_every();
}
