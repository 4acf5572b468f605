//! What reading a document line by line says. Each law is what a function with no body ensures.

ghost use Rattle.mc_kernel.specs.Reading.Laws.{LinesMakeWellMade, BegunIsKept, LinesKeep, RulesAreRead, EndedIsClosed};
ghost use Rattle.mc_kernel.specs.Reading.Laws.{LinesAreAdded};
ghost use Rattle.mc_kernel.specs.Reading.Laws.{CertificatesAreRead, ChainsAreRead, CertificatesStickNowhere};
ghost use Rattle.mc_kernel.specs.Reading.Laws.{RefusalsAreRead, RefusalIsOne, DocumentsAreDecided, ReadIsNotRefused};
ghost use Rattle.mc_kernel.specs.Reading.Laws.{RefusedIsNeverValid, JudgesAgree};

use crate::lines_are_judged;
use mc_rules_logic::back::back_is_well_made;
use mc_rules_logic::fold::{folding_makes_well, naming_makes_well, segments_make_well};
use mc_rules_logic::unfold::unfolding_is_well_made;
use mc_rules_steps::steps_are_well_made;
use mc_state::numbers_stay_bounded;

/// What a line makes of a branch whose state is well made has well-made states.
pub fn lines_make_well_made()
    ensures { LinesMakeWellMade }
{
    steps_are_well_made();
    unfolding_is_well_made();
    back_is_well_made();
    folding_makes_well();
    segments_make_well();
    naming_makes_well();
    numbers_stay_bounded();
}

/// The open branches of a document that is read have well-made states, and its heads are well formed, whatever
/// lines are read. The line of a rule is read exactly where it is an instance at the first open branch, in whose
/// place its successors come.
pub fn lines_are_read()
    ensures begun { BegunIsKept }
    ensures kept { LinesKeep }
    ensures rules { RulesAreRead }
{
    lines_are_judged();
    steps_are_well_made();
    unfolding_is_well_made();
    back_is_well_made();
    folding_makes_well();
    segments_make_well();
    naming_makes_well();
    numbers_stay_bounded();
}

/// A document goes on line by line, and where it has ended no branch is open.
pub fn documents_go_on()
    ensures added { LinesAreAdded }
    ensures closed { EndedIsClosed }
{}

/// The lines after its header end a document exactly where it is a valid certificate, or a chain of one pass with
/// these stuck branches.
pub fn documents_are_read()
    ensures certificates { CertificatesAreRead }
    ensures no_stuck { CertificatesStickNowhere }
    ensures chains { ChainsAreRead }
{
    lines_are_judged();
    steps_are_well_made();
    unfolding_is_well_made();
    back_is_well_made();
    folding_makes_well();
    segments_make_well();
    naming_makes_well();
    numbers_stay_bounded();
}

/// A document has ended, is open, or has one line that is refused, with one premise; then nothing after it makes
/// the document valid.
pub fn refusals_are_one()
    ensures answered { RefusalsAreRead }
    ensures once { RefusalIsOne }
    ensures decided { DocumentsAreDecided }
    ensures apart { ReadIsNotRefused }
    ensures never_valid { RefusedIsNeverValid }
{
    lines_are_judged();
    steps_are_well_made();
    unfolding_is_well_made();
    back_is_well_made();
    folding_makes_well();
    segments_make_well();
    naming_makes_well();
    numbers_stay_bounded();
}

/// What judges rightly judges alike: which line is refused, and its premise, are the document's own.
pub fn judges_agree()
    ensures { JudgesAgree }
{
    lines_are_judged();
    steps_are_well_made();
    unfolding_is_well_made();
    back_is_well_made();
    folding_makes_well();
    segments_make_well();
    naming_makes_well();
    numbers_stay_bounded();
}
