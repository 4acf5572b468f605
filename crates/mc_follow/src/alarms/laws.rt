// What the proofs of this crate stand on. The laws are what a function ensures that does nothing.
ghost use Rattle.mc_follow.specs.Alarms.Laws.{AssertionsAreCovered, BranchesAreFollowed, DocumentsAreFollowed};

use mc_cover::{firsts_are_covers, none_is_missed};
use mc_kernel::oracle::judges_are_there;
use mc_kernel::progress::{asked_lines_are_right, branches_stay_inside};
use mc_kernel::reading::{documents_are_read, documents_go_on, lines_are_read};
use mc_rules_steps::steps_are_well_made;

/// Documents are read line by line, and the lines of a chain that has ended are one of one pass.
pub fn documents_are_followed()
    ensures { DocumentsAreFollowed }
{
    judges_are_there();
    lines_are_read();
    documents_go_on();
    documents_are_read();
}

/// The line that a branch asks for is an instance there, and what comes of it stays inside the flow graph and open.
pub fn branches_are_followed()
    ensures { BranchesAreFollowed }
{
    asked_lines_are_right();
    branches_stay_inside();
}

/// What an instruction asserts fits the state of its side branch, and a cover of it is found there, if there is one.
pub fn assertions_are_covered()
    ensures { AssertionsAreCovered }
{
    steps_are_well_made();
    firsts_are_covers();
    none_is_missed();
}
