// What holds of two calls of the program.
ghost use Rattle.std.specs.Prelude.{ℕ, List};
ghost use Rattle.mc_app.specs.Alike.{AreJudgedAlike};
ghost use Rattle.mc_app.specs.Answers.{IsWhyWords, status_of};
ghost use Rattle.mc_app.specs.Demo.Ending.{DemosAreAnswered};
ghost use Rattle.mc_app.specs.Statuses.{IsComplete, IsDecided};
ghost use Rattle.mc_app.specs.declared.answer.Answer.{Answer};
ghost use Rattle.mc_app.specs.declared.answer.Status.{Status};
ghost use Rattle.mc_load.specs.Inputs.Inputs.{Holds};

use mc_def_read::texts_are_read_once as definitions_are_read_once;
use mc_joins::chains::{lores_are_there, short_chains_are_legal};
use mc_judge::laws::open_documents_end_early;
use mc_load::read::{programs_are_not_refused, texts_are_read_once};
use mc_lower_laws::closed::closed_programs_ask_for_malloc_alone;
use mc_lower_laws::single::flow_graphs_are_one;

/// Where an analysis finds a program safe, or finds alarms, a check of the document that it has left ends with the same status;
/// where it came to its limit, the document ends early.
pub fn documents_are_judged_alike()
    ensures { AreJudgedAlike }
{
    texts_are_read_once();
    programs_are_not_refused();
    definitions_are_read_once();
    flow_graphs_are_one();
    lores_are_there();
    short_chains_are_legal();
    open_documents_end_early();
}

/// Where the words give a command whose program and definitions are known, are read and fit, an answer that has its cause is that of
/// the command.
pub fn answers_are_complete()
    ensures { (holds : Holds) (words : List (List ℕ)) (a : Answer) → IsWhyWords holds words a → IsComplete holds words (status_of a) }
{
    texts_are_read_once();
    programs_are_not_refused();
    definitions_are_read_once();
    flow_graphs_are_one();
    lores_are_there();
    short_chains_are_legal();
    open_documents_end_early();
}

/// Where a command that has its program and definitions ends by them, an analysis of a closed program that merges no states
/// decides it.
pub fn closed_programs_are_decided()
    ensures { (holds : Holds) (words : List (List ℕ)) (status : Status)
        → IsComplete holds words status → IsDecided holds words status }
{
    closed_programs_ask_for_malloc_alone();
}

/// Where the words ask for programs that are made, what the top call says of its end, of fronts and of files means this: it ends
/// well, unless the device failed or memory ran out; then it has printed the front of a text of these programs, or nothing; and
/// every file is as it was.
pub fn demos_are_answered()
    ensures { DemosAreAnswered }
{}
