//! What holds of documents of which some lines are read.

ghost use Rattle.mc_judge.specs.Judge.Laws.{OpenDocumentsEndEarly};

use mc_lines::cert::{line_is_spelled_once, spelled_lines_are_read};

/// The verdict on a document whose lines are read and that has not ended is that it ends early.
pub fn open_documents_end_early()
    ensures { OpenDocumentsEndEarly }
{
    line_is_spelled_once();
    spelled_lines_are_read();
}
