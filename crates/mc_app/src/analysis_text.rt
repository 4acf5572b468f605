// What is printed of analyses, and what they leave.
ghost use Rattle.std.specs.Prelude.{◌≡◌, ◌++◌, OnOk, option_map};
ghost use Rattle.mc_app.specs.Answers.{analysed_document, analysed_status};
ghost use Rattle.mc_app.specs.Printing.{analysed_text};

use crate::Status;
use crate::analysing::Analysed;
use mc_find::analysis::Analysis;
use std::alloc::AllocError;

impl Analysed {
    /// Adds the lines that tell of it.
    pub fn print(&self, out: &mut Vec<u8>) -> Result<(), AllocError>
        ensures { OnOk result (out.new.items ≡ out.old.items ++ analysed_text self.now) }
    {
        match self {
            Analysed::TooLong => out.extend_from_slice(b"program: TooLong\n")?,
            Analysed::Found(Analysis::Safe(findings)) => {
                out.extend_from_slice(&findings.report)?;
            }
            Analysed::Found(Analysis::Alarms(findings, _)) => {
                out.extend_from_slice(&findings.report)?;
            }
            Analysed::Tried(_, _, text) => out.extend_from_slice(text)?,
            Analysed::Found(Analysis::Paths(_)) => out.extend_from_slice(b"limit: Paths\n")?,
            Analysed::Found(Analysis::Unknown) => out.extend_from_slice(b"program: NotYet\n")?,
        }
        Ok(())
    }

    /// The document.
    pub fn document(&self) -> Option<&[u8]>
        ensures { option_map (λ text. text.now) result ≡ analysed_document self.now }
    {
        match self {
            Analysed::TooLong => None,
            Analysed::Found(Analysis::Safe(findings)) => Some(findings.document.as_slice()),
            Analysed::Found(Analysis::Alarms(findings, _)) => Some(findings.document.as_slice()),
            Analysed::Tried(findings, _, _) => Some(findings.document.as_slice()),
            Analysed::Found(Analysis::Paths(document)) => Some(document.as_slice()),
            Analysed::Found(Analysis::Unknown) => None,
        }
    }

    /// The status of the answer.
    pub fn status(&self) -> Status
        ensures { result ≡ analysed_status self.now }
    {
        match self {
            Analysed::TooLong => Status::Program,
            Analysed::Found(Analysis::Safe(_)) => Status::Good,
            Analysed::Found(Analysis::Alarms(_, _)) => Status::Alarm,
            Analysed::Tried(_, _, _) => Status::Alarm,
            Analysed::Found(Analysis::Paths(_)) => Status::Limit,
            Analysed::Found(Analysis::Unknown) => Status::Program,
        }
    }
}
