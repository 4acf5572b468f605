// Why a program with its definitions is refused.
ghost use Rattle.std.specs.Prelude.{◌≡◌, ◌++◌, OnOk};
ghost use Rattle.mc_load.specs.Inputs.Printing.{definitions_text, program_text, refusal_text};

use crate::read::Refusal as ProgramFault;
use mc_def_read::Refusal as DefinitionFault;
use std::alloc::{AllocError, Global};

/// Why a text is not read as a program.
#[derive(Drop)]
pub enum NoProgram {
    /// It has more than 1,048,576 bytes.
    TooBig,
    /// It is no program, or is not well typed.
    Refused(ProgramFault),
}

/// Why a text is not read as definitions.
#[derive(Drop)]
pub enum NoDefinitions {
    /// It has more than 262,144 bytes.
    TooBig,
    /// It has no definitions over the program's structs.
    Refused(DefinitionFault),
}

/// Why a program with its definitions is refused.
#[derive(Drop)]
pub enum Refusal {
    Program(NoProgram),
    Definitions(NoDefinitions),
    /// A shape command does not fit the definitions.
    Misfit(ProgramFault),
}

impl NoProgram {
    fn print(&self, alloc: Global, out: &mut Vec<u8>) -> Result<(), AllocError>
        ensures { OnOk result (out.new.items ≡ out.old.items ++ program_text self.now) }
    {
        match self {
            NoProgram::TooBig => out.extend_from_slice(b"TooBig")?,
            NoProgram::Refused(fault) => fault.print(alloc, out)?,
        }
        Ok(())
    }
}

impl NoDefinitions {
    fn print(&self, alloc: Global, out: &mut Vec<u8>) -> Result<(), AllocError>
        ensures { OnOk result (out.new.items ≡ out.old.items ++ definitions_text self.now) }
    {
        match self {
            NoDefinitions::TooBig => out.extend_from_slice(b"TooBig")?,
            NoDefinitions::Refused(fault) => fault.print(alloc, out)?,
        }
        Ok(())
    }
}

impl Refusal {
    /// Adds the text that tells of it.
    pub fn print(&self, alloc: Global, out: &mut Vec<u8>) -> Result<(), AllocError>
        ensures { OnOk result (out.new.items ≡ out.old.items ++ refusal_text self.now) }
    {
        match self {
            Refusal::Program(cause) => {
                out.extend_from_slice(b"program: ")?;
                cause.print(alloc, out)?;
            }
            Refusal::Definitions(cause) => {
                out.extend_from_slice(b"definitions: ")?;
                cause.print(alloc, out)?;
            }
            Refusal::Misfit(fault) => {
                out.extend_from_slice(b"program: ")?;
                fault.print(alloc, out)?;
            }
        }
        Ok(())
    }
}
