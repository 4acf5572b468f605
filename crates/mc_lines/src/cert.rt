//! Reads and writes documents: the lines of a text, and what each line says.

ghost use Rattle.std.specs.Prelude.{◌≡◌, ◌⊎◌, ℕ, List, Result, Ok, Err};
ghost use Rattle.mc_lines.specs.declared.cert.fault.LineFault.{LineFault as Fault};
ghost use Rattle.mc_lines.specs.declared.cert.fault.LineFault.TheVariants.{NoMemory};
ghost use Rattle.mc_lines.specs.declared.cert.line.Line.{Line as DocumentLine};
ghost use Rattle.mc_lines.specs.Cert.Document.{ReadsAs, Spells};

mod entry;
mod fault;
mod ids;
mod line;
mod parts;
mod pieces;
mod read;
mod rules;
mod write;

pub use entry::{Entry, put, three, two, values_of};
pub use fault::LineFault;
pub use line::Line;
pub use mc_state::{Form, InstrRule, JoinStep, NodeKind, RawState, Side, Version};
pub use parts::named;
pub use pieces::first_line;
pub use read::line_of;
pub use rules::rule_name;
pub use write::bytes_of;

/// Bytes spell one line at most.
pub fn line_is_spelled_once()
    ensures { (bytes : List ℕ) (x y : DocumentLine) → Spells bytes x → Spells bytes y → x ≡ y }
{}

/// Whatever is read of bytes that spell a line is that line, or memory is wanting.
pub fn spelled_lines_are_read()
    ensures { (bytes : List ℕ) (line : DocumentLine) (r : Result DocumentLine Fault) → Spells bytes line
        → ReadsAs bytes r → (r ≡ Ok line) ⊎ (r ≡ Err NoMemory) }
{}
