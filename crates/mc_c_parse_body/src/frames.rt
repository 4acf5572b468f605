// What a statement stands in.
ghost use Rattle.std.specs.Prelude.{◌≡◌, IfOk, [], ◌∷◌};
ghost use Rattle.mc_c_parse_body.specs.Frames.{body_of, frames_of};

use mc_base::text::Place;
use mc_c_syntax::ast::{Condition, ForHead, Statement};
use std::alloc::{AllocError, Global};

/// What a statement stands in.
#[derive(Drop)]
pub enum Frame {
    /// A block, at its `{`, with the statements before.
    Block(Place, Vec<Statement>),
    /// The first part of an `if`.
    If(Place, Condition),
    /// The second part of an `if`, with the first.
    Else(Place, Condition, Box<Statement>),
    While(Place, Condition),
    Do(Place),
    For(Box<ForHead>),
}

/// All that a statement stands in: the frames, of which the last is the innermost, and the statements of the
/// function before them.
#[derive(Drop)]
pub struct Nest {
    pub alloc: Global,
    pub frames: Vec<Frame>,
    pub body: Vec<Statement>,
}

impl Nest {
    /// No statements, and no frames.
    pub fn new(alloc: Global) -> Nest
        ensures frames { result.frames.items ≡ [] }
        ensures body { result.body.items ≡ [] }
    {
        Nest {
            alloc,
            frames: Vec::new(alloc),
            body: Vec::new(alloc),
        }
    }

    /// Puts this frame within.
    pub fn enter(&mut self, frame: Frame) -> Result<(), AllocError>
        ensures { IfOk result (λ done. (frames_of self.new ≡ frame ∷ frames_of self.old) × (self.new.body ≡ self.old.body)) }
    {
        self.frames.push(frame)?;
        Ok(())
    }
}
