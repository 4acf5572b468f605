// Asks a script for choices.
ghost use Rattle.std.specs.Prelude.{◌≡◌, ◌<◌, ◌^◌, IfOk, length, map, option_map};
ghost use Rattle.mc_lines.specs.Cert.Lines.{lines_of};
ghost use Rattle.mc_run_values.specs.Script.Models.{answered, block, choice};
ghost use Rattle.mc_run_values.specs.Script.Scripts.{Answers, IsAnswer, block_in, blocks_in, choice_in};

use crate::script::line::{NamedBlock, ScriptLine};
use crate::script::read::line_of;
use crate::script::shapes::NamedStructs;
use mc_base::text::Text;
use mc_base::{Items, StructId};
use mc_lines::cert::{LineFault, first_line};
use std::alloc::{AllocError, Global};
use std::marker::Model;

/// A block that comes into the heap: where, of which struct, and what its fields hold.
#[derive(Drop)]
pub struct NewBlock {
    pub address: u64,
    pub shape: StructId,
    pub fields: Items<i64>,
}

/// The value of an assumed shape, and its blocks.
#[derive(Drop)]
pub struct Shape {
    pub value: i64,
    pub blocks: Items<NewBlock>,
}

/// What a run is given from outside.
#[derive(Drop)]
pub enum Choice {
    Input(i64),
    /// The answer of `malloc`: an address, or 0 for null.
    Malloc(u64),
    Shape(Shape),
}

/// What a script answers when it is asked for a choice.
#[derive(Drop)]
pub enum Asked {
    /// No line is left.
    Missing,
    /// The line means no choice.
    Unreadable,
    Choice(Choice),
}

// A block of a line, its struct by its number; None where the program has no such struct.
fn new_block(
    alloc: Global,
    structs: &NamedStructs,
    named: &NamedBlock,
) -> Result<Option<NewBlock>, AllocError>
    ensures { IfOk result (λ made. option_map block made ≡ block_in structs.now named.now) }
{
    let name = Text::of(alloc, named.shape.as_bytes())?;
    let Some(number) = structs.number(&name) else {
        return Ok(None);
    };
    Ok(Some(NewBlock {
        address: named.address,
        shape: StructId(number as u64),
        fields: named.fields.copy(alloc)?,
    }))
}

// The blocks of a line; None where the program lacks the struct of one.
#[tactic(auto, using(crate::proofs::ScriptLemmas::Blocks::none_made))]
fn new_blocks(
    alloc: Global,
    structs: &NamedStructs,
    blocks: &[NamedBlock],
) -> Result<Option<Items<NewBlock>>, AllocError>
    ensures { IfOk result (λ made. option_map (map block) made ≡ blocks_in structs.now blocks.now) }
{
    let mut made = Vec::with_capacity(alloc, blocks.len())?;
    for named in blocks {
        let Some(block) = new_block(alloc, structs, named)? else {
            return Ok(None);
        };
        made.push(block)?;
    }
    Ok(Some(Items::of(made)))
}

// The choice that a line means; None where the program lacks a struct.
fn choice_of(
    alloc: Global,
    structs: &NamedStructs,
    line: &ScriptLine,
) -> Result<Option<Choice>, AllocError>
    ensures { IfOk result (λ made. option_map choice made ≡ choice_in structs.now line.now) }
{
    match line {
        ScriptLine::Input(value) => Ok(Some(Choice::Input(*value))),
        ScriptLine::Malloc(address) => Ok(Some(Choice::Malloc(*address))),
        ScriptLine::Shape(value, blocks) => {
            let Some(blocks) = new_blocks(alloc, structs, blocks.as_slice())? else {
                return Ok(None);
            };
            Ok(Some(Choice::Shape(Shape {
                value: *value,
                blocks,
            })))
        }
    }
}

// What a line answers.
fn answer(alloc: Global, structs: &NamedStructs, line: &[u8]) -> Result<Asked, AllocError>
    ensures { IfOk result (λ asked. IsAnswer structs.now line.now (answered asked)) }
{
    match line_of(alloc, line) {
        Err(LineFault::NoMemory) => Err(AllocError),
        Err(LineFault::NotJson) => Ok(Asked::Unreadable),
        Err(LineFault::Form) => Ok(Asked::Unreadable),
        Err(LineFault::Version) => Ok(Asked::Unreadable),
        Ok(line) => match choice_of(alloc, structs, &line)? {
            None => Ok(Asked::Unreadable),
            Some(choice) => Ok(Asked::Choice(choice)),
        },
    }
}

/// The lines of a script that are left. A line is read when it is asked for.
#[derive(Drop)]
pub struct Script<'a> {
    rest: &'a [u8],
}

impl<'a> Model for Script<'a> {
    ghost use Rattle.std.specs.Prelude.{List, ℕ};
    ghost use Rattle.mc_lines.specs.Cert.Lines.{lines_of};

    ghost Value = { List (List ℕ) };

    ghost view = { λ s. lines_of s.rest.now };
}

impl<'a> Script<'a> {
    /// The lines of a text. Each is ended by a line feed, which the last may lack.
    pub fn of(text: &'a [u8]) -> Script<'a>
        ensures { result ≡ lines_of text.now }
    {
        Script { rest: text }
    }

    /// How many lines are left.
    pub fn count(&self) -> usize
        ensures count { result ≡ length self.now }
        ensures small { result < 2 ^ 63 }
    {
        let mut count = 0;
        let mut rest = self.rest;
        while let Some((_, behind)) = first_line(rest) {
            count += 1;
            rest = behind;
        }
        count
    }

    /// What the next line answers, for a program with these structs.
    pub fn ask(&mut self, alloc: Global, structs: &NamedStructs) -> Result<Asked, AllocError>
        ensures { IfOk result (λ asked. Answers structs.now self.old (answered asked) self.new) }
    {
        let Some((line, rest)) = first_line(self.rest) else {
            return Ok(Asked::Missing);
        };
        self.rest = rest;
        answer(alloc, structs, line)
    }
}
