// Runs whose choices are drawn when they are asked for.
use crate::addresses::Addresses;
use crate::draws::Draws;
use crate::lines::{input_line, malloc_line, shape_line};
use crate::making::{Made, Wanted, make};
use crate::numbers::Numbers;
use crate::style::Style;
use mc_base::text::Place;
use mc_base::{FaultKind, NoMemory, StructId};
use mc_flow::defs::StructInfo;
use mc_flow::heap::Heap;
use mc_run::{End, Machine, Program, Stepped};
use mc_run_values::script::Script;
use mc_run_values::tasks::{Next, Work};
use mc_run_values::values::{Evaluator, Refusal};
use mc_semantics::resolved::{Action, Argument, AssumeShape, Function, RightSide};
use std::alloc::Global;

/// How many steps a run makes at most.
pub const STEPS: u64 = 2_000;

// How many choices a step asks for at most.
const CHOICES: usize = 12;

/// A program whose runs are tried.
#[derive(Clone, Copy)]
pub struct Task<'a> {
    pub alloc: Global,
    pub program: Program<'a>,
    pub structs: &'a [StructInfo],
    pub entry: &'a Function,
    pub numbers: &'a Numbers,
}

// What a step asks for.
enum Request<'a> {
    Input,
    Address(StructId),
    Shape(&'a AssumeShape),
}

// What a right side asks for.
fn request_of<'a>(right: &'a RightSide) -> Request<'a> {
    match right {
        RightSide::Malloc(shape, _) => Request::Address(*shape),
        RightSide::Expression(_) => Request::Input,
        RightSide::Call(_) => Request::Input,
    }
}

// What a step asks for, if it asks.
fn asked_by<'a>(next: Next<'a>) -> Request<'a> {
    match next {
        Next::AssumeShape(shape) => Request::Shape(shape),
        Next::Declare(_, item) => match &item.value {
            Some(right) => request_of(right),
            None => Request::Input,
        },
        Next::Simple(simple) => match &simple.action {
            Action::Assign(_, right) => request_of(right),
            _ => Request::Input,
        },
        Next::Return(_, value) => match value {
            Some(right) => request_of(right),
            None => Request::Input,
        },
        _ => Request::Input,
    }
}

/// The end of a run, where it had one, and its lines.
#[derive(Drop)]
pub struct Walked {
    pub fault: Option<(FaultKind, Place)>,
    pub lines: Vec<Vec<u8>>,
    pub steps: u64,
}

// A run, and the lines that it was given.
struct Walk<'a> {
    task: Task<'a>,
    style: Style,
    machine: Machine<'a>,
    addresses: Addresses,
    lines: Vec<Vec<u8>>,
}

impl Drop for Walk<'_> {
    fn drop(self) {
        let Walk {
            task: _,
            style: _,
            machine,
            addresses,
            lines,
        } = self;
        drop(machine);
        drop(addresses);
        drop(lines);
    }
}

impl<'a> Walk<'a> {
    fn start(task: Task<'a>, style: Style) -> Result<Walk<'a>, NoMemory> {
        let alloc = task.alloc;
        let machine = Machine {
            work: Work::start(alloc, task.entry)?,
            heap: Heap::new(alloc),
            evaluator: Evaluator::new(alloc),
            alloc,
        };
        Ok(Walk {
            task,
            style,
            machine,
            addresses: Addresses::new(alloc),
            lines: Vec::new(alloc),
        })
    }

    fn input(&self, draws: &mut Draws) -> i64 {
        if draws.once_in(self.style.zero) {
            0
        } else {
            self.task.numbers.draw(draws, self.style.small)
        }
    }

    // An answer of malloc.
    fn address(&self, draws: &mut Draws) -> u64 {
        if draws.once_in(self.style.null) {
            return 0;
        }
        if draws.once_in(self.style.freed) {
            if let Some(address) = self.addresses.freed(draws, &self.machine.heap) {
                return address;
            }
        }
        self.addresses.fresh()
    }

    // What arguments are.
    fn values(&self, arguments: &[Argument]) -> Result<Vec<i64>, NoMemory> {
        let mut values = Vec::new(self.task.alloc);
        for argument in arguments {
            let value = match argument {
                Argument::Variable(variable) => self.machine.work.held(*variable).unwrap_or(0),
                Argument::Constant(value) => *value,
            };
            values.push(value)?;
        }
        Ok(values)
    }

    fn shape(&self, draws: &mut Draws, shape: &AssumeShape) -> Result<Option<Made>, NoMemory> {
        let arguments = self.values(shape.arguments.as_slice())?;
        let wanted = Wanted {
            alloc: self.task.alloc,
            defs: self.task.program.defs.as_slice(),
            predicate: shape.predicate,
            arguments: arguments.as_slice(),
            numbers: self.task.numbers,
            style: self.style,
            address: self.addresses.fresh(),
        };
        make(wanted, draws)
    }

    // The line of a shape, whose addresses are used then.
    fn shape_line(&mut self, made: &Made) -> Result<Vec<u8>, NoMemory> {
        for block in made.blocks.as_slice() {
            self.addresses.put(block.address, block.shape)?;
        }
        shape_line(self.task.alloc, self.task.structs, made)
    }

    // A line for what a step asks for, if one is found.
    fn line(&mut self, draws: &mut Draws, next: Next<'a>) -> Result<Option<Vec<u8>>, NoMemory> {
        let alloc = self.task.alloc;
        match asked_by(next) {
            Request::Input => Ok(Some(input_line(alloc, self.input(draws))?)),
            Request::Address(shape) => {
                let address = self.address(draws);
                if address > 0 {
                    self.addresses.put(address, shape.0)?;
                }
                Ok(Some(malloc_line(alloc, address)?))
            }
            Request::Shape(shape) => match self.shape(draws, shape)? {
                Some(made) => Ok(Some(self.shape_line(&made)?)),
                None => Ok(None),
            },
        }
    }

    // Whether the run may be given a line more.
    fn has_room(&self) -> bool {
        (self.lines.len() as u64) < self.style.lines
    }

    // A step, with lines for what it asks for.
    fn step(&mut self, draws: &mut Draws, next: Next<'a>) -> Result<Stepped, NoMemory> {
        let mut own: Vec<u8> = Vec::new(self.task.alloc);
        for _ in 0..CHOICES {
            let mut script = Script::of(own.as_slice());
            let stepped = mc_run::make(&mut self.machine, self.task.program, &mut script, next)?;
            if stepped != Stepped::Unanswered(Refusal::Missing) || !self.has_room() {
                return Ok(stepped);
            }
            let Some(line) = self.line(draws, next)? else {
                return Ok(stepped);
            };
            own.extend_from_slice(line.as_slice())?;
            own.push(b'\n')?;
            self.lines.push(line)?;
        }
        Ok(Stepped::Stuck)
    }

    // What the run comes to: its fault and the place of it, if it has one, and its steps.
    fn run(&mut self, draws: &mut Draws) -> Result<(Option<(FaultKind, Place)>, u64), NoMemory> {
        for steps in 0..STEPS {
            let next = self.machine.work.arrive()?;
            match self.step(draws, next)? {
                Stepped::Goes => {}
                Stepped::Ends(End::Fault(kind, place)) => return Ok((Some((kind, place)), steps)),
                _ => return Ok((None, steps)),
            }
        }
        Ok((None, STEPS))
    }

    // The lines that it was given.
    fn into_lines(self) -> Vec<Vec<u8>> {
        let Walk {
            task: _,
            style: _,
            machine,
            addresses,
            lines,
        } = self;
        drop(machine);
        drop(addresses);
        lines
    }
}

/// A run whose choices are drawn.
pub fn run_drawn(task: Task<'_>, style: Style, draws: &mut Draws) -> Result<Walked, NoMemory> {
    let mut walk = Walk::start(task, style)?;
    let (fault, steps) = walk.run(draws)?;
    let lines = walk.into_lines();
    Ok(Walked {
        fault,
        lines,
        steps,
    })
}
