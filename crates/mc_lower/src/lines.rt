// The points of a flow graph while it is made, and the labels that they go on to.
ghost use Rattle.std.specs.Prelude.{[], ◌≡◌, ◌+◌, ◌∷◌, ◌++◌, List, IfOk, OnErr, OnOk, length};
ghost use Rattle.mc_lower.specs.declared.builder.Label.{Label};
ghost use Rattle.mc_lower.specs.declared.lines.Awaited.{Awaited};
ghost use Rattle.mc_lower.specs.Lines.{AreLined, label_of};

use crate::builder::{BuildFault, Draft, Label, Mark};
use mc_base::stack::Stack;
use std::alloc::Global;

/// A label that waits: a label whose points come later, or where the `return` of an occurrence of a function goes.
#[derive(Clone, Copy, PartialEq, Eq)]
pub enum Awaited {
    Goal(Label),
    Out(usize),
}

/// The points of a flow graph while it is made, what is known of their labels, and the labels that wait, the next one first.
#[derive(Drop)]
pub struct Lines {
    pub points: Vec<Draft>,
    pub marks: Vec<Mark>,
    /// Where the `return` of each occurrence of a function goes.
    pub outs: Vec<Label>,
    pub waiting: Stack<Awaited>,
    /// How many labels there are.
    pub labels: u64,
    /// What was made goes on to this label.
    pub goal: Label,
    pub ghost lined: { AreLined (length points.items) marks.items outs.items waiting labels goal },
}

// This waits first; where there is no memory for it, nothing waits any more.
fn put_first(
    alloc: Global,
    waiting: &mut Stack<Awaited>,
    awaited: Awaited,
) -> Result<(), BuildFault>
    ensures first { OnOk result (waiting.new ≡ awaited ∷ waiting.old) }
    ensures none { OnErr result (waiting.new ≡ []) }
{
    if waiting.push(awaited).is_err() {
        *waiting = Stack::new(alloc);
        return Err(BuildFault::NoMemory);
    }
    Ok(())
}

// The label that waits first waits no more.
fn first_goal(waiting: &mut Stack<Awaited>) -> Label
    requires { (l : Label) × (rest : List Awaited) × (waiting.old ≡ Awaited.Goal l ∷ rest) }
    ensures { waiting.old ≡ Awaited.Goal result ∷ waiting.new }
{
    match waiting.pop() {
        Some(Awaited::Goal(label)) => label,
        _ => unreachable!(),
    }
}

impl Lines {
    /// No points; what is made begins at the goal.
    pub fn new(alloc: Global) -> Lines
        ensures points { result.points.items ≡ [] }
        ensures marks { result.marks.items ≡ [] }
        ensures outs { result.outs.items ≡ [] }
        ensures waiting { result.waiting ≡ [] }
    {
        Lines {
            points: Vec::new(alloc),
            marks: Vec::new(alloc),
            outs: Vec::new(alloc),
            waiting: Stack::new(alloc),
            labels: 1,
            goal: Label(0),
        }
    }

    /// The label that is new next.
    pub fn next(&self) -> Label
        ensures { result ≡ record { 0 = self.now.labels } }
    {
        Label(self.labels)
    }

    // How many labels there are with one more.
    fn more(&self) -> Result<u64, BuildFault>
        ensures { IfOk result (λ labels. labels ≡ self.now.labels + 1) }
    {
        match self.labels.checked_add(1) {
            Some(labels) => Ok(labels),
            None => Err(BuildFault::NoMemory),
        }
    }

    // A point that no label has yet.
    fn add(&mut self, draft: Draft) -> Result<(), BuildFault>
        ensures points { OnOk result (self.new.points.items ≡ self.old.points.items ++ draft ∷ []) }
        ensures marks { OnOk result (self.new.marks ≡ self.old.marks) }
        ensures outs { OnOk result (self.new.outs ≡ self.old.outs) }
        ensures waiting { OnOk result (self.new.waiting ≡ self.old.waiting) }
        ensures labels { OnOk result (self.new.labels ≡ self.old.labels) }
        ensures goal { OnOk result (self.new.goal ≡ self.old.goal) }
    {
        self.points.push(draft)?;
        Ok(())
    }

    /// A point at the goal; the goal is a new label then.
    pub fn put(&mut self, draft: Draft) -> Result<(), BuildFault>
        ensures points { OnOk result (self.new.points.items ≡ self.old.points.items ++ draft ∷ []) }
        ensures marks { OnOk result (self.new.marks.items ≡ self.old.marks.items
            ++ Mark.At self.old.goal (length self.old.points.items) ∷ []) }
        ensures goal { OnOk result (self.new.goal ≡ record { 0 = self.old.labels }) }
        ensures outs { OnOk result (self.new.outs ≡ self.old.outs) }
        ensures waiting { OnOk result (self.new.waiting ≡ self.old.waiting) }
    {
        let at = self.points.len();
        let next = self.next();
        let labels = self.more()?;
        self.add(draft)?;
        self.marks.push(Mark::At(self.goal, at))?;
        self.labels = labels;
        self.goal = next;
        Ok(())
    }

    /// A point at the goal; the goal is the label that waits first then.
    pub fn put_last(&mut self, draft: Draft) -> Result<(), BuildFault>
        requires { (l : Label) × (rest : List Awaited) × (self.old.waiting ≡ Awaited.Goal l ∷ rest) }
        ensures points { OnOk result (self.new.points.items ≡ self.old.points.items ++ draft ∷ []) }
        ensures marks { OnOk result (self.new.marks.items ≡ self.old.marks.items
            ++ Mark.At self.old.goal (length self.old.points.items) ∷ []) }
        ensures outs { OnOk result (self.new.outs ≡ self.old.outs) }
        ensures waiting { OnOk result (self.old.waiting ≡ Awaited.Goal self.new.goal ∷ self.new.waiting) }
    {
        let at = self.points.len();
        self.add(draft)?;
        self.marks.push(Mark::At(self.goal, at))?;
        self.goal = first_goal(&mut self.waiting);
        Ok(())
    }

    /// What was made goes on to this label; the goal is a new label then.
    pub fn go(&mut self, label: Label) -> Result<(), BuildFault>
        ensures points { OnOk result (self.new.points ≡ self.old.points) }
        ensures marks { OnOk result (self.new.marks.items ≡ self.old.marks.items ++ Mark.Same self.old.goal label ∷ []) }
        ensures labels { OnOk result (self.new.labels ≡ self.old.labels + 1) }
        ensures goal { OnOk result (self.new.goal ≡ record { 0 = self.old.labels }) }
        ensures outs { OnOk result (self.new.outs ≡ self.old.outs) }
        ensures waiting { OnOk result (self.new.waiting ≡ self.old.waiting) }
    {
        let next = self.next();
        let labels = self.more()?;
        self.marks.push(Mark::Same(self.goal, label))?;
        self.labels = labels;
        self.goal = next;
        Ok(())
    }

    /// What was made goes on to this label; the goal is the label that waits first then.
    pub fn go_last(&mut self, label: Label) -> Result<(), BuildFault>
        requires { (l : Label) × (rest : List Awaited) × (self.old.waiting ≡ Awaited.Goal l ∷ rest) }
        ensures points { OnOk result (self.new.points ≡ self.old.points) }
        ensures marks { OnOk result (self.new.marks.items ≡ self.old.marks.items ++ Mark.Same self.old.goal label ∷ []) }
        ensures outs { OnOk result (self.new.outs ≡ self.old.outs) }
        ensures waiting { OnOk result (self.old.waiting ≡ Awaited.Goal self.new.goal ∷ self.new.waiting) }
    {
        self.marks.push(Mark::Same(self.goal, label))?;
        self.goal = first_goal(&mut self.waiting);
        Ok(())
    }

    // What waits first waits no more.
    fn take(&mut self) -> Awaited
        requires { (a : Awaited) × (rest : List Awaited) × (self.old.waiting ≡ a ∷ rest) }
        ensures waiting { self.old.waiting ≡ result ∷ self.new.waiting }
        ensures points { self.new.points ≡ self.old.points }
        ensures marks { self.new.marks ≡ self.old.marks }
        ensures outs { self.new.outs ≡ self.old.outs }
        ensures labels { self.new.labels ≡ self.old.labels }
        ensures goal { self.new.goal ≡ self.old.goal }
    {
        match self.waiting.pop() {
            Some(awaited) => awaited,
            None => unreachable!(),
        }
    }

    // The label that waits.
    fn label_of(&self, awaited: Awaited) -> Label
        ensures { result ≡ label_of self.now.outs.items awaited }
    {
        match awaited {
            Awaited::Goal(label) => label,
            Awaited::Out(occurrence) => match self.outs.get(occurrence) {
                Some(label) => *label,
                None => Label(0),
            },
        }
    }

    /// What was made goes on to the label that waits first, and there is this point; the goal is a new label then.
    pub fn land(&mut self, draft: Draft) -> Result<(), BuildFault>
        requires { (a : Awaited) × (rest : List Awaited) × (self.old.waiting ≡ a ∷ rest) }
        ensures points { OnOk result (self.new.points.items ≡ self.old.points.items ++ draft ∷ []) }
        ensures outs { OnOk result (self.new.outs ≡ self.old.outs) }
        ensures marks { OnOk result ((a : Awaited) (rest : List Awaited) → self.old.waiting ≡ a ∷ rest
            → self.new.marks.items ≡ self.old.marks.items
            ++ Mark.Same self.old.goal (label_of self.old.outs.items a)
            ∷ Mark.At (label_of self.old.outs.items a) (length self.old.points.items) ∷ []) }
        ensures waiting { OnOk result ((a : Awaited) (rest : List Awaited) → self.old.waiting ≡ a ∷ rest → self.new.waiting ≡ rest) }
        ensures goal { OnOk result (self.new.goal ≡ record { 0 = self.old.labels }) }
    {
        let at = self.points.len();
        let awaited = self.take();
        let label = self.label_of(awaited);
        self.add(draft)?;
        self.go(label)?;
        self.marks.push(Mark::At(label, at))?;
        Ok(())
    }

    /// A new label, which waits first.
    pub fn wait(&mut self) -> Result<Label, BuildFault>
        ensures waiting { IfOk result (λ l. self.new.waiting ≡ Awaited.Goal l ∷ self.old.waiting) }
        ensures points { OnOk result (self.new.points ≡ self.old.points) }
        ensures marks { OnOk result (self.new.marks ≡ self.old.marks) }
        ensures outs { OnOk result (self.new.outs ≡ self.old.outs) }
        ensures goal { OnOk result (self.new.goal ≡ self.old.goal) }
    {
        let next = self.next();
        self.labels = self.more()?;
        put_first(
            *self.points.allocator(),
            &mut self.waiting,
            Awaited::Goal(next),
        )?;
        Ok(next)
    }

    /// A new occurrence of a function; where its `return` goes waits first.
    pub fn occur(&mut self) -> Result<usize, BuildFault>
        ensures last { IfOk result (λ i. i ≡ length self.old.outs.items) }
        ensures outs { OnOk result ((l : Label) × (self.new.outs.items ≡ self.old.outs.items ++ l ∷ [])) }
        ensures waiting { IfOk result (λ i. self.new.waiting ≡ Awaited.Out i ∷ self.old.waiting) }
        ensures points { OnOk result (self.new.points ≡ self.old.points) }
        ensures marks { OnOk result (self.new.marks ≡ self.old.marks) }
        ensures goal { OnOk result (self.new.goal ≡ self.old.goal) }
    {
        let next = self.next();
        let occurrence = self.outs.len();
        let labels = self.more()?;
        self.outs.push(next)?;
        self.labels = labels;
        put_first(
            *self.points.allocator(),
            &mut self.waiting,
            Awaited::Out(occurrence),
        )?;
        Ok(occurrence)
    }
}
