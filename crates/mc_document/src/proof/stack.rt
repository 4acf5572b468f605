// Branches on a stack.
ghost use Rattle.std.specs.Prelude.{◌≡◌, ◌∷◌, ◌++◌, [], MatchOption, OnOk, OnErr, drop, map, option_map};
ghost use Rattle.mc_check_line.specs.Judging.{path, paths};
ghost use Rattle.mc_kernel.specs.Readings.{first_branch, has_no_branch};

use mc_base::NoMemory;
use mc_check_line::{Branch, Next};
use std::alloc::Global;
use std::marker::Model;

/// Branches on a stack, the first of them at the top.
pub struct Stack {
    // The first last.
    items: Vec<Branch>,
}

/// Drops its parts. What holds one calls this.
impl Drop for Stack {
    fn drop(self) {
        let Stack { items } = self;
        drop(items);
    }
}

impl Model for Stack {
    ghost use Rattle.std.specs.Prelude.{List};
    ghost use Rattle.mc_kernel.specs.Branches.{Path};

    ghost Value = { List Path };

    ghost use Rattle.mc_document.specs.Proof.Stacks.{in_order};

    ghost view = { λ stack. in_order stack.items.items };
}

impl Stack {
    /// No branches.
    pub fn new(alloc: Global) -> Stack
        ensures { result ≡ [] }
    {
        Stack {
            items: Vec::new(alloc),
        }
    }

    /// These branches, the first at the top.
    pub fn of(mut list: Vec<Branch>) -> Stack
        ensures { result ≡ map path list.items }
    {
        list.reverse();
        Stack { items: list }
    }

    /// The first branch.
    pub fn top(&self) -> Option<&Branch>
        ensures { option_map (λ b. path b.now) result ≡ option_map (λ b. b.0) (first_branch self.now) }
    {
        self.items.as_slice().last()
    }

    /// Whether there is no branch.
    pub fn is_empty(&self) -> bool
        ensures { result ≡ has_no_branch self.now }
    {
        self.items.is_empty()
    }

    /// Takes the first branch.
    pub fn pop(&mut self) -> Option<Branch>
        ensures { MatchOption result ((self.old ≡ []) × (self.new ≡ [])) (λ b. self.old ≡ path b ∷ self.new) }
    {
        self.items.pop()
    }

    /// The first branch ends, if there is one.
    pub fn end_first(&mut self)
        ensures { self.new ≡ drop 1 self.old }
    {
        let _ended = self.items.pop();
    }

    /// Puts a branch at the top. Without memory nothing changes.
    pub fn push(&mut self, branch: Branch) -> Result<(), NoMemory>
        ensures ok { OnOk result (self.new ≡ path branch ∷ self.old) }
        ensures err { OnErr result (self.new ≡ self.old) }
    {
        self.items.push(branch)?;
        Ok(())
    }

    /// Puts two branches at the top, the first above the second. Without memory nothing changes.
    fn put_two(&mut self, first: Branch, second: Branch) -> Result<(), NoMemory>
        ensures ok { OnOk result (self.new ≡ path first ∷ path second ∷ self.old) }
        ensures err { OnErr result (self.new ≡ self.old) }
    {
        self.items.reserve(2)?;
        self.items.push(second).unwrap();
        self.items.push(first).unwrap();
        Ok(())
    }

    /// Puts branches at the top, in this order. Without memory nothing changes.
    fn put_all(&mut self, mut list: Vec<Branch>) -> Result<(), NoMemory>
        ensures ok { OnOk result (self.new ≡ map path list.items ++ self.old) }
        ensures err { OnErr result (self.new ≡ self.old) }
    {
        list.reverse();
        self.items.append(&mut list)
    }

    /// Puts what comes of a line at the top. Without memory nothing changes.
    pub fn put(&mut self, next: Next) -> Result<(), NoMemory>
        ensures ok { OnOk result (self.new ≡ paths next ++ self.old) }
        ensures err { OnErr result (self.new ≡ self.old) }
    {
        match next {
            Next::Ended => Ok(()),
            Next::One(branch) => self.push(branch),
            Next::Two(first, second) => self.put_two(first, second),
            Next::More(list) => self.put_all(list),
        }
    }
}
