// What is known of nodes, closed.
ghost use Rattle.std.specs.Prelude.{◌≡◌, ◌↔◌, ◌-ℤ◌, IsTrue, true, false, IfOk, OnOk, OnErr};
ghost use Rattle.mc_base.specs.declared.plain.Atom.TheVariants.{Eq, Ne, In};
ghost use Rattle.mc_pure.specs.Pure.{IsNode, AreOfOneKind, IsOffset, IsBound, IsWellFormed, kind_of};
ghost use Rattle.mc_pure.specs.Canonical.{IsLeast};
ghost use Rattle.mc_pure.specs.Classes.{HasNormalForm};
ghost use Rattle.mc_pure.specs.Derived.{Derived, Follows, IsFalse, HasRange};
ghost use Rattle.mc_pure.specs.Rows.{nodes_of};
ghost use Rattle.mc_pure.specs.Nodes.{RiseFrom};
ghost use Rattle.mc_pure.specs.Known.{IsFit, nothing, with_node, with_atom, with_start, without_start};

use crate::ask::{self, Term, distance, span_less};
use crate::atoms::Atoms;
use crate::classes::{ClassPlace, place_of};
use crate::close::{close, finish, include, include_start, row_of, start, start_row};
use crate::known::{Known, remove_first};
use crate::nodes::Nodes;
use crate::rows::Row;
use crate::steps::own_range;
use mc_base::ranges::Range;
use mc_base::{Atom, Kind, NoMemory, NodeId};
use std::alloc::Global;
use std::marker::Model;

/// The greatest offset of a written atom, 2^62 + 2^32.
const FARTHEST: i64 = 4_611_686_022_722_355_200;

/// The greatest end of a written range, 2^62.
const GREATEST: i64 = 4_611_686_018_427_387_904;

/// What is known of nodes: their kinds, atoms that are written down, and the nodes at which blocks start. What follows
/// from it is worked out as it comes, so that questions are answered without a search.
pub struct Pure {
    known: Known,
    rows: Vec<Row>,
    wrong: bool,
}

/// Drops what is known. What holds it calls this.
impl Drop for Pure {
    fn drop(self) {
        let Pure {
            known,
            rows,
            wrong: _,
        } = self;
        drop(known);
        drop(rows);
    }
}

impl Model for Pure {
    ghost use Rattle.mc_pure.specs.Pure.{Pure as Facts};

    ghost Value = { Facts };

    ghost use Rattle.mc_pure.specs.Known.{pure_of, IsFit, IsClosed};

    ghost view = { λ p. pure_of p.known };

    ghost invariant = { λ p. IsFit (pure_of p.known) × IsClosed (pure_of p.known) p.rows.items p.wrong };
}

/// Whether the number is an offset that may be written.
fn is_offset(c: i64) -> bool
    ensures yes { result ≡ true → IsOffset c }
    ensures no { result ≡ false → IsOffset c → ⊥ }
{
    -FARTHEST <= c && c <= FARTHEST
}

/// Whether the number may be the end of a range.
fn is_bound(end: i64) -> bool
    ensures yes { result ≡ true → IsBound end }
    ensures no { result ≡ false → IsBound end → ⊥ }
{
    -GREATEST <= end && end <= GREATEST
}

impl Pure {
    /// Node 0 alone.
    pub fn new(alloc: Global) -> Result<Pure, NoMemory>
        ensures { IfOk result (λ pure. pure ≡ nothing) }
    {
        let known = Known {
            nodes: Nodes::new(alloc)?,
            written: Atoms::new(alloc),
            starts: Vec::new(alloc),
        };
        let closed = close(alloc, &known)?;
        Ok(Pure {
            known,
            rows: closed.rows,
            wrong: closed.wrong,
        })
    }

    /// The same again.
    pub fn copy(&self) -> Result<Pure, NoMemory>
        ensures { IfOk result (λ pure. pure ≡ self.now) }
    {
        let alloc = *self.rows.allocator();
        Ok(Pure {
            known: self.known.copy()?,
            rows: Vec::from_slice(alloc, self.rows.as_slice())?,
            wrong: self.wrong,
        })
    }

    /// Whether the node is there.
    pub fn has(&self, node: NodeId) -> bool
        ensures yes { result ≡ true → IsNode self.now.kinds node }
        ensures no { result ≡ false → IsNode self.now.kinds node → ⊥ }
    {
        self.known.nodes.has(node)
    }

    /// Whether the atom may be assumed: its nodes are there, two of one kind, and its numbers within their bounds.
    pub fn allows(&self, atom: &Atom) -> bool
        ensures yes { result ≡ true → IsWellFormed self.now.kinds atom.now }
        ensures no { result ≡ false → IsWellFormed self.now.kinds atom.now → ⊥ }
    {
        match atom {
            Atom::Eq(a, b, c) => self.allows_pair(*a, *b, *c),
            Atom::Ne(a, b, c) => self.allows_pair(*a, *b, *c),
            Atom::In(a, lo, hi) => self.allows_range(*a, *lo, *hi),
        }
    }

    /// Whether the nodes are of one kind and the offset within its bounds.
    fn allows_pair(&self, a: NodeId, b: NodeId, c: i64) -> bool
        ensures yes { result ≡ true → (AreOfOneKind self.now.kinds a b × IsOffset c) }
        ensures no { result ≡ false → (AreOfOneKind self.now.kinds a b × IsOffset c) → ⊥ }
    {
        if !is_offset(c) {
            return false;
        }
        self.known.nodes.are_of_one_kind(a, b)
    }

    /// Whether the node is there and the ends within their bounds.
    fn allows_range(&self, a: NodeId, lo: i64, hi: i64) -> bool
        ensures yes { result ≡ true → (IsNode self.now.kinds a × IsBound lo × IsBound hi) }
        ensures no { result ≡ false → (IsNode self.now.kinds a × IsBound lo × IsBound hi) → ⊥ }
    {
        if !is_bound(lo) {
            return false;
        }
        if !is_bound(hi) {
            return false;
        }
        self.has(a)
    }

    /// Adds a node that is not there yet, in its kind's range. Without memory nothing changes.
    pub fn node(&mut self, node: NodeId, kind: Kind) -> Result<(), NoMemory>
        requires { IsNode self.old.kinds node → ⊥ }
        ensures ok { OnOk result (self.new ≡ with_node self.old node kind) }
        ensures err { OnErr result (self.new ≡ self.old) }
    {
        self.rows.reserve(1)?;
        let place = self.known.nodes.add(node, kind)?;
        if !self.wrong {
            self.rows.insert(place, start_row(node, kind))?;
        }
        Ok(())
    }

    /// Adds an atom to the written ones. Without memory nothing changes.
    pub fn assume(&mut self, atom: &Atom) -> Result<(), NoMemory>
        requires { IsWellFormed self.old.kinds atom.now }
        ensures ok { OnOk result (self.new ≡ with_atom self.old atom.now) }
        ensures err { OnErr result (self.new ≡ self.old) }
    {
        self.known.written.push(atom)?;
        if !self.wrong {
            self.wrong = include(&self.known, self.rows.as_mut_slice(), atom);
        }
        Ok(())
    }

    /// Adds that a block starts at the node. Without memory nothing changes.
    pub fn block(&mut self, at: NodeId) -> Result<(), NoMemory>
        requires { IsNode self.old.kinds at }
        ensures ok { OnOk result (self.new ≡ with_start self.old at) }
        ensures err { OnErr result (self.new ≡ self.old) }
    {
        self.known.starts.push(at)?;
        if !self.wrong {
            self.wrong = include_start(&self.known, self.rows.as_mut_slice(), at);
        }
        Ok(())
    }

    /// Takes one block away that starts at the node, where there is one, and what followed from it alone. Without memory
    /// nothing changes.
    pub fn unblock(&mut self, at: NodeId) -> Result<(), NoMemory>
        ensures ok { OnOk result (self.new ≡ without_start self.old at) }
        ensures err { OnErr result (self.new ≡ self.old) }
    {
        let alloc = *self.rows.allocator();
        let mut rows = start(alloc, &self.known)?;
        remove_first(&mut self.known.starts, at);
        self.wrong = finish(&self.known, rows.as_mut_slice());
        self.rows = rows;
        Ok(())
    }

    /// The least range that is entailed of a node, where what is known can be true.
    pub fn range(&self, node: NodeId) -> Range
        requires there { IsNode self.now.kinds node }
        requires not_false { IsFalse self.now → ⊥ }
        ensures { HasRange self.now node result.lo result.hi }
    {
        own_range(&row_of(&self.known, self.rows.as_slice(), node))
    }

    /// The least node of the node's class, and how much more the node is, where what is known can be true.
    pub fn class_of(&self, node: NodeId) -> ClassPlace
        requires there { IsNode self.now.kinds node }
        requires not_false { IsFalse self.now → ⊥ }
        ensures least { IsLeast self.now result.least }
        ensures equal { Follows self.now (Eq node result.least result.offset) }
    {
        place_of(&row_of(&self.known, self.rows.as_slice(), node))
    }

    /// What can be true has a normal form.
    pub fn has_normal_form(&self)
        requires { IsFalse self.now → ⊥ }
        ensures { HasNormalForm self.now }
    {
        let _known = &self.known;
    }

    /// The nodes that have kinds ascend, the written atoms are well formed, and blocks start at nodes.
    pub fn is_kept(&self)
        ensures rise { RiseFrom 1 self.now.kinds }
        ensures fit { IsFit self.now }
    {
        let _kinds = self.known.nodes.kinds();
    }

    /// Whether what is known can't be true.
    pub fn is_false(&self) -> bool
        ensures { IsTrue result ↔ IsFalse self.now }
    {
        self.wrong
    }

    /// Whether the atom is entailed.
    pub fn entails(&self, atom: &Atom) -> bool
        ensures { IsTrue result ↔ Derived self.now atom.now }
    {
        self.wrong || ask::entails(&self.known, self.rows.as_slice(), atom)
    }

    /// Whether the terms are entailed to be equal.
    pub fn are_equal(&self, left: &Term, right: &Term) -> bool
        ensures { IsTrue result ↔ Derived self.now (Eq left.now.node right.now.node (right.now.add -ℤ left.now.add)) }
    {
        let by = distance(left, right);
        self.wrong
            || ask::entails_eq(
                &self.known,
                self.rows.as_slice(),
                left.node,
                right.node,
                &by,
            )
    }

    /// Whether the terms are entailed to differ.
    pub fn are_different(&self, left: &Term, right: &Term) -> bool
        ensures { IsTrue result ↔ Derived self.now (Ne left.now.node right.now.node (right.now.add -ℤ left.now.add)) }
    {
        let by = distance(left, right);
        self.wrong
            || ask::entails_ne(
                &self.known,
                self.rows.as_slice(),
                left.node,
                right.node,
                &by,
            )
    }

    /// Whether the term is entailed to lie from `lo` to `hi`.
    pub fn lies_in(&self, term: &Term, lo: i64, hi: i64) -> bool
        ensures { IsTrue result ↔ Derived self.now (In term.now.node (lo -ℤ term.now.add) (hi -ℤ term.now.add)) }
    {
        let span = span_less(lo, hi, term.add);
        self.wrong || ask::entails_in(&self.known, self.rows.as_slice(), term.node, &span)
    }

    /// All nodes, ascending.
    pub fn nodes(&self) -> &[NodeId]
        ensures { result.now ≡ nodes_of self.now.kinds }
    {
        self.known.nodes.all()
    }

    /// The kind of a node other than 0. None for node 0, and where the node is not there.
    pub fn kind(&self, node: NodeId) -> Option<Kind>
        ensures { result ≡ kind_of self.now.kinds node }
    {
        self.known.nodes.kind(node)
    }

    /// The written atoms, in order.
    pub fn written(&self) -> &[Atom]
        ensures { result.now ≡ self.now.written }
    {
        self.known.written.all()
    }

    /// The nodes at which blocks start, in the order in which they came.
    pub fn starts(&self) -> &[NodeId]
        ensures { result.now ≡ self.now.starts }
    {
        self.known.starts.as_slice()
    }
}
