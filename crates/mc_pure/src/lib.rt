//! Pure facts: what is known of the numbers that nodes stand for, and which atoms are entailed.
//!
//! Stands on `mc_base`; called by `mc_pure_ops`, `mc_state` and what is above them.
#![tactic(auto)]

ghost use Rattle.std.specs.Prelude.{pos};
ghost use Rattle.mc_base.specs.declared.plain.Atom.TheVariants.{Ne, In};
ghost use Rattle.mc_base.specs.declared.plain.Atom.{Atom as Fact};
ghost use Rattle.mc_pure.specs.Pure.{Base};
ghost use Rattle.mc_pure.specs.Derived.{Follows, IsFalse};
ghost use Rattle.mc_pure.specs.Laws.{IsTrue, DerivedIsTrue, TrueIsNotFalse, FollowsFromMore, FalseFromMore, BlocksAtOneNode, BlockAtNull, EmptyRange};
ghost use Rattle.mc_pure.specs.Classes.{NormalSaysAll, EachHasNormalForm, EachIsDecided};
ghost use Rattle.mc_pure.specs.Examples.{node, known, values, at_one, at_null, between};

mod ask;
mod atoms;
mod classes;
mod close;
mod known;
mod nodes;
mod rows;
mod scope;
mod steps;
mod whole;

pub use ask::Term;
pub use classes::ClassPlace;
pub use whole::Pure;

/// What is entailed is true where what is known is, and then nothing false follows.
pub fn derived_is_true()
    ensures derived { DerivedIsTrue }
    ensures not_false { TrueIsNotFalse }
{}

/// More follows from more.
pub fn derived_grows()
    ensures atoms { FollowsFromMore }
    ensures false_stays { FalseFromMore }
{}

/// A normal form says all that follows.
pub fn normal_forms_say_all()
    ensures { NormalSaysAll }
{}

/// Whatever is known is false or has a normal form, and a test tells of each atom whether it is entailed.
pub fn each_is_decided()
    ensures normal { EachHasNormalForm }
    ensures decided { EachIsDecided }
{}

/// What no number can meet: blocks at one node, a block at null, an empty range.
pub fn contradictions_are_false()
    ensures one_node { BlocksAtOneNode }
    ensures at_null { BlockAtNull }
    ensures empty { EmptyRange }
{}

/// What is known of four nodes is true by some numbers, and some of what is entailed by it; and three
/// cases that are false.
pub fn four_nodes()
    ensures premises { IsTrue values known }
    ensures more { (f : Fact) → Base known f → Follows at_one f }
    ensures shifted { Follows known (In (node 4) (pos 6) (pos 8)) }
    ensures apart { Follows known (Ne (node 1) (node 2) (pos 0)) }
    ensures at_one_node { IsFalse at_one }
    ensures at_null { IsFalse at_null }
    ensures nothing_between { IsFalse between }
{}
