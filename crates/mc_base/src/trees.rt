//! Trees that are dropped in a loop, so that a tree of any depth needs no more stack than a leaf does, and no memory
//! either. A type of trees implements `Tree`, and its `drop` calls `drop_tree`.

ghost use Rattle.std.specs.Prelude.{◌≡◌, ◌<◌, ◌+◌, ℕ, None, Some, IfSome};
ghost use Rattle.mc_base.specs.Trees.{several_size, work, work_on};

use std::mem;

/// The trees right in a tree.
pub enum Parts<T, R> {
    Nothing,
    One(Box<T>),
    Several(Several<T, R>),
}

/// Two trees, or a list of trees and what stands beside it.
pub enum Several<T, R> {
    Two(Box<T>, Box<T>),
    Many(R, Vec<T>),
}

/// A tree that is taken apart, and made again of several trees.
pub trait Tree {
    ghost use Rattle.mc_base.specs.Trees.{Holds, parts_size};

    /// What a tree holds beside a list of trees.
    type Rest: Drop;

    ghost size: { Self → ℕ };

    /// The trees right in it. All else is dropped.
    fn parts(self) -> Parts<Self, Self::Rest>
        ensures { size self ≡ parts_size size result + 1 };

    /// A tree that holds these.
    fn holding(trees: Several<Self, Self::Rest>) -> Self
        ensures { Holds size result trees };
}

/// Drops a tree. The tree at hand is taken apart, and at most one other waits.
pub fn drop_tree<T: Tree>(tree: T) {
    let mut left = Some((tree, None));
    while let Some((tree, waiting)) = left {
        left = match waiting {
            Some(waiting) => Some(step_before(tree, waiting)),
            None => step_alone(tree),
        };
    }
}

// Takes a tree apart: the next tree at hand, and what waits then.
fn step_alone<T: Tree>(tree: T) -> Option<(T, Option<T>)>
    ensures { IfSome result (λ next. work_on T.size next.0 next.1 < work_on T.size tree None) }
{
    match tree.parts() {
        Parts::Nothing => None,
        Parts::One(part) => Some((Box::into_inner(part), None)),
        Parts::Several(trees) => split(trees),
    }
}

// The same while another tree waits.
fn step_before<T: Tree>(tree: T, waiting: T) -> (T, Option<T>)
    ensures { work_on T.size result.0 result.1 < work_on T.size tree (Some waiting) }
{
    match tree.parts() {
        Parts::Nothing => (waiting, None),
        Parts::One(part) => (Box::into_inner(part), Some(waiting)),
        Parts::Several(trees) => exchanged(trees, waiting),
    }
}

// One of several trees, and a tree of the others, if there are any: an empty one that waited would be taken apart
// and made again at each level of a deep tree.
fn split<T: Tree>(trees: Several<T, T::Rest>) -> Option<(T, Option<T>)>
    ensures { IfSome result (λ next. work_on T.size next.0 next.1 < work (several_size T.size trees + 1) 0) }
{
    match trees {
        Several::Two(first, second) => {
            Some((Box::into_inner(first), Some(Box::into_inner(second))))
        }
        Several::Many(rest, mut list) => match list.pop() {
            Some(last) => {
                if list.is_empty() {
                    list.destroy_empty();
                    return Some((last, None));
                }
                Some((last, Some(T::holding(Several::Many(rest, list)))))
            }
            None => {
                list.destroy_empty();
                None
            }
        },
    }
}

// The same with another tree, which takes the place of the one: a new tree holds all that waits.
fn exchanged<T: Tree>(trees: Several<T, T::Rest>, waiting: T) -> (T, Option<T>)
    ensures { work_on T.size result.0 result.1 < work (several_size T.size trees + 1) (T.size waiting) }
{
    match trees {
        Several::Two(mut first, second) => {
            let tree = mem::replace(&mut *first, waiting);
            (tree, Some(T::holding(Several::Two(second, first))))
        }
        Several::Many(rest, mut list) => match list.first_mut() {
            Some(first) => {
                let tree = mem::replace(first, waiting);
                (tree, Some(T::holding(Several::Many(rest, list))))
            }
            None => {
                list.destroy_empty();
                (waiting, None)
            }
        },
    }
}
