// The names of a rule, as they are kept.
ghost use Rattle.std.specs.Prelude.{◌+◌, ◌≤◌, length};

use crate::words::Words;
use mc_base::Kind;

/// The names that are introduced up to a place, in order, with their kinds: first those of the definition.
#[derive(Drop)]
pub struct Scope<'a, 'b> {
    pub front: &'b Words<'a>,
    pub own: Words<'a>,
    pub kinds: Vec<Kind>,
    ghost whole: { length front.now + length own ≤ length kinds.items },
}
