// Programs that were made.

use crate::BlockKind;

/// A program that was made from a number.
#[derive(Drop)]
pub struct Made {
    pub text: Vec<u8>,
    /// The kinds of its blocks, in their order.
    pub kinds: Vec<BlockKind>,
    /// The number that the next program comes of.
    pub next: u32,
}
