// What a line of a script says.
use mc_base::Items;

/// A block of a shape: its address, the name of its struct, and what its fields hold.
#[derive(Drop)]
pub struct NamedBlock {
    pub address: u64,
    pub shape: String,
    pub fields: Items<i64>,
}

/// A line of a script, with structs by their names.
#[derive(Drop)]
pub enum ScriptLine {
    Input(i64),
    /// The answer of `malloc`: an address, or 0 for null.
    Malloc(u64),
    /// The value of an assumed shape, and its blocks.
    Shape(i64, Items<NamedBlock>),
}
