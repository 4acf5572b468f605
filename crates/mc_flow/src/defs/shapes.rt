// The structs of a program.
use mc_base::{Items, Kind};

/// A field of a struct: its name, and the kind of its values.
#[derive(Drop)]
pub struct FieldInfo {
    pub name: Items<u8>,
    pub kind: Kind,
}

/// A struct of a program: its name, and its fields in the order of the text.
#[derive(Drop)]
pub struct StructInfo {
    pub name: Items<u8>,
    pub fields: Items<FieldInfo>,
}

/// The structs of a program, by their numbers.
#[derive(Drop)]
pub struct Structs {
    pub list: Items<StructInfo>,
}
