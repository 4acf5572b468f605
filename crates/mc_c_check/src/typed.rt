// Programs that are well typed.
ghost use Rattle.mc_c_syntax.specs.Ast.Views.{unit_of};
ghost use Rattle.mc_c_types.specs.Tables.{struct_infos};
ghost use Rattle.mc_c_types.specs.Typing.{IsWellTyped};
ghost use Rattle.mc_c_grammar.specs.Numbers.Numbers.{HasSmallNumbers};
ghost use Rattle.mc_c_grammar.specs.Places.Places.{AreDistinct, declared_places};
ghost use Rattle.std.specs.Prelude.{◌≡◌};

use mc_base::text::Text;
use mc_c_syntax::ast::Unit;
use mc_flow::defs::Structs;

/// A program that is well typed for its entry, has small numbers, and declares its variables at different places, with its
/// structs.
#[derive(Drop)]
pub struct Typed {
    unit: Unit,
    entry: Text,
    structs: Structs,
    pub ghost well_typed: { IsWellTyped (unit_of unit) entry },
    pub ghost small: { HasSmallNumbers (unit_of unit) },
    pub ghost places: { AreDistinct (declared_places (unit_of unit)) },
    pub ghost infos: { structs.list ≡ struct_infos (unit_of unit) },
}

impl Typed {
    /// A program that is known to be well typed.
    pub fn of(unit: Unit, entry: Text, structs: Structs) -> Typed
        requires well_typed { IsWellTyped (unit_of unit) entry }
        requires small { HasSmallNumbers (unit_of unit) }
        requires places { AreDistinct (declared_places (unit_of unit)) }
        requires infos { structs.list ≡ struct_infos (unit_of unit) }
        ensures unit { result.unit ≡ unit }
        ensures entry { result.entry ≡ entry }
        ensures structs { result.structs ≡ structs }
    {
        Typed {
            unit,
            entry,
            structs,
        }
    }

    /// The program.
    pub fn unit(&self) -> &Unit
        ensures { result.now ≡ self.now.unit }
    {
        &self.unit
    }

    /// The name of its entry.
    pub fn entry(&self) -> &[u8]
        ensures { result.now ≡ self.now.entry }
    {
        self.entry.as_slice()
    }

    /// Its structs, by their numbers.
    pub fn structs(&self) -> &Structs
        ensures same { result.now ≡ self.now.structs }
        ensures infos { result.now.list ≡ struct_infos (unit_of self.now.unit) }
    {
        &self.structs
    }
}
