// Names of types.
ghost use Rattle.std.specs.Bool.{IsFalse};
ghost use Rattle.mc_c_syntax.specs.Ast.Names.{is_reserved};

use mc_c_syntax::ast::Name;

/// A name that a typedef introduced.
#[derive(Drop)]
pub struct TypeName {
    pub name: Name,
    ghost is_free: { IsFalse (is_reserved name.text) },
}
