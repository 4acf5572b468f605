// Names, compared.
ghost use Rattle.std.specs.Prelude.{◌≡◌};
ghost use Rattle.mc_c_syntax.specs.Ast.Names.{is_same};

use mc_base::text::Text;

/// Whether two names are the same.
pub fn is_same(left: &Text, right: &Text) -> bool
    ensures { result ≡ is_same left.now right.now }
{
    left.as_slice() == right.as_slice()
}
