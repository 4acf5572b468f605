// Readers of expressions in boxes, so that what holds one is small.
ghost use Rattle.mc_c_syntax.specs.Ast.Readers.{IsSame};
ghost use Rattle.mc_c_parse_expr.specs.Expressions.{CompletesExpression};
ghost use Rattle.mc_c_parse_simple.specs.Calls.{Sums};
ghost use Rattle.std.specs.Prelude.{IfOk};

use mc_c_parse_expr::ExpressionReader;
use std::alloc::{AllocError, Global};

/// A reader of an expression.
pub fn fresh_sum(alloc: Global) -> Result<Box<ExpressionReader>, AllocError>
    ensures { IfOk result (λ reader. IsSame (CompletesExpression reader.value) Sums) }
{
    let fresh = ExpressionReader::new(alloc);
    let reader = Box::new(alloc, fresh)?;
    Ok(reader)
}
