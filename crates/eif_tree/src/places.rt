ghost use Rattle.std.specs.Prelude.{◌≡◌};
ghost use Rattle.eif_tree.specs.ExpressionPlaces as places;
ghost use Rattle.eif_tree.specs.View.{expr_view};

use crate::tree::Expr;
use eif_base::Place;

/// Where an expression begins.
pub fn place_of(expr: &Expr) -> Place
    ensures { result ≡ places.place_of (expr_view expr.now) }
{
    expr.place
}
