//! The order in which a search begins.
ghost use Rattle.std.specs.Prelude.{◌≡◌, ◌<◌, fold, length};
ghost use Rattle.std.specs.List.{All};
ghost use Rattle.asp_state.specs.SearchStates.{with_places};

use asp_order::order::Order;
use asp_vars::nogood::Nogood;

/// A bump for each place where a variable stands in one of the nogoods.
pub fn begin_all(order: &mut Order, nogoods: &[Nogood])
    requires { All (λ n. All (λ l. l.var < length order.old.activities) n.lits) nogoods.now }
    ensures { order.new ≡ fold (λ r n. with_places r n.lits) order.old nogoods.now }
{
    for nogood in nogoods {
        order.begin(nogood.lits.as_slice());
    }
}
