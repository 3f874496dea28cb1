//! What a search knows without a decision.
ghost use Rattle.std.specs.Prelude.{IfSome};
ghost use Rattle.asp_vars.specs.Numbering.{var_count};
ghost use Rattle.asp_trail.specs.Trails.{IsVar};
ghost use Rattle.asp_search.specs.Sure.{IsFixed};

use crate::search::Search;
use asp_propagate::propagator::Propagator;
use asp_vars::lit::Var;

impl<P: Propagator> Search<'_, P> {
    /// The value that the variable has in each answer which is still to come on the path: the trail has it without a decision.
    pub fn fixed(&self, var: Var) -> Option<bool>
        requires { IsVar (var_count self.now.program) var }
        ensures { IfSome result (IsFixed self.now var) }
    {
        if self.state.is_clashing() {
            return None;
        }
        let _program = self.compiled.program();
        let _store = self.state.store();
        let trail = self.state.trail();
        if trail.value(var).is_none() {
            return None;
        }
        let place = trail.place_of(var);
        if trail.level_at(place) != 0 {
            return None;
        }
        let lit = trail.lit(place);
        Some(lit.truth())
    }
}
