// How a side branch ends.
ghost use Rattle.std.specs.Prelude.{◌≡◌};
ghost use Rattle.mc_rules_logic.specs.Fold.Judges.{meeting_goal};
ghost use Rattle.mc_state.specs.Known.{Test, Tells};

use mc_base::EdgeId;
use mc_state::Goal;
use mc_state::graph::Edge;
use mc_symbolic::State;

/// L14: whether the edge is an Ind that meets the goal. Else the number of the first premise that is unmet.
pub fn meets_goal(s: &State, goal: &Goal, edge: EdgeId) -> Result<(), u8>
    ensures { (know : Test) → Tells know s.now → result ≡ meeting_goal know goal.now edge s.now }
{
    if s.is_false() {
        return Err(2);
    }
    let Some(Edge::Ind { at, pred, args }) = s.edge(edge) else {
        return Err(3);
    };
    if pred.0 != goal.pred.0 {
        return Err(3);
    }
    if !s.are_equal(goal.at, *at) {
        return Err(4);
    }
    if !s.are_all_equal(goal.args.as_slice(), args.as_slice()) {
        return Err(4);
    }
    Ok(())
}
