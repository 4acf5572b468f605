//! What rules of logic have in common: each is judged, its premises in the order of their numbers, and is sound.

ghost use Rattle.std.specs.Prelude.{◌≡◌, List, Option, Ok};
ghost use Rattle.mc_base.specs.declared.ids.NodeId.{NodeId as Node};
ghost use Rattle.mc_flow.specs.declared.defs.rules.Def.{Def};
ghost use Rattle.mc_state.specs.Known.{Test, Tells};
ghost use Rattle.mc_state.specs.Premises.{Judged};
ghost use Rattle.mc_rules_logic.specs.Rule.Answered.{AnswersWithMemory};
ghost use Rattle.mc_rules_logic.specs.Rule.Made.{IsMadeFor, Left, AreLeft};
ghost use Rattle.mc_state.specs.Rules.{IsSound};
ghost use Rattle.mc_state.specs.State.{State as Symbolic};

use mc_base::NodeId;
use mc_flow::defs::Defs;
use mc_state::LogicFault;
use mc_symbolic::State;
use std::alloc::Global;

/// A rule of logic, with the entries of its line. It is judged by what is entailed in a state and by the lists that are
/// written where a node is forgotten.
pub trait LogicRule {
    ghost judged: { Self → Test → Left → List Def → Option Node → Symbolic → Judged (List Symbolic) };

    /// The successors of the state, in order, or the number of the first premise that the state does not meet. The
    /// accessed node is that of the base of the access at the branch's point.
    fn successors(
        &self,
        alloc: Global,
        state: &State,
        defs: &Defs,
        access: Option<NodeId>,
    ) -> Result<Vec<State>, LogicFault>
        requires { IsMadeFor defs.now state.now }
        ensures { (know : Test) (left : Left) → Tells know state.now → AreLeft left state.now
            → AnswersWithMemory (λ next. next.items) (judged self.now know left defs.now access state.now) result };

    /// Whatever stands for a state stands for one of the successors that the rule gives. The law is what this function
    /// ensures, and it does nothing.
    fn is_sound(&self)
        ensures { (know : Test) (left : Left) (defs : List Def) (access : Option Node) (s : Symbolic)
            (next : List Symbolic) → IsMadeFor defs s → Tells know s → AreLeft left s
            → judged self.now know left defs access s ≡ Ok next → IsSound defs s next };
}
