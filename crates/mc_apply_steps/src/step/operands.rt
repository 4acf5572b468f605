// Operands, read and put into a state.
ghost use Rattle.std.specs.Prelude.{◌≡◌, IfOk, OnOk};
ghost use Rattle.mc_apply_steps.specs.Step.Values.{CanPut, FitsRead, IsRead, StaysRead, value_node, with_value};

use mc_base::{NULL, NoMemory, NodeId};
use mc_flow::Operand;
use mc_rules_steps::operands_fit;
use mc_symbolic::changes::{State, add_number};

/// What an operand is: a node that is there, or a number that gets a node of its own.
#[derive(Clone, Copy)]
pub enum Value {
    Node(NodeId),
    Number(i64),
}

/// What an operand is. None for a variable that is not known.
pub fn read(s: &State, o: Operand) -> Option<Value>
    ensures here { IsRead s.now o result }
    ensures stays { StaysRead s.now o result }
    ensures fits { FitsRead o result }
{
    // For the proof alone: the number of an operand may stand in an atom.
    operands_fit();
    match o {
        Operand::Var(x) => match s.var(x) {
            Some(node) => Some(Value::Node(node)),
            None => None,
        },
        Operand::Const(c) => {
            if c == 0 {
                Some(Value::Node(NULL))
            } else {
                Some(Value::Number(c))
            }
        }
    }
}

/// Puts a value into the state, and answers its node. Without memory the state is lost.
pub fn put(s: &mut State, value: &Value) -> Result<NodeId, NoMemory>
    requires { CanPut value.now }
    ensures node { IfOk result (λ n. n ≡ value_node s.old value.now) }
    ensures state { OnOk result (s.new ≡ with_value s.old value.now) }
{
    match value {
        Value::Node(node) => Ok(*node),
        Value::Number(c) => add_number(s, c),
    }
}

/// The node that a value gets.
pub fn node_of(s: &State, value: &Value) -> NodeId
    ensures { result ≡ value_node s.now value.now }
{
    match value {
        Value::Node(node) => *node,
        Value::Number(_) => s.next_node(),
    }
}
