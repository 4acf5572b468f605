// The names of lines.
ghost use Rattle.mc_judge.specs.Judge.Verdicts.{IsNamed};

use mc_lines::cert::{Line, rule_name};

/// The name of a line, which is the first text of its array.
pub fn name_of(line: &Line) -> &'static str
    ensures { IsNamed line.now result.now }
{
    match line {
        Line::Header(_, _) => "memcad",
        Line::Cut(_) => "cut",
        Line::Head(_, _) => "head",
        Line::Pass => "pass",
        Line::End => "end",
        Line::Step(rule) => rule_name(*rule),
        Line::L1(_) => "L1",
        Line::L2(_) => "L2",
        Line::L3(_) => "L3",
        Line::L4(_) => "L4",
        Line::L5(_, _) => "L5",
        Line::L6(_, _) => "L6",
        Line::L7(_, _, _, _, _) => "L7",
        Line::L8(_, _, _) => "L8",
        Line::L9(_, _) => "L9",
        Line::L10(_) => "L10",
        Line::L11(_) => "L11",
        Line::L12 => "L12",
        Line::L13(_, _, _) => "L13",
        Line::L14(_) => "L14",
        Line::L15(_) => "L15",
        Line::C1 => "C1",
        Line::C2(_) => "C2",
        Line::C3(_, _) => "C3",
    }
}
