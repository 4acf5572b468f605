// What lines do with the branch that they stand on.
ghost use Rattle.std.specs.Prelude.{◌≡◌, ◌≤◌, ◌↔◌, true};
ghost use Rattle.mc_exact.specs.Marks.{keeps_exact};
ghost use Rattle.mc_follow.specs.Alarms.Tracks.{is_allocation};
ghost use Rattle.mc_follow.specs.Alarms.Walks.{ended_by, ending, goes_on};

use mc_lines::cert::Line;
use mc_state::InstrRule;

/// More branches than these may not end.
pub const PATHS: u64 = 65536;

/// Whether a line is one of a rule that ends no branch as stuck.
pub fn goes_on(line: &Line) -> bool
    ensures { result ≡ goes_on line.now }
{
    match line {
        Line::Header(_, _) => false,
        Line::Cut(_) => false,
        Line::Head(_, _) => false,
        Line::Pass => false,
        Line::End => false,
        Line::C1 => false,
        _ => true,
    }
}

/// Whether a line is that of an allocation.
pub fn is_allocation(line: &Line) -> bool
    ensures { result ≡ is_allocation line.now }
{
    match line {
        Line::Step(InstrRule::S10) => true,
        _ => false,
    }
}

/// Whether what comes of an exact branch by a line is exact.
pub fn keeps_exact(line: &Line) -> bool
    ensures { result ≡ keeps_exact line.now }
{
    match line {
        Line::Step(InstrRule::S4) => false,
        Line::Step(InstrRule::S15) => false,
        Line::Step(InstrRule::S16) => false,
        Line::Step(_) => true,
        _ => false,
    }
}

/// How many branches a line ends: one at most.
pub fn ending(line: &Line) -> u64
    ensures { result ≡ ending line.now }
{
    match line {
        Line::Step(InstrRule::S17) => 1,
        Line::L12 => 1,
        Line::L13(_, _, _) => 1,
        Line::L14(_) => 1,
        Line::C1 => 1,
        _ => 0,
    }
}

/// Whether lines end no more branches than may end.
pub fn ends_few(lines: &[Line]) -> bool
    ensures { (result ≡ true) ↔ (ended_by lines.now ≤ 65536) }
{
    let mut ended = 0;
    for line in lines {
        ended += ending(line);
        if ended > PATHS {
            return false;
        }
    }
    true
}
