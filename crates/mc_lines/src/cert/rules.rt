// The names of rules of instructions.
ghost use Rattle.std.specs.Prelude.{◌≡◌, ◌≢◌, MatchOption};
ghost use Rattle.mc_state.specs.declared.line.InstrRule.{InstrRule as Rule};
ghost use Rattle.mc_lines.specs.Cert.Entries.{rule_name};

use mc_state::InstrRule;

/// The name of a rule of instructions.
pub fn rule_name(rule: InstrRule) -> &'static str
    ensures { result.now ≡ rule_name rule }
{
    match rule {
        InstrRule::S1 => "S1",
        InstrRule::S2 => "S2",
        InstrRule::S3 => "S3",
        InstrRule::S4 => "S4",
        InstrRule::S5 => "S5",
        InstrRule::S6 => "S6",
        InstrRule::S7 => "S7",
        InstrRule::S8 => "S8",
        InstrRule::S9 => "S9",
        InstrRule::S10 => "S10",
        InstrRule::S11 => "S11",
        InstrRule::S12 => "S12",
        InstrRule::S13 => "S13",
        InstrRule::S14 => "S14",
        InstrRule::S15 => "S15",
        InstrRule::S16 => "S16",
        InstrRule::S17 => "S17",
        InstrRule::S18 => "S18",
    }
}

/// The rule of instructions that has a name.
pub fn rule_named(name: &str) -> Option<InstrRule>
    ensures { MatchOption result ((rule : Rule) → name.now ≢ rule_name rule) (λ rule. name.now ≡ rule_name rule) }
{
    match name {
        "S1" => Some(InstrRule::S1),
        "S2" => Some(InstrRule::S2),
        "S3" => Some(InstrRule::S3),
        "S4" => Some(InstrRule::S4),
        "S5" => Some(InstrRule::S5),
        "S6" => Some(InstrRule::S6),
        "S7" => Some(InstrRule::S7),
        "S8" => Some(InstrRule::S8),
        "S9" => Some(InstrRule::S9),
        "S10" => Some(InstrRule::S10),
        "S11" => Some(InstrRule::S11),
        "S12" => Some(InstrRule::S12),
        "S13" => Some(InstrRule::S13),
        "S14" => Some(InstrRule::S14),
        "S15" => Some(InstrRule::S15),
        "S16" => Some(InstrRule::S16),
        "S17" => Some(InstrRule::S17),
        "S18" => Some(InstrRule::S18),
        _ => None,
    }
}
