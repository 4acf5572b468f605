// The numbers that words spell.
ghost use Rattle.std.specs.Prelude.{◌≡◌, ℕ, ◌<◌, ◌≤◌, MatchOption};
ghost use Rattle.std.specs.Option.{SomeIff};
ghost use Rattle.std.specs.Str.Parse.{digits_value, IsNumeral};
ghost use Rattle.mc_base.specs.Text.Numbers.{max_number, Spells, IsNoNumber};

// The greatest number of a text.
const MAX_NUMBER: u32 = 2147483647;

/// The number that a word spells, and None where it spells none or one above 2147483647.
pub fn number_value(word: &[u8]) -> Option<u32>
    ensures { MatchOption result (IsNoNumber word.now) (λ value. Spells word.now value × (value ≤ max_number)) }
{
    match word {
        [b'0'] => Some(0),
        [b'0', b'x', digits @ ..] => numeral_value(digits, 16),
        [b'0', ..] => None,
        _ => numeral_value(word, 10),
    }
}

// The number that one digit or more write.
fn numeral_value(digits: &[u8], radix: u32) -> Option<u32>
    requires low { 2 ≤ radix }
    requires high { radix ≤ 16 }
    ensures { SomeIff result (IsNumeral radix digits.now × (digits_value radix digits.now ≤ max_number)) (digits_value radix digits.now) }
{
    if digits.is_empty() {
        return None;
    }
    let mut value = 0u64;
    for byte in digits {
        let digit = char::from(*byte).to_digit(radix)?;
        value = value * u64::from(radix) + u64::from(digit);
        if value > u64::from(MAX_NUMBER) {
            return None;
        }
    }
    Some(value as u32)
}
