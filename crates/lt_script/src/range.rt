//! The range of numbers.
ghost use Rattle.std.specs.Prelude.{◌≡◌, ◌≤◌, Some, None, cond, nat_lt};
ghost use Rattle.lt_model.specs.Grammar.{digits_value};
ghost use Rattle.lt_grammar.specs.Grammar.{past};

// The least number past the range of an int, behind a minus or without one.
fn past_range(minus: bool) -> u64
    ensures is { result ≡ past minus }
    ensures most { result ≤ 9223372036854775809 }
{
    if minus {
        9_223_372_036_854_775_809
    } else {
        9_223_372_036_854_775_808
    }
}

// Ten times this is past each range.
const PAST_TENTH: u64 = 922_337_203_685_477_581;

/// The number that digits spell, where it is in the range of an int, behind a minus or without one. Zeros may stand before it.
pub fn read_number(minus: bool, digits: &[u8]) -> Option<u64>
    ensures { result ≡ cond (nat_lt (digits_value digits.now) (past minus)) (Some (digits_value digits.now)) None }
{
    let mut value: u64 = 0;
    'digits: for digit in digits {
        if value >= PAST_TENTH {
            return None;
        }
        value = value * 10 + u64::from(digit.saturating_sub(b'0'));
    }
    if value >= past_range(minus) {
        return None;
    }
    Some(value)
}
