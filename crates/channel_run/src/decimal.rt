//! Numbers as scripts and words spell them.
ghost use Rattle.std.specs.Prelude.{◌≡◌, ◌-◌, ◌^◌, min};
ghost use Rattle.std.specs.List.{list_all};
ghost use Rattle.channel_run.specs.Decimal.{is_digit, value_of, is_number, number_up_to};

/// The number that decimal digits stand for, or 2^64 - 1 where it is greater.
fn value_of(digits: &[u8]) -> u64
    ensures { result ≡ min (value_of digits.now) (2 ^ 64 - 1) }
{
    let mut value = 0u64;
    for digit in digits {
        value = value
            .saturating_mul(10)
            .saturating_add(u64::from(digit.saturating_sub(b'0')));
    }
    value
}

fn is_digits(word: &[u8]) -> bool
    ensures { result ≡ list_all is_digit word.now }
{
    word.iter().all(|c| 48 <= *c && *c <= 57)
}

fn is_number(word: &[u8]) -> bool
    ensures { result ≡ is_number word.now }
{
    if word.is_empty() || !is_digits(word) {
        return false;
    }
    word.len() == 1 || word[0] != 48
}

/// The number of a word that spells one of at most `limit`: decimal digits without a leading zero, but for `0` itself.
pub(crate) fn number_up_to(word: &[u8], limit: u32) -> Option<u32>
    ensures { result ≡ number_up_to limit word.now }
{
    let value = value_of(word);
    if is_number(word) && value <= u64::from(limit) {
        Some(value as u32)
    } else {
        None
    }
}
