//! Numbers of a few digits.
ghost use Rattle.std.specs.Prelude.{◌≡◌, ◌≤◌, ◌<◌, ◌^◌, IfSome, length, true};
ghost use Rattle.std.specs.List.{list_all};
ghost use Rattle.pb_base.specs.Digits.{is_digit, is_number, value_of, number_within, short_number};

/// The number that 1 to 5 digits write, with or without leading zeros, or None for any other text.
pub fn short_number(text: &[u8]) -> Option<u32>
    ensures { result ≡ short_number text.now }
{
    match number_within(text, 5) {
        Some(number) => Some(number as u32),
        None => None,
    }
}

/// The number that 1 to `most` digits write, with or without leading zeros, or None for any other text.
pub fn number_within(text: &[u8], most: usize) -> Option<u64>
    requires { most ≤ 19 }
    ensures value { result ≡ number_within most text.now }
    ensures small { IfSome result (λ number. number < 10 ^ most) }
{
    if is_number(text, most) {
        Some(value_of(text, most))
    } else {
        None
    }
}

fn is_number(text: &[u8], most: usize) -> bool
    ensures { result ≡ is_number most text.now }
{
    !text.is_empty() && text.len() <= most && are_digits(text)
}

fn are_digits(text: &[u8]) -> bool
    ensures { result ≡ list_all is_digit text.now }
{
    text.iter().all(|b| b.is_ascii_digit())
}

fn value_of(text: &[u8], most: usize) -> u64
    requires most { most ≤ 19 }
    requires digits { is_number most text.now ≡ true }
    ensures value { result ≡ value_of text.now }
    ensures small { result < 10 ^ most }
{
    let mut value = 0;
    for b in text {
        value = 10 * value + u64::from(*b - b'0');
    }
    value
}
