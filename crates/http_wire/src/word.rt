//! Words in the values of fields.
ghost use Rattle.std.specs.Prelude.{◌≡◌, reverse};
ghost use Rattle.httparse.specs.Grammar.{is_ows, skip_ows, trim_ows};
ghost use Rattle.http_wire.specs.Fields.{same_word, says_close, is_continue};

/// Whether two words are the same without regard to case. Most are the same as they stand.
pub fn same_word(a: &[u8], b: &[u8]) -> bool
    ensures { result ≡ same_word a.now b.now }
{
    a == b || a.eq_ignore_ascii_case(b)
}

/// Whether a value of an Expect field awaits 100 Continue.
pub fn is_continue(value: &[u8]) -> bool
    ensures { result ≡ is_continue value.now }
{
    same_word(value, b"100-continue")
}

/// Whether a value of a Connection field asks to close.
pub fn says_close(value: &[u8]) -> bool
    ensures { result ≡ says_close value.now }
{
    value
        .split(|b| *b == b',')
        .any(|word| same_word(trimmed(word), b"close"))
}

// The bytes without blanks and tabs at both ends.
#[tactic(auto, unfolding(httparse::specs::Grammar::trim_ows))]
fn trimmed(bytes: &[u8]) -> &[u8]
    ensures { result.now ≡ trim_ows bytes.now }
{
    without_last(without_first(bytes))
}

fn is_blank(b: u8) -> bool
    ensures { result ≡ is_ows b }
{
    b == b' ' || b == b'\t'
}

// The bytes without blanks and tabs in front.
fn without_first(bytes: &[u8]) -> &[u8]
    ensures { result.now ≡ skip_ows bytes.now }
{
    let mut start = 0;
    while start < bytes.len() && is_blank(bytes[start]) {
        start += 1;
    }
    &bytes[start..]
}

// The bytes without blanks and tabs at their end.
fn without_last(bytes: &[u8]) -> &[u8]
    ensures { result.now ≡ reverse (skip_ows (reverse bytes.now)) }
{
    let mut end = bytes.len();
    while end > 0 && is_blank(bytes[end - 1]) {
        end -= 1;
    }
    &bytes[..end]
}
