//! Finding the end of a head's block.
ghost use Rattle.std.specs.Prelude.{◌≡◌, ◌≤◌, IfSome, None, length, take};
ghost use Rattle.http_wire.specs.Front.{empty_line, block_length};

use memchr::memchr;

// The length of the empty line in front.
fn empty_line(bytes: &[u8]) -> Option<usize>
    ensures line { result ≡ empty_line bytes.now }
    ensures within { IfSome result (λ n. n ≤ length bytes.now) }
{
    match bytes {
        [b'\n', ..] => Some(1),
        [b'\r', b'\n', ..] => Some(2),
        _ => None,
    }
}

/// The length of the block in front, through the first empty line.
pub fn block_length(bytes: &[u8]) -> Option<usize>
    ensures length { result ≡ block_length bytes.now }
    ensures within { IfSome result (λ n. n ≤ length bytes.now) }
{
    let mut at = 0;
    while let Some(place) = memchr(b'\n', &bytes[at..]) {
        at += place + 1;
        if let Some(length) = empty_line(&bytes[at..]) {
            return Some(at + length);
        }
    }
    None
}

/// The same, where the first `seen` bytes are known to have no end of a block.
pub fn block_length_from(bytes: &[u8], seen: usize) -> Option<usize>
    requires seen { block_length (take seen bytes.now) ≡ None }
    requires within { seen ≤ length bytes.now }
    ensures length { result ≡ block_length bytes.now }
    ensures within { IfSome result (λ n. n ≤ length bytes.now) }
{
    let from = seen.saturating_sub(2);
    match block_length(&bytes[from..]) {
        Some(length) => Some(from + length),
        None => None,
    }
}
