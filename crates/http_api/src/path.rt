//! The path of a target.
ghost use Rattle.std.specs.Prelude.{◌≡◌, ◌<◌, IfSome, length, nat_eq, position};
ghost use Rattle.http_api.specs.Path.{path_of, before_query, after_authority};

/// The path of a request's target: what stands before the first `?`, and, where that begins with `http://`, what of it stands from the next `/` on. Percent signs are left as they are.
pub fn path_of(target: &[u8]) -> &[u8]
    ensures { result.now ≡ path_of target.now }
{
    let cut = before_query(target);
    match cut.strip_prefix(b"http://") {
        Some(rest) => after_authority(rest),
        None => cut,
    }
}

fn before_query(target: &[u8]) -> &[u8]
    ensures { result.now ≡ before_query target.now }
{
    match place_of(target, b'?') {
        Some(at) => &target[..at],
        None => target,
    }
}

fn after_authority(rest: &[u8]) -> &[u8]
    ensures { result.now ≡ after_authority rest.now }
{
    match place_of(rest, b'/') {
        Some(at) => &rest[at..],
        None => b"/",
    }
}

// The place of the first of the bytes that is this one.
fn place_of(bytes: &[u8], byte: u8) -> Option<usize>
    ensures value { result ≡ position (nat_eq byte) bytes.now }
    ensures within { IfSome result (λ at. at < length bytes.now) }
{
    bytes.iter().position(|b| byte == *b)
}
