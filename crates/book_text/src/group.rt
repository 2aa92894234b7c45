//! The codes of a group, as its text names them.
ghost use Rattle.std.specs.Prelude.{◌≡◌, map};
ghost use Rattle.book_text.specs.Group.{may_follow, is_group};

use arrayvec::ArrayVec;
use pb_base::CodeName;
use pb_base::limits::{LEAST_GROUP_CODES, MOST_GROUP_CODES};

/// Whether the text is 2 to 64 distinct codes, parted by one `/` each.
pub fn is_group(text: &[u8]) -> bool
    ensures { result ≡ is_group text.now }
{
    let mut names: ArrayVec<&[u8], MOST_GROUP_CODES> = ArrayVec::new();
    for name in text.split(|b| *b == b'/') {
        if names.is_full() || !may_follow(&names, name) {
            return false;
        }
        names.push(name);
    }
    names.len() >= LEAST_GROUP_CODES
}

// Whether the name is a code's, and stands not among these.
fn may_follow(names: &[&[u8]], name: &[u8]) -> bool
    ensures { result ≡ may_follow (map (λ n. n.now) names.now) name.now }
{
    CodeName::of(name).is_some() && !names.iter().any(|other| name == *other)
}
