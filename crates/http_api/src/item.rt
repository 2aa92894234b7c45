//! Names and numbers inside a path.
ghost use Rattle.std.specs.Prelude.{◌≡◌, ◌++◌, ◌<◌, ◌^◌, ◌==◌, ℕ, List, Some, IfSome, slice_index, option_map};
ghost use Rattle.http_api.specs.Route.{HasName, HasNumber, path_number};

use pb_base::{Id, number_within};

/// The name that stands in a path between these two texts.
pub fn name_in(path: &[u8], front: &[u8], back: &[u8]) -> Option<Id>
    ensures found { IfSome result (λ name. HasName path.now front.now name back.now) }
    ensures only { (name : List ℕ) → HasName path.now front.now name back.now → result ≡ Some name }
{
    let item = item_in(path, front, back)?;
    Id::of(item)
}

/// The number that stands in a path between these two texts.
pub fn number_in(path: &[u8], front: &[u8], back: &[u8]) -> Option<u32>
    ensures found { IfSome result (λ number. HasNumber path.now front.now number back.now) }
    ensures only { (number : ℕ) → HasNumber path.now front.now number back.now → result ≡ Some number }
{
    let item = item_in(path, front, back)?;
    path_number(item)
}

fn path_number(digits: &[u8]) -> Option<u32>
    ensures { result ≡ path_number digits.now }
{
    if digits.starts_with(b"0") {
        return None;
    }
    let number = number_within(digits, 9)?;
    Some(number as u32)
}

// What stands between these two texts.
fn item_in<'a>(path: &'a [u8], front: &[u8], back: &[u8]) -> Option<&'a [u8]>
    ensures found { IfSome result (λ item. path.now ≡ front.now ++ (item.now ++ back.now)) }
    ensures only { (item : List ℕ) → path.now ≡ front.now ++ (item ++ back.now)
        → option_map (λ i. i.now) result ≡ Some item }
{
    let rest = path.strip_prefix(front)?;
    rest.strip_suffix(back)
}
