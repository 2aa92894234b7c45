//! Lists that lie one after another in one vector, of which the places where they start are kept.
ghost use Rattle.std.specs.Prelude.{◌≡◌, ◌+◌, ◌<◌, ◌≤◌, [], ◌∷◌, ◌++◌, length, slice_index_or, vec_capacity, vec_len, OnOk};
ghost use Rattle.clause_pool.specs.Region.{IsRegion, region};

use std::alloc::AllocError;

/// The list at this place, counted from 0.
#[inline(always)]
#[tactic(auto, using(crate::proofs::RegionLaws::start_within, crate::proofs::RegionLaws::start_below, crate::proofs::RegionLaws::region_get, crate::proofs::RegionLaws::region_last))]
pub(crate) fn list_at<'a, T>(items: &'a [T], starts: &[usize], at: usize) -> &'a [T]
    requires region { IsRegion starts.now (length items.now) }
    requires within { at < length starts.now }
    ensures { result.now ≡ slice_index_or (region starts.now items.now) at [] }
{
    let start = starts[at];
    if at + 1 < starts.len() {
        &items[start..starts[at + 1]]
    } else {
        &items[start..]
    }
}

// From this length on a vector is long.
const LONG: usize = 65_536;

/// Makes room for so many further items. A long vector grows by a quarter, so that little of it is empty.
#[inline(always)]
pub fn make_room<T>(items: &mut Vec<T>, more: usize) -> Result<(), AllocError>
    ensures items { items.new.items ≡ items.old.items }
    ensures len { vec_len items.new ≡ vec_len items.old }
    ensures ok { OnOk result (vec_len items.new + more ≤ vec_capacity items.new) }
    ensures capacity { vec_capacity items.old ≤ vec_capacity items.new }
{
    if more <= items.capacity() - items.len() {
        return Ok(());
    }
    grow(items, more)
}

// The same where there is no room yet.
#[inline(never)]
fn grow<T>(items: &mut Vec<T>, more: usize) -> Result<(), AllocError>
    ensures items { items.new.items ≡ items.old.items }
    ensures len { vec_len items.new ≡ vec_len items.old }
    ensures ok { OnOk result (vec_len items.new + more ≤ vec_capacity items.new) }
    ensures capacity { vec_capacity items.old ≤ vec_capacity items.new }
{
    let len = items.len();
    if len < LONG {
        return items.reserve(more);
    }
    items.reserve_exact(more.max(len / 4))
}

/// A further list at the end, in room that is there.
pub(crate) fn append<T: Copy>(items: &mut Vec<T>, starts: &mut Vec<usize>, list: &[T])
    requires region { IsRegion starts.old.items (length items.old.items) }
    requires room_for_start { vec_len starts.old < vec_capacity starts.old }
    requires room_for_items { vec_len items.old + length list.now ≤ vec_capacity items.old }

    ensures lists { region starts.new.items items.new.items
        ≡ region starts.old.items items.old.items ++ list.now ∷ [] }
    ensures region { IsRegion starts.new.items (length items.new.items) }

    ensures starts_len { vec_len starts.new ≡ vec_len starts.old + 1 }
    ensures items_len { vec_len items.new ≡ vec_len items.old + length list.now }
    ensures starts_room { vec_capacity starts.old ≤ vec_capacity starts.new }
    ensures items_room { vec_capacity items.old ≤ vec_capacity items.new }
{
    starts.push(items.len()).unwrap();
    items.extend_from_slice(list).unwrap();
}
