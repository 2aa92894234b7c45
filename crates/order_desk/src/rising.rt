//! Keys that come behind others.
ghost use Rattle.std.specs.Prelude.{◌≡◌};
ghost use Rattle.std.specs.BTreeMap.{keys};
ghost use Rattle.std.specs.List.{list_all};
ghost use Rattle.std.specs.Ordering.{is_lt};

use std::cmp::Ordering;
use std::collections::BTreeMap;

/// Whether a key comes behind all keys of a map.
pub(crate) fn comes_last<K: Ord, V>(map: &BTreeMap<K, V>, key: &K) -> bool
    ensures { result ≡ list_all (λ other. is_lt (K.cmp other key.now)) (keys map.now) }
{
    match map.last_key_value() {
        Some((last, _)) => matches!(last.cmp(key), Ordering::Less),
        None => true,
    }
}
