//! Which questions of a slice are for pairs of variants.
ghost use Rattle.std.specs.Prelude.{◌<◌, length};

use crate::sets::Sets;
use clausify::{Asked, Question};
use pb_base::Memory;
use std::alloc::Global;

// A position, and two of its variants.
#[derive(Clone, Copy)]
struct Variants {
    position: u32,
    first: u32,
    second: u32,
}

// What a question for a pair is for.
fn variants_in(asked: &Asked) -> Option<Variants> {
    match asked.question {
        Question::Ambiguous {
            position,
            first,
            second,
        } => Some(Variants {
            position,
            first,
            second,
        }),
        _ => None,
    }
}

// The position of the pair that a place of the questions is for.
fn position_at(asked: &[Asked], place: usize) -> Option<u32> {
    match asked.get(place) {
        Some(one) => Some(variants_in(one)?.position),
        None => None,
    }
}

/// The pairs of a position whose first stands at this place of the questions, or none.
pub fn pairs_at(asked: &[Asked], place: usize) -> &[Asked]
    requires { place < length asked.now }
{
    let position = position_at(asked, place);
    if position.is_none() || (place > 0 && position_at(asked, place - 1) == position) {
        return &[];
    }
    let pairs = &asked[place..];
    for count in 0..pairs.len() {
        if position_at(pairs, count) != position {
            return &pairs[..count];
        }
    }
    pairs
}

/// The same pairs, those with the same second variant side by side.
pub fn by_second(alloc: Global, pairs: &[Asked]) -> Result<Vec<Asked>, Memory> {
    let mut places = Vec::new(alloc);
    for (place, pair) in pairs.iter().enumerate() {
        if let Some(here) = variants_in(pair) {
            places.push((here.second, place))?;
        }
    }
    places.sort_unstable();
    let mut sorted = Vec::new(alloc);
    for (_, place) in places {
        if let Some(pair) = pairs.get(place) {
            sorted.push(*pair)?;
        }
    }
    Ok(sorted)
}

/// Whether a question is one for a pair.
pub fn is_pair(asked: &Asked) -> bool {
    variants_in(asked).is_some()
}

/// Whether a set seems to have both variants of a pair.
pub fn may_be_met(sets: &Sets, pair: &Asked) -> bool {
    match variants_in(pair) {
        Some(here) => sets.using(here.first) & sets.using(here.second) != 0,
        None => false,
    }
}
