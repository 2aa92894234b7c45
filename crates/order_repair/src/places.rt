//! Codes that stay in an order, and those that go or come.
ghost use Rattle.std.specs.Prelude.{◌≡◌, IfOk};
ghost use Rattle.order_repair.specs.Places.{is_kept, left_out, others_of};

use pb_base::{CodeSet, Memory};
use std::alloc::Global;

/// Of chosen codes those that aren't kept.
pub(crate) fn left_out(alloc: Global, chosen: &[u32], kept: &[u32]) -> Result<Vec<u32>, Memory>
    ensures { IfOk result (λ left. left.items ≡ left_out chosen.now kept.now) }
{
    let mut left = Vec::new(alloc);
    for code in chosen {
        if !is_kept(kept, *code) {
            left.push(*code)?;
        }
    }
    Ok(left)
}

/// The codes of a set that aren't among those that are kept, in record order.
pub(crate) fn others_of(alloc: Global, set: &CodeSet, kept: &[u32]) -> Result<Vec<u32>, Memory>
    ensures { IfOk result (λ others. others.items ≡ others_of set.now kept.now) }
{
    let mut others = Vec::new(alloc);
    for code in 0..set.len() {
        if set.has(code) && !is_kept(kept, code) {
            others.push(code)?;
        }
    }
    Ok(others)
}

fn is_kept(kept: &[u32], code: u32) -> bool
    ensures { result ≡ is_kept kept.now code }
{
    kept.iter().any(|k| *k == code)
}
