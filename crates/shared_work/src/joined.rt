//! Lists that are joined.
ghost use Rattle.std.specs.Prelude.{◌≡◌, IfOk, IsOkAnd};
ghost use Rattle.pb_base.specs.InParts.{InParts};

use pb_base::Memory;
use std::alloc::Global;

/// What stands in each of these lists, one list behind the other; want of memory where a list wants it.
pub(crate) fn joined<X: Drop>(
    alloc: Global,
    lists: Vec<Result<Vec<X>, Memory>>,
) -> Result<Vec<X>, Memory>
    ensures { IfOk result (λ all.
        InParts (λ list own. IsOkAnd list (λ v. v.items ≡ own)) lists.items all.items) }
{
    let mut all = Vec::new(alloc);
    for list in lists {
        let mut own = list?;
        all.append(&mut own)?;
    }
    Ok(all)
}
