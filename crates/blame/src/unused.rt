//! Codes that stand in no clause are said to be absent: so no search decides on them.
ghost use Rattle.std.specs.Prelude.{◌≡◌, ◌<◌, ◌^◌, IfOk, OnOk, length, map, true};
ghost use Rattle.clausify.specs.Encoding.{EncodesAlone};
ghost use Rattle.blame.specs.Absent.{AreMoreUsed, AreUnused, AreUsed, IsClauseUsed, IsDenied, absent_clause, is_used};

use clause_pool::{Lit, Pool};
use clausify::Encoder;
use pb_base::Memory;
use std::alloc::Global;

/// Of so many codes those that stand in no clause are said to be absent.
pub(crate) fn deny_unused(alloc: Global, encoder: &mut Encoder, codes: u32) -> Result<(), Memory>
    ensures { OnOk result (IsDenied codes encoder.old encoder.new) }
{
    let used = used_codes(alloc, &encoder.pool, codes)?;
    let unused = unused_codes(alloc, &used)?;
    deny(encoder, &unused)
}

// For each of so many codes, whether it stands in a clause.
fn used_codes(alloc: Global, pool: &Pool, codes: u32) -> Result<Vec<bool>, Memory>
    ensures counted { IfOk result (λ used. length used.items ≡ codes) }
    ensures used { IfOk result (λ used. AreUsed used.items pool.now.clauses) }
{
    let mut used = vec![in alloc; false; codes as usize]?;
    for at in 0..pool.len() {
        mark_clause(&mut used, pool.lits(at));
    }
    Ok(used)
}

fn mark_clause(used: &mut [bool], lits: &[Lit])
    ensures more { AreMoreUsed used.old used.new }
    ensures clause { IsClauseUsed used.new lits.now }
{
    for lit in lits {
        mark_variable(used, lit.var());
    }
}

fn mark_variable(used: &mut [bool], var: u32)
    ensures more { AreMoreUsed used.old used.new }
    ensures used { is_used used.new var ≡ true }
{
    let place = var as usize;
    if place < used.len() {
        used[place] = true;
    }
}

fn unused_codes(alloc: Global, used: &[bool]) -> Result<Vec<u32>, Memory>
    requires { length used.now < 2 ^ 32 }
    ensures { IfOk result (λ unused. AreUnused used.now unused.items) }
{
    let mut unused = Vec::new(alloc);
    for (code, mark) in used.iter().enumerate() {
        if !*mark {
            unused.push(code as u32)?;
        }
    }
    Ok(unused)
}

fn deny(encoder: &mut Encoder, codes: &[u32]) -> Result<(), Memory>
    ensures { OnOk result (EncodesAlone encoder.old encoder.new (map absent_clause codes.now)) }
{
    for code in codes {
        encoder.clause(&[Lit::new(*code, false)])?;
    }
    Ok(())
}
