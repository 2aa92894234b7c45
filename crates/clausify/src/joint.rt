//! Variables that join two literals.
ghost use Rattle.std.specs.Prelude.{◌≡◌, ◌++◌, OnOk};
ghost use Rattle.clausify.specs.Joints.{joint_clauses, GrowsBy};

use clause_pool::{Lit, Pool};
use pb_base::Memory;

/// How a variable joins two literals.
#[derive(Clone, Copy, Debug, PartialEq, Eq)]
pub enum Joint {
    /// It is true where both are.
    All,
    /// It is true where one of them is.
    Any,
}

/// Adds the three clauses that make a variable true just where the two literals joined are. It is for variables that no
/// encoder numbers; an encoder's `both` and `either` take the next one.
pub fn tie(pool: &mut Pool, joint: Joint, var: u32, left: Lit, right: Lit) -> Result<(), Memory>
    ensures ok { OnOk result (pool.new.clauses ≡ pool.old.clauses ++ joint_clauses joint var left right) }
    ensures grows { GrowsBy pool.old.clauses pool.new.clauses }
{
    let named = Lit::new(var, true);
    let absent = Lit::new(var, false);
    match joint {
        Joint::All => {
            pool.add(&[absent, left])?;
            pool.add(&[absent, right])?;
            pool.add(&[named, left.not(), right.not()])?;
        }
        Joint::Any => {
            pool.add(&[absent, left, right])?;
            pool.add(&[named, left.not()])?;
            pool.add(&[named, right.not()])?;
        }
    }
    Ok(())
}
