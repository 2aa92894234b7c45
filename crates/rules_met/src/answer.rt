//! What is answered of a rule.

ghost use Rattle.std.specs.Prelude.{◌≡◌, IfOk};

use pb_base::{CodeSet, Memory};
use std::alloc::Global;

/// Whether some car meets a rule.
#[derive(Drop)]
pub enum RuleAnswer {
    /// This one does.
    Met(CodeSet),
    /// None does.
    NotMet,
    /// The search was left when as many clauses had been learnt as the budget allows.
    Left,
}

impl RuleAnswer {
    /// A further answer that is equal to this one.
    pub fn copy(&self, alloc: Global) -> Result<RuleAnswer, Memory>
        ensures { IfOk result (λ answer. answer ≡ self.now) }
    {
        match self {
            RuleAnswer::Met(car) => {
                let car = car.copy(alloc)?;
                Ok(RuleAnswer::Met(car))
            }
            RuleAnswer::NotMet => Ok(RuleAnswer::NotMet),
            RuleAnswer::Left => Ok(RuleAnswer::Left),
        }
    }
}
