//! What the refusal of a book can't leave out.
ghost use Rattle.std.specs.Prelude.{◌<◌, ◌≤◌};
ghost use Rattle.pb_base.specs.Answers.{IfRefused};
ghost use Rattle.pb_base.specs.declared.limits.TheConstants.{MOST_BUDGET};
ghost use Rattle.check_guards.specs.Refusals.{NamesWhy};

use pb_base::Fail;
use release_check::{CertifiedBook, NotReleased, certify_text};
use std::alloc::Global;

/// A book that is kept back by a finding comes with it, and one that is kept back by a question that was left with that question. A run
/// would refuse a book and not say why.
#[tactic(auto, using(crate::proofs::RefusalLaws::names_why))]
pub fn no_refusal_is_without_its_finding(
    alloc: Global,
    text: &[u8],
    budget: u32,
) -> Result<CertifiedBook, Fail<NotReleased>>
    requires some { 0 < budget }
    requires most { budget ≤ MOST_BUDGET }
    ensures { IfRefused result NamesWhy }
{
    certify_text(alloc, text, budget)
}
