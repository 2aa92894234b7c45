//! The questions of a slice that a certificate has to close, and what closes them.
ghost use Rattle.std.specs.Prelude.{◌≡◌, ◌<◌, ◌^◌, ◌++◌, [], ◌∷◌, IfOk, OnOk, length};
ghost use Rattle.derivation.specs.Stage.{to_close};

use clause_pool::{Lit, Ref};
use clausify::Asked;
use pb_base::Memory;
use std::alloc::Global;

/// A question that has to be closed: its number among all questions of its slice, from 0, and the literal of its goal.
#[derive(Clone, Copy, Debug, PartialEq, Eq)]
pub struct ToClose {
    pub question: u32,
    pub goal: Lit,
}

/// A question, by its number among those of its slice, and the place of the clause that closes it.
#[derive(Clone, Copy, Debug, PartialEq, Eq)]
pub struct Closing {
    pub question: u32,
    pub at: Ref,
}

/// Those of a slice's questions that a certificate has to close, in order.
pub fn to_close(alloc: Global, asked: &[Asked]) -> Result<Vec<ToClose>, Memory>
    requires { length asked.now < 2 ^ 32 }
    ensures { IfOk result (λ all. all.items ≡ to_close 0 asked.now) }
{
    let mut all = Vec::new(alloc);
    for (number, one) in asked.iter().enumerate() {
        add(&mut all, number as u32, one)?;
    }
    Ok(all)
}

fn add(all: &mut Vec<ToClose>, number: u32, asked: &Asked) -> Result<(), Memory>
    ensures { OnOk result (all.new.items ≡ all.old.items ++ to_close number (asked.now ∷ [])) }
{
    if !asked.question.is_to_close() {
        return Ok(());
    }
    all.push(ToClose {
        question: number,
        goal: asked.goal,
    })?;
    Ok(())
}
