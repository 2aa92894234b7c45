//! The slot that the machine lies in.
ghost use Rattle.std.specs.Prelude.{◌≡◌, [], ◌∷◌, Some, None, IsSome, IfOk, IfErr};

use std::alloc::{AllocFailed, Global};

// The machine comes back where there is no memory.
pub(crate) fn one_slot<M>(alloc: Global, machine: M) -> Result<Vec<Option<M>>, M>
    ensures ok { IfOk result (λ slots. slots.items ≡ Some machine ∷ []) }
    ensures err { IfErr result (λ back. back ≡ machine) }
{
    let mut slots = Vec::new(alloc);
    if let Err(failed) = slots.push(Some(machine)) {
        slots.destroy_empty();
        let AllocFailed { value } = failed;
        return Err(full(value));
    }
    Ok(slots)
}

pub(crate) fn from_one_slot<M>(mut slots: Vec<Option<M>>) -> M
    requires { (x : M) × (slots.items ≡ Some x ∷ []) }
    ensures { slots.items ≡ Some result ∷ [] }
{
    let last = slots.pop();
    slots.destroy_empty();
    full(full(last))
}

// What a full slot holds.
pub(crate) fn full<T>(held: Option<T>) -> T
    requires { IsSome held }
    ensures { held ≡ Some result }
{
    match held {
        Some(value) => value,
        None => unreachable!(),
    }
}

// Lets an empty slot go.
pub(crate) fn empty<T>(held: Option<T>)
    requires { held ≡ None }
{
    match held {
        Some(_value) => unreachable!(),
        None => {}
    }
}
