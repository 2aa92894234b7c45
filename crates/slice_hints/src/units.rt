//! Clauses that refute goals, so that no search is begun for them.
ghost use Rattle.std.specs.Prelude.{IfSome};
ghost use Rattle.chains.specs.Growth.{ClosedAt};

use chains::refuting_unit;
use clause_pool::{Kernel, Lit, Ref};
use clausify::Asked;
use pb_base::Memory;
use std::alloc::Global;

/// By variable, the place of a derived clause that has its negative literal and no other. It is a hint: a clause is looked at
/// before it counts.
#[derive(Drop)]
pub struct Units {
    refuting: Vec<Option<u32>>,
}

impl Units {
    /// Those of a kernel, as far as they matter to these questions.
    pub fn of(alloc: Global, kernel: &Kernel, asked: &[Asked]) -> Result<Units, Memory> {
        let mut refuting = vec![in alloc; None; vars_of(asked)]?;
        let pool = kernel.pool();
        for at in kernel.given()..pool.len() {
            enter_unit(&mut refuting, pool.lits(at), at);
        }
        Ok(Units { refuting })
    }

    /// The place of a clause that refutes a goal.
    pub fn refuting(&self, kernel: &Kernel, goal: Lit) -> Option<Ref>
        ensures { IfSome result (ClosedAt kernel.now.clauses goal) }
    {
        let at = place_in(&self.refuting, goal)?;
        refuting_unit(kernel, goal, at)
    }

    /// Whether none is known that refutes a goal.
    pub fn is_open(&self, goal: Lit) -> bool {
        place_in(&self.refuting, goal).is_none()
    }

    /// A clause at this place refutes a goal.
    pub fn put(&mut self, goal: Lit, at: Ref) {
        match self.refuting.get_mut(goal.var() as usize) {
            Some(place) => *place = u32::try_from(at).ok(),
            None => {}
        }
    }
}

fn place_in(places: &[Option<u32>], goal: Lit) -> Option<Ref> {
    match places.get(goal.var() as usize) {
        Some(Some(place)) => Some(*place as usize),
        _ => None,
    }
}

// How many variables the goals are among.
fn vars_of(asked: &[Asked]) -> usize {
    let mut vars = 0;
    for asked in asked {
        vars = vars.max((asked.goal.var() as usize).wrapping_add(1));
    }
    vars
}

// Enters a clause that has one negative literal alone.
fn enter_unit(places: &mut [Option<u32>], clause: &[Lit], at: Ref) {
    let [lit] = clause else {
        return;
    };
    if lit.positive() {
        return;
    }
    match places.get_mut(lit.var() as usize) {
        Some(place) => *place = u32::try_from(at).ok(),
        None => {}
    }
}
