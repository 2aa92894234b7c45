//! Rules whose clauses hold where a guard is true, or always where there is none.
//!
//! The clauses of a rule's formula have no guard: they only give its variables their truth.
ghost use Rattle.std.specs.Prelude.{◌+◌, ◌^◌, ◌<◌, ◌≤◌, OnOk};
ghost use Rattle.pb_base.specs.declared.limits.TheConstants.{MOST_GROUP_CODES};
ghost use Rattle.clausify.specs.Formulas.{connectives};
ghost use Rattle.clausify.specs.Items.{added_item, demand_item, group_size, rule_item};
ghost use Rattle.guarded_rules.specs.Guarded.{guarded, EncodesGuarded};

use book_model::Demand;
use clause_pool::Lit;
use clausify::Encoder;
use pb_base::{Formula, Memory};

/// Where the guard and the formula are true, the code is present.
pub fn add_guarded_supplement(
    encoder: &mut Encoder,
    guard: Option<u32>,
    code: u32,
    rule: &Formula,
) -> Result<(), Memory>
    requires { encoder.old.next + connectives rule.now < 2 ^ 32 }
    ensures { let item = guarded guard (added_item code rule.now) in
        OnOk result (EncodesGuarded encoder.old encoder.new item) }
{
    match guard {
        None => encoder.supplement(code, rule),
        Some(guard) => {
            let rule = encoder.literal(rule)?;
            let absent = Lit::new(guard, false);
            encoder.clause(&[absent, rule.not(), Lit::new(code, true)])
        }
    }
}

/// Where the guard is true, the set is as a constructibility rule demands.
pub fn add_guarded_demand(
    encoder: &mut Encoder,
    guard: Option<u32>,
    demand: &Demand,
) -> Result<(), Memory>
    requires few { group_size demand.now ≤ MOST_GROUP_CODES }
    requires room { encoder.old.next + connectives (demand_item demand.now).rule < 2 ^ 32 }
    ensures { OnOk result (EncodesGuarded encoder.old encoder.new (guarded guard (demand_item demand.now))) }
{
    match demand {
        Demand::Rule { on, rule } => add_rule(encoder, guard, *on, rule),
        Demand::One(group) => {
            encoder.any_where(guard, group.codes())?;
            encoder.apart_where(guard, group.codes())
        }
        Demand::Most(group) => encoder.apart_where(guard, group.codes()),
    }
}

// Where the guard is true and the code is present, or there is none, the formula is true.
fn add_rule(
    encoder: &mut Encoder,
    guard: Option<u32>,
    on: Option<u32>,
    rule: &Formula,
) -> Result<(), Memory>
    requires { encoder.old.next + connectives rule.now < 2 ^ 32 }
    ensures { let item = guarded guard (rule_item on rule.now) in
        OnOk result (EncodesGuarded encoder.old encoder.new item) }
{
    let Some(guard) = guard else {
        return encoder.rule_on(on, rule);
    };
    let rule = encoder.literal(rule)?;
    let absent = Lit::new(guard, false);
    match on {
        None => encoder.clause(&[absent, rule]),
        Some(code) => encoder.clause(&[absent, Lit::new(code, false), rule]),
    }
}
