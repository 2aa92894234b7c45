//! The constructibility rules that are active on a day.
ghost use Rattle.std.specs.Prelude.{◌+◌, ◌^◌, ◌<◌, ◌≤◌, OnOk};
ghost use Rattle.pb_base.specs.declared.limits.TheConstants.{MOST_GROUP_CODES};
ghost use Rattle.clausify.specs.Items.{construct_items, demand_item, group_size, rule_item};
ghost use Rattle.wide_clauses.specs.Chains.{wide_variables};
ghost use Rattle.wide_clauses.specs.Encoding.{WidensItem, WidensItems};
ghost use Rattle.wide_clauses.specs.WideItems.{taken_by};

use crate::wide::WideEncoder;
use book_model::{Book, Demand, active};
use clause_pool::Lit;
use clausify::{add_any, add_apart};
use pb_base::{Day, Formula, Memory};

/// The constructibility rules that are active on a day, over the codes of the book.
pub fn add_wide_constructs(encoder: &mut WideEncoder, book: &Book, day: Day) -> Result<(), Memory>
    requires { encoder.old.next + taken_by (construct_items book.now day) < 2 ^ 32 }
    ensures { OnOk result (WidensItems encoder.old encoder.new (construct_items book.now day)) }
{
    for construct in book.constructs() {
        if active(construct.from, construct.until, day) {
            add_demand(encoder, &construct.demand)?;
        }
    }
    Ok(())
}

// What a constructibility rule demands: of its formula, or where it is a group, of its codes.
fn add_demand(encoder: &mut WideEncoder, demand: &Demand) -> Result<(), Memory>
    requires few { group_size demand.now ≤ MOST_GROUP_CODES }
    requires room { encoder.old.next + wide_variables (demand_item demand.now).rule < 2 ^ 32 }
    ensures { OnOk result (WidensItem encoder.old encoder.new (demand_item demand.now)) }
{
    match demand {
        Demand::Rule { on, rule } => add_rule(encoder, *on, rule),
        Demand::One(group) => {
            add_any(&mut encoder.pool, None, group.codes())?;
            add_apart(&mut encoder.pool, None, group.codes())
        }
        Demand::Most(group) => add_apart(&mut encoder.pool, None, group.codes()),
    }
}

// Where the code is present, or always where there is none, the formula is true.
fn add_rule(encoder: &mut WideEncoder, on: Option<u32>, rule: &Formula) -> Result<(), Memory>
    requires { encoder.old.next + wide_variables rule.now < 2 ^ 32 }
    ensures { OnOk result (WidensItem encoder.old encoder.new (rule_item on rule.now)) }
{
    let rule = encoder.literal(rule)?;
    match on {
        None => encoder.clause(&[rule]),
        Some(code) => encoder.clause(&[Lit::new(code, false), rule]),
    }
}
