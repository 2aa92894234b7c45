//! Rules that are codes and negations of codes joined by `/`: they are one clause, with no variable of their own.
ghost use Rattle.std.specs.Prelude.{◌≡◌, IfOk, IfSome, None, OnOk, false, true};
ghost use Rattle.clausify.specs.Items.{demand_item, rule_item};
ghost use Rattle.blame.specs.Plain.{AddsPlain, IsLiteral, IsPlain, begun_literals, is_literal_rule, plain_rule};

use book_model::Demand;
use clause_pool::Lit;
use clausify::Encoder;
use pb_base::{Formula, FormulaPart, Memory, Shape};
use std::alloc::Global;

/// Whether a constructibility rule demands such a rule.
pub(crate) fn is_plain_demand(demand: &Demand) -> bool
    ensures { result ≡ plain_rule (demand_item demand.now).rule }
{
    match demand {
        Demand::Rule { on: _, rule } => is_plain(rule),
        Demand::One(_) => false,
        Demand::Most(_) => false,
    }
}

fn is_plain(rule: &Formula) -> bool
    ensures { result ≡ plain_rule rule.now }
{
    let mut rest = rule.part();
    'sides: loop {
        match rest.shape() {
            Shape::Or(left, right) => {
                if literal_of(&right).is_none() {
                    return false;
                }
                rest = left;
            }
            _ => return literal_of(&rest).is_some(),
        }
    }
}

/// The clause of such a demand where the guard is there. Others have none here.
pub(crate) fn add_plain_demand(
    alloc: Global,
    encoder: &mut Encoder,
    guard: u32,
    demand: &Demand,
) -> Result<(), Memory>
    ensures { let item = demand_item demand.now in
        OnOk result (AddsPlain (plain_rule item.rule) guard item encoder.old encoder.new) }
{
    match demand {
        Demand::Rule { on, rule } => add_plain_rule(alloc, encoder, guard, *on, rule),
        Demand::One(_) => Ok(()),
        Demand::Most(_) => Ok(()),
    }
}

fn add_plain_rule(
    alloc: Global,
    encoder: &mut Encoder,
    guard: u32,
    on: Option<u32>,
    rule: &Formula,
) -> Result<(), Memory>
    ensures { OnOk result
        (AddsPlain (plain_rule rule.now) guard (rule_item on rule.now) encoder.old encoder.new) }
{
    let mut lits = begun_literals(alloc, guard, on)?;
    if push_literals(&mut lits, rule)? {
        encoder.clause(&lits)?;
    }
    Ok(())
}

/// Puts the literals of such a demand behind others. Others have none.
pub(crate) fn push_clause(lits: &mut Vec<Lit>, demand: &Demand) -> Result<(), Memory> {
    match demand {
        Demand::Rule { on, rule } => push_rule_clause(lits, *on, rule),
        Demand::One(_) => Ok(()),
        Demand::Most(_) => Ok(()),
    }
}

fn push_rule_clause(lits: &mut Vec<Lit>, on: Option<u32>, rule: &Formula) -> Result<(), Memory> {
    let first = lits.len();
    if let Some(code) = on {
        lits.push(Lit::new(code, false))?;
    }
    if !push_literals(lits, rule)? {
        lits.truncate(first);
    }
    Ok(())
}

// The guard isn't there, or the code isn't.
fn begun_literals(alloc: Global, guard: u32, on: Option<u32>) -> Result<Vec<Lit>, Memory>
    ensures { IfOk result (λ lits. lits.items ≡ begun_literals guard on) }
{
    let mut lits = Vec::new(alloc);
    lits.push(Lit::new(guard, false))?;
    if let Some(code) = on {
        lits.push(Lit::new(code, false))?;
    }
    Ok(lits)
}

// Puts the literals of such a rule behind others, and tells whether it is such.
fn push_literals(lits: &mut Vec<Lit>, rule: &Formula) -> Result<bool, Memory>
    ensures is { IfOk result (λ plain. plain ≡ plain_rule rule.now) }
    ensures plain { IfOk result (λ plain. plain ≡ true → IsPlain rule.now lits.old.items lits.new.items) }
{
    let mut rest = rule.part();
    'sides: loop {
        match rest.shape() {
            Shape::Or(left, right) => {
                match literal_of(&right) {
                    Some(lit) => lits.push(lit)?,
                    None => return Ok(false),
                }
                rest = left;
            }
            _ => return push_last(lits, &rest),
        }
    }
}

fn push_last(lits: &mut Vec<Lit>, rest: &FormulaPart<'_>) -> Result<bool, Memory>
    ensures is { IfOk result (λ plain. plain ≡ is_literal_rule rest.now) }
    ensures plain { IfOk result (λ plain. plain ≡ true → IsPlain rest.now lits.old.items lits.new.items) }
{
    match literal_of(rest) {
        Some(lit) => {
            lits.push(lit)?;
            Ok(true)
        }
        None => Ok(false),
    }
}

// The literal of a code or of its negation.
fn literal_of(rule: &FormulaPart<'_>) -> Option<Lit>
    ensures is { IfSome result (IsLiteral rule.now) }
    ensures other { result ≡ None → is_literal_rule rule.now ≡ false }
{
    match rule.shape() {
        Shape::Code(code) => Some(Lit::new(code, true)),
        Shape::Not(of) => match of.shape() {
            Shape::Code(code) => Some(Lit::new(code, false)),
            _ => None,
        },
        _ => None,
    }
}
