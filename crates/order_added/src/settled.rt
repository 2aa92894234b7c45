//! Rules whose demands no supplementing rule can change.
//!
//! Most rules speak of no code that a supplementing rule adds. A set that breaks such a rule breaks it when it is completed, so
//! it needn't be completed.
ghost use Rattle.std.specs.Prelude.{◌≡◌, ◌&&◌, not, length, IfOk};
ghost use Rattle.std.specs.List.{list_all};
ghost use Rattle.pb_base.specs.Node.{nodes_of};
ghost use Rattle.pb_base.specs.Sets.{has};
ghost use Rattle.book_model.specs.Good.{breaks};
ghost use Rattle.book_model.specs.Book.{ConstructFits};
ghost use Rattle.order_added.specs.Settled.{AreSupplied, is_settled, is_settled_guard, is_settled_node};

use book_model::{Book, Construct, Demand, breaks};
use pb_base::{CodeSet, Day, Formula, Memory, Node};
use std::alloc::Global;

/// The codes that supplementing rules add, on whatever days.
pub(crate) fn supplied_codes(alloc: Global, book: &Book) -> Result<CodeSet, Memory>
    ensures { IfOk result (λ supplied. AreSupplied book.now.supplements supplied) }
{
    let mut supplied = CodeSet::none(alloc, book.codes().len())?;
    for supplement in book.supplements() {
        supplied.with(supplement.code);
    }
    Ok(supplied)
}

/// Whether a set breaks a rule, and would whichever of the supplied codes were added to it.
pub(crate) fn stays_broken(
    construct: &Construct,
    day: Day,
    supplied: &CodeSet,
    set: &CodeSet,
) -> bool
    requires { ConstructFits (length set.now) construct.now }
    ensures { let settled = is_settled supplied.now construct.now.demand in
        result ≡ (breaks day set.now construct.now && settled) }
{
    breaks(construct, day, set) && is_settled(supplied, &construct.demand)
}

// Whether the demand has none of the supplied codes.
fn is_settled(supplied: &CodeSet, demand: &Demand) -> bool
    ensures { result ≡ is_settled supplied.now demand.now }
{
    match demand {
        Demand::Rule { on, rule } => {
            is_settled_guard(supplied, *on) && is_settled_formula(supplied, rule)
        }
        Demand::One(group) => are_settled(supplied, group.codes()),
        Demand::Most(group) => are_settled(supplied, group.codes()),
    }
}

fn is_settled_guard(supplied: &CodeSet, on: Option<u32>) -> bool
    ensures { result ≡ is_settled_guard supplied.now on }
{
    match on {
        Some(code) => !is_supplied(supplied, code),
        None => true,
    }
}

fn is_settled_formula(supplied: &CodeSet, formula: &Formula) -> bool
    ensures { result ≡ list_all (is_settled_node supplied.now) (nodes_of formula.now) }
{
    formula
        .nodes()
        .iter()
        .all(|node| is_settled_node(supplied, *node))
}

fn is_settled_node(supplied: &CodeSet, node: Node) -> bool
    ensures { result ≡ is_settled_node supplied.now node }
{
    match node {
        Node::Code(code) => !is_supplied(supplied, code),
        _ => true,
    }
}

fn are_settled(supplied: &CodeSet, codes: &[u32]) -> bool
    ensures { result ≡ list_all (λ code. not (has supplied.now code)) codes.now }
{
    codes.iter().all(|code| !is_supplied(supplied, *code))
}

// A code beyond those that the set speaks of isn't in it.
fn is_supplied(supplied: &CodeSet, code: u32) -> bool
    ensures { result ≡ has supplied.now code }
{
    code < supplied.len() && supplied.has(code)
}
