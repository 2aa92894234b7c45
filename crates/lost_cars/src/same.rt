//! Rules of two books that are the same by names: the cars of one book keep those of the other. No search is needed there.
ghost use Rattle.std.specs.Prelude.{◌≡◌, ◌<◌, ◌≤◌, All, length, map, slice_get, true};
ghost use Rattle.pb_base.specs.Leaves.{node_with, with_leaves};
ghost use Rattle.pb_base.specs.declared.node.Leaf.TheVariants as words;
ghost use Rattle.book_model.specs.declared.demand.Demand.TheVariants as demand;
ghost use Rattle.lost_cars.specs.Asks.{HasSupplement, HasConstruct};
ghost use Rattle.book_model.specs.Activity.{is_within};
ghost use Rattle.lost_cars.specs.ByName.{by_name};
ghost use Rattle.lost_cars.specs.Losses.{read_by_own};
ghost use Rattle.lost_cars.specs.Violation.{firing, unmet};

use crate::by_name::ByName;
use book_model::{Book, Construct, Demand, Supplement, active};
use pb_base::{Day, Formula, Leaf, Leaves, Node};

/// Whether an active supplementing rule of the own book adds the same code where the same formula is true. The guess is where it
/// stands.
#[tactic(auto, using(crate::proofs::AskLaws::supplement_found))]
pub(crate) fn has_supplement(
    own: &Book,
    other: &Book,
    day: Day,
    supplement: &Supplement,
    guess: usize,
) -> bool
    ensures { result ≡ true → HasSupplement own.now day (read_by_own own.now other.now (firing supplement.now)) }
{
    let names = ByName::of(own, other);
    let rules = own.supplements();
    for step in 0..rules.len() {
        let at = place_after(guess, step, rules.len());
        if is_supplement(&names, day, &rules[at], supplement) {
            return true;
        }
    }
    false
}

/// The same of constructibility rules.
#[tactic(auto, using(crate::proofs::AskLaws::construct_found))]
pub(crate) fn has_construct(
    own: &Book,
    other: &Book,
    day: Day,
    construct: &Construct,
    guess: usize,
) -> bool
    ensures { result ≡ true → HasConstruct own.now day (read_by_own own.now other.now (unmet construct.now.demand)) }
{
    let names = ByName::of(own, other);
    let rules = own.constructs();
    for step in 0..rules.len() {
        let at = place_after(guess, step, rules.len());
        if is_construct(&names, day, &rules[at], construct) {
            return true;
        }
    }
    false
}

// Whether the rule of the own book is active, and the same.
fn is_supplement(names: &ByName<'_>, day: Day, own: &Supplement, other: &Supplement) -> bool
    ensures active { result ≡ true → is_within own.now.from own.now.until day ≡ true }
    ensures same { let read = with_leaves (by_name names.now.own.now names.now.other.now) (firing other.now) in
        result ≡ true → read ≡ firing own.now }
{
    active(own.from, own.until, day) && same_supplement(names, own, other)
}

fn is_construct(names: &ByName<'_>, day: Day, own: &Construct, other: &Construct) -> bool
    ensures active { result ≡ true → is_within own.now.from own.now.until day ≡ true }
    ensures same { let read = with_leaves (by_name names.now.own.now names.now.other.now) (unmet other.now.demand) in
        result ≡ true → read ≡ unmet own.now.demand }
{
    active(own.from, own.until, day) && same_demand(names, &own.demand, &other.demand)
}

// The place so many steps after the guess, where the first follows the last.
fn place_after(guess: usize, step: usize, count: usize) -> usize
    requires { step < count }
    ensures { result < count }
{
    if guess >= count {
        return step;
    }
    if step < count - guess {
        guess + step
    } else {
        step - (count - guess)
    }
}

#[tactic(auto, using(crate::proofs::SameLaws::firing_same))]
fn same_supplement(names: &ByName<'_>, own: &Supplement, other: &Supplement) -> bool
    ensures { let read = with_leaves (by_name names.now.own.now names.now.other.now) (firing other.now) in
        result ≡ true → read ≡ firing own.now }
{
    same_code(names, own.code, other.code) && same_formula(names, &own.rule, &other.rule)
}

#[tactic(auto, using(crate::proofs::SameLaws::one_same, crate::proofs::SameLaws::two_same))]
fn same_demand(names: &ByName<'_>, own: &Demand, other: &Demand) -> bool
    ensures { let read = with_leaves (by_name names.now.own.now names.now.other.now) (unmet other.now) in
        result ≡ true → read ≡ unmet own.now }
{
    match (own, other) {
        (Demand::Rule { on, rule }, Demand::Rule { on: at, rule: read }) => {
            same_rule(names, *on, rule, *at, read)
        }
        (Demand::One(group), Demand::One(read)) => same_codes(names, group.codes(), read.codes()),
        (Demand::Most(group), Demand::Most(read)) => same_codes(names, group.codes(), read.codes()),
        _ => false,
    }
}

// The same of two rules, each of a code or of none.
#[tactic(auto, using(crate::proofs::SameLaws::on_same))]
fn same_rule(
    names: &ByName<'_>,
    own_on: Option<u32>,
    own: &Formula,
    other_on: Option<u32>,
    other: &Formula,
) -> bool
    ensures { let read = with_leaves (by_name names.now.own.now names.now.other.now) (unmet (demand.Rule other_on other.now)) in
        result ≡ true → read ≡ unmet (demand.Rule own_on own.now) }
{
    match (own_on, other_on) {
        (None, None) => same_formula(names, own, other),
        (Some(code), Some(read)) => same_code(names, code, read) && same_formula(names, own, other),
        _ => false,
    }
}

// Whether the code of the other book is, by its name, that of the own book.
fn same_code(names: &ByName<'_>, own: u32, other: u32) -> bool
    ensures { result ≡ true → by_name names.now.own.now names.now.other.now other ≡ words.Code own }
{
    match names.leaf(other) {
        Leaf::Code(place) => place == own,
        Leaf::Yes => false,
        Leaf::No => false,
    }
}

// The same of two lists of codes, one by one.
fn same_codes(names: &ByName<'_>, own: &[u32], other: &[u32]) -> bool
    ensures { result ≡ true → map (by_name names.now.own.now names.now.other.now) other.now ≡ map words.Code own.now }
{
    if own.len() != other.len() {
        return false;
    }
    for place in 0..own.len() {
        if !same_code(names, own[place], other[place]) {
            return false;
        }
    }
    true
}

// Whether the formula of the other book is, by the names of its codes, that of the own book.
fn same_formula(names: &ByName<'_>, own: &Formula, other: &Formula) -> bool
    ensures { let leaf = by_name names.now.own.now names.now.other.now in
        result ≡ true → with_leaves leaf other.now ≡ own.now }
{
    same_nodes(names, own.nodes(), other.nodes())
}

fn same_nodes(names: &ByName<'_>, own: &[Node], other: &[Node]) -> bool
    ensures { let leaf = by_name names.now.own.now names.now.other.now in
        result ≡ true → map (node_with leaf) other.now ≡ own.now }
{
    if own.len() != other.len() {
        return false;
    }
    for place in 0..own.len() {
        if !same_node(names, own[place], other[place]) {
            return false;
        }
    }
    true
}

fn same_node(names: &ByName<'_>, own: Node, other: Node) -> bool
    ensures { let leaf = by_name names.now.own.now names.now.other.now in
        result ≡ true → node_with leaf other ≡ own }
{
    match (own, other) {
        (Node::Code(place), Node::Code(read)) => same_code(names, place, read),
        (Node::WhenTrue(size), Node::WhenTrue(read)) => size == read,
        (Node::WhenFalse(size), Node::WhenFalse(read)) => size == read,
        (Node::And(size), Node::And(read)) => size == read,
        (Node::Or(size), Node::Or(read)) => size == read,
        (Node::Not, Node::Not) => true,
        (Node::Yes, Node::Yes) => true,
        (Node::No, Node::No) => true,
        _ => false,
    }
}
