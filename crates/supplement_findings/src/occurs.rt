//! Where codes stand.
ghost use Rattle.std.specs.Prelude.{◌≡◌, ◌==◌};
ghost use Rattle.std.specs.List.{list_any};
ghost use Rattle.supplement.specs.Occurrences.{occurs, is_code};
ghost use Rattle.supplement_findings.specs.Questions.{is_asked};
ghost use Rattle.supplement_findings.specs.Touching.{touches};

use book_model::{Demand, Supplement};
use pb_base::{Formula, Node};

// Whether the code stands in the formula.
#[tactic(auto, using(crate::proofs::OccursLaws::occurs_nodes))]
fn occurs(code: u32, formula: &Formula) -> bool
    ensures { result ≡ occurs code formula.now }
{
    has_code(code, formula.nodes())
}

fn has_code(code: u32, nodes: &[Node]) -> bool
    ensures { result ≡ list_any (is_code code) nodes.now }
{
    nodes.iter().any(|node| is_code(code, *node))
}

fn is_code(code: u32, node: Node) -> bool
    ensures { result ≡ is_code code node }
{
    match node {
        Node::Code(place) => place == code,
        _ => false,
    }
}

/// Whether a pair of rules is asked: they add different codes, and the code of one stands in the formula of the other.
pub(crate) fn is_asked(first: &Supplement, second: &Supplement) -> bool
    ensures { result ≡ is_asked first.now second.now }
{
    first.code != second.code
        && (occurs(first.code, &second.rule) || occurs(second.code, &first.rule))
}

/// Whether the code stands in the demand.
pub(crate) fn touches(code: u32, demand: &Demand) -> bool
    ensures { result ≡ touches code demand.now }
{
    match demand {
        Demand::Rule { on: None, rule } => occurs(code, rule),
        Demand::Rule { on: Some(on), rule } => *on == code || occurs(code, rule),
        Demand::One(group) => is_among(code, group.codes()),
        Demand::Most(group) => is_among(code, group.codes()),
    }
}

/// Whether the code is one of these.
pub(crate) fn is_among(code: u32, codes: &[u32]) -> bool
    ensures { result ≡ list_any (λ k. k == code) codes.now }
{
    codes.iter().any(|other| *other == code)
}
