//! The formulas of the records that are active on a day, each given its literal and the clauses that follow, and the clauses of groups.
ghost use Rattle.std.specs.Prelude.{◌≡◌, ◌+◌, ◌^◌, ◌<◌, OnOk, length};
ghost use Rattle.book_model.specs.Book.{DemandFits};
ghost use Rattle.clausify.specs.Formulas.{connectives};
ghost use Rattle.clausify.specs.Items.{variables_of, added_item, rule_item, demand_item, supplement_items, construct_items, rule_items};
ghost use Rattle.clausify.specs.Encoding.{EncodesItem, EncodesItems, AddsStarts};

use crate::encoder::Encoder;
use crate::layout::Start;
use book_model::{Book, Demand, active};
use clause_pool::Lit;
use pb_base::{Day, Formula, Memory};

impl Encoder {
    /// Where the formula is true, the code is present.
    pub fn supplement(&mut self, code: u32, rule: &Formula) -> Result<(), Memory>
        requires { self.old.next + connectives rule.now < 2 ^ 32 }
        ensures { OnOk result (EncodesItem self.old self.new (added_item code rule.now)) }
    {
        let rule = self.literal(rule)?;
        self.clause(&[rule.not(), Lit::new(code, true)])
    }

    // What a constructibility rule demands: of its formula, or where it is a group, of its codes.
    fn demand(&mut self, demand: &Demand) -> Result<(), Memory>
        requires fits { DemandFits self.old.truth demand.now }
        requires room { self.old.next + connectives (demand_item demand.now).rule < 2 ^ 32 }
        ensures { OnOk result (EncodesItem self.old self.new (demand_item demand.now)) }
    {
        match demand {
            Demand::Rule { on, rule } => self.rule_on(*on, rule),
            Demand::One(group) => {
                self.any_of(group.codes())?;
                self.apart(group.codes())
            }
            Demand::Most(group) => self.apart(group.codes()),
        }
    }

    /// Where the code is present, or always where there is none, the formula is true.
    pub fn rule_on(&mut self, on: Option<u32>, rule: &Formula) -> Result<(), Memory>
        requires { self.old.next + connectives rule.now < 2 ^ 32 }
        ensures { OnOk result (EncodesItem self.old self.new (rule_item on rule.now)) }
    {
        let rule = self.literal(rule)?;
        match on {
            None => self.clause(&[rule]),
            Some(code) => self.clause(&[Lit::new(code, false), rule]),
        }
    }
}

// The supplementing rules.
fn add_supplements(
    encoder: &mut Encoder,
    starts: &mut Vec<Start>,
    book: &Book,
    day: Day,
) -> Result<(), Memory>
    requires { encoder.old.next + variables_of (supplement_items book.now day) < 2 ^ 32 }
    ensures made { OnOk result (EncodesItems encoder.old encoder.new (supplement_items book.now day)) }
    ensures starts { let items = supplement_items book.now day in
        OnOk result (AddsStarts encoder.old starts.old.items starts.new.items items) }
{
    for supplement in book.supplements() {
        if active(supplement.from, supplement.until, day) {
            starts.push(encoder.start())?;
            encoder.supplement(supplement.code, &supplement.rule)?;
        }
    }
    Ok(())
}

/// The constructibility rules that are active on a day, over the codes of the book. Where the clauses of each begin comes
/// behind the other starts.
pub fn add_constructs(
    encoder: &mut Encoder,
    starts: &mut Vec<Start>,
    book: &Book,
    day: Day,
) -> Result<(), Memory>
    requires truth { encoder.old.truth ≡ length book.now.codes }
    requires room { encoder.old.next + variables_of (construct_items book.now day) < 2 ^ 32 }
    ensures made { OnOk result (EncodesItems encoder.old encoder.new (construct_items book.now day)) }
    ensures starts { let items = construct_items book.now day in
        OnOk result (AddsStarts encoder.old starts.old.items starts.new.items items) }
{
    for construct in book.constructs() {
        if active(construct.from, construct.until, day) {
            starts.push(encoder.start())?;
            encoder.demand(&construct.demand)?;
        }
    }
    Ok(())
}

/// The supplementing rules that are active on a day, then the constructibility rules, over the codes of the book. Where the
/// clauses of each begin comes behind the other starts.
#[tactic(auto, using(crate::proofs::ItemLaws::variables_more))]
pub fn add_rules(
    encoder: &mut Encoder,
    starts: &mut Vec<Start>,
    book: &Book,
    day: Day,
) -> Result<(), Memory>
    requires truth { encoder.old.truth ≡ length book.now.codes }
    requires room { encoder.old.next + variables_of (rule_items book.now day) < 2 ^ 32 }
    ensures made { OnOk result (EncodesItems encoder.old encoder.new (rule_items book.now day)) }
    ensures starts { let items = rule_items book.now day in
        OnOk result (AddsStarts encoder.old starts.old.items starts.new.items items) }
{
    add_supplements(encoder, starts, book, day)?;
    add_constructs(encoder, starts, book, day)?;
    Ok(())
}
