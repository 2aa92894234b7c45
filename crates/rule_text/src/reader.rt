//! The reader of a rule: it takes the tokens from the left, one method for each token that may stand where it is.
ghost use Rattle.std.specs.Prelude.{◌≡◌, ◌<◌, ◌≤◌, IfOk, zero, List, ℕ, option_map, reverse, true};
ghost use Rattle.std.specs.List.{list_all};
ghost use Rattle.pb_base.specs.Names.{is_name_byte};
ghost use Rattle.pb_base.specs.Answers.{Answers};
ghost use Rattle.pb_base.specs.Rule.{Rule, negated};
ghost use Rattle.pb_base.specs.Node.{rule_of_leaf};
ghost use Rattle.pb_base.specs.declared.answer.Fail.TheVariants.{Refused, Memory};
ghost use Rattle.rule_text.specs.Token.{word, plus, slash, minus, opening, closing, semicolon};
ghost use Rattle.rule_text.specs.Grammar.{word_rule, constant_rule};
ghost use Rattle.rule_text.specs.FirstFault.{without_signs};
ghost use Rattle.rule_text.specs.Reading.{under_signs};
ghost use Rattle.rule_text.specs.Steps.{begin, finish};
ghost use Rattle.rule_text.specs.declared.standing.Stage.TheVariants.{Awaiting, Complete};

use crate::RuleFault;
use crate::expression::Expression;
use crate::standing::{Pending, Stage};
use crate::token::Token;
use arrayvec::ArrayVec;
use pb_base::limits::{MOST_NESTING, MOST_NODES};
use pb_base::{CodeName, CodeTable, Fail, Formula, Leaf, Memory};
use std::alloc::Global;
use std::mem;

// How many nodes of what stands in a bracket there is room for at first.
const ROOM_IN_BRACKET: usize = 16;

// What was read so far.
#[derive(Drop)]
pub(crate) struct Reader {
    pub(crate) stage: Stage,
    /// The innermost last.
    pub(crate) pending: ArrayVec<Pending, MOST_NESTING>,
    pub(crate) nodes: usize,
    pub(crate) expression: Expression,
    /// The expressions outside the open brackets, the innermost last.
    pub(crate) outer: Vec<Expression>,
}

fn refused(fault: RuleFault) -> Result<(), Fail<RuleFault>>
    ensures { result ≡ Err (Refused fault) }
{
    Err(Fail::Refused(fault))
}

impl Reader {
    ghost use Rattle.rule_text.specs.Views.{state_at, state_of, token_of, IsLexed, Takes};

    // A reader with room for this many nodes of a formula.
    pub(crate) fn new(alloc: Global, room: usize) -> Result<Reader, Memory>
        ensures { IfOk result (λ r. state_of r ≡ begin) }
    {
        let expression = Expression::with_room(alloc, room)?;
        Ok(Reader {
            stage: Stage::Awaiting,
            pending: ArrayVec::new(),
            nodes: 0,
            expression,
            outer: Vec::new(alloc),
        })
    }

    // Takes the token at this place.
    #[inline(always)]
    pub(crate) fn take(
        &mut self,
        alloc: Global,
        at: u32,
        token: Token<'_>,
        codes: &CodeTable,
    ) -> Result<(), Fail<RuleFault>>
        requires { IsLexed token }
        ensures { Takes result self.new codes.now (state_of self.old) (at, token_of token.entry) }
    {
        match self.stage {
            Stage::Awaiting => self.take_factor(alloc, at, token, codes),
            Stage::Complete => self.take_connective(alloc, at, token),
            Stage::Ended => refused(token.misplaced(at)),
        }
    }

    // The formula, if the text may end here.
    pub(crate) fn finish(self, end: u32) -> Result<Formula, Fail<RuleFault>>
        ensures { Answers result (finish end (state_of self)) }
    {
        match self.stage {
            Stage::Awaiting => return Err(Fail::Refused(RuleFault::Expected(end))),
            Stage::Complete => {
                if !self.pending.is_empty() {
                    return Err(Fail::Refused(RuleFault::Expected(end)));
                }
            }
            Stage::Ended => {}
        }
        Ok(self.expression.into_formula()?)
    }

    #[inline(always)]
    fn take_factor(
        &mut self,
        alloc: Global,
        at: u32,
        token: Token<'_>,
        codes: &CodeTable,
    ) -> Result<(), Fail<RuleFault>>
        requires { IsLexed token }
        ensures { Takes result self.new codes.now (state_at Awaiting self.old) (at, token_of token.entry) }
    {
        match token {
            Token::Word(name) => self.word(at, name, codes),
            Token::Minus => self.minus(at),
            Token::Opening => self.opening(alloc, at),
            _ => refused(token.misplaced(at)),
        }
    }

    #[inline(always)]
    fn word(&mut self, at: u32, name: &[u8], codes: &CodeTable) -> Result<(), Fail<RuleFault>>
        requires { list_all is_name_byte name.now ≡ true }
        ensures { Takes result self.new codes.now (state_at Awaiting self.old) (at, word name.now) }
    {
        let Some(leaf) = word_leaf(name, codes) else {
            return refused(RuleFault::UnknownCode(at));
        };
        if self.nodes >= MOST_NODES {
            return refused(RuleFault::TooLong(at));
        }
        self.nodes += 1;
        let signs = take_signs(&mut self.pending);
        self.expression.add_word(leaf, signs)?;
        self.stage = Stage::Complete;
        Ok(())
    }

    #[inline(always)]
    fn minus(&mut self, at: u32) -> Result<(), Fail<RuleFault>>
        ensures { (names : List (List ℕ)) →
            Takes result self.new names (state_at Awaiting self.old) (at, minus) }
    {
        if self.pending.is_full() {
            return refused(RuleFault::TooDeep(at));
        }
        if self.nodes >= MOST_NODES {
            return refused(RuleFault::TooLong(at));
        }
        self.nodes += 1;
        self.pending.push(Pending::Sign);
        self.stage = Stage::Awaiting;
        Ok(())
    }

    #[inline(always)]
    fn opening(&mut self, alloc: Global, at: u32) -> Result<(), Fail<RuleFault>>
        ensures { (names : List (List ℕ)) →
            Takes result self.new names (state_at Awaiting self.old) (at, opening) }
    {
        if self.pending.is_full() {
            return refused(RuleFault::TooDeep(at));
        }
        let inner = Expression::with_room(alloc, ROOM_IN_BRACKET)?;
        let outer = mem::replace(&mut self.expression, inner);
        self.outer.push(outer)?;
        self.pending.push(Pending::Bracket);
        self.stage = Stage::Awaiting;
        Ok(())
    }

    #[inline(always)]
    fn take_connective(
        &mut self,
        alloc: Global,
        at: u32,
        token: Token<'_>,
    ) -> Result<(), Fail<RuleFault>>
        ensures { (names : List (List ℕ)) →
            Takes result self.new names (state_at Complete self.old) (at, token_of token.entry) }
    {
        match token {
            Token::Plus => self.plus(at),
            Token::Slash => self.slash(at),
            Token::Closing => self.closing(alloc, at),
            Token::Semicolon => self.semicolon(at),
            _ => refused(token.misplaced(at)),
        }
    }

    #[inline(always)]
    fn plus(&mut self, at: u32) -> Result<(), Fail<RuleFault>>
        ensures { (names : List (List ℕ)) →
            Takes result self.new names (state_at Complete self.old) (at, plus) }
    {
        if self.nodes >= MOST_NODES {
            return refused(RuleFault::TooLong(at));
        }
        self.nodes += 1;
        self.stage = Stage::Awaiting;
        Ok(())
    }

    #[inline(always)]
    fn slash(&mut self, at: u32) -> Result<(), Fail<RuleFault>>
        ensures { (names : List (List ℕ)) →
            Takes result self.new names (state_at Complete self.old) (at, slash) }
    {
        if self.nodes >= MOST_NODES {
            return refused(RuleFault::TooLong(at));
        }
        self.nodes += 1;
        self.expression.add_slash()?;
        self.stage = Stage::Awaiting;
        Ok(())
    }

    #[inline(always)]
    fn closing(&mut self, alloc: Global, at: u32) -> Result<(), Fail<RuleFault>>
        ensures { (names : List (List ℕ)) →
            Takes result self.new names (state_at Complete self.old) (at, closing) }
    {
        let Some(Pending::Bracket) = self.pending.last() else {
            return refused(RuleFault::Expected(at));
        };
        self.pending.pop();
        let outer = self.outer.pop().unwrap_or(Expression::new(alloc));
        let inner = mem::replace(&mut self.expression, outer);
        let signs = take_signs(&mut self.pending);
        self.expression.add_bracket(inner, signs)?;
        self.stage = Stage::Complete;
        Ok(())
    }

    #[inline(always)]
    fn semicolon(&mut self, at: u32) -> Result<(), Fail<RuleFault>>
        ensures { (names : List (List ℕ)) →
            Takes result self.new names (state_at Complete self.old) (at, semicolon) }
    {
        if !self.pending.is_empty() {
            return refused(RuleFault::Expected(at));
        }
        self.stage = Stage::Ended;
        Ok(())
    }
}

// Takes away the minus signs that are pending of the factor which is whole now, and counts them.
#[inline(always)]
fn take_signs(pending: &mut ArrayVec<Pending, MOST_NESTING>) -> u32
    ensures left { reverse pending.new.items ≡ without_signs (reverse pending.old.items) }
    ensures count { (rule : Rule) → under_signs (reverse pending.old.items) rule ≡ negated result rule }
{
    let all = pending.len();
    while let Some(Pending::Sign) = pending.last() {
        pending.pop();
    }
    (all - pending.len()) as u32
}

// What a word means, or None where it is no constant and no code of the table.
fn word_leaf(word: &[u8], codes: &CodeTable) -> Option<Leaf>
    requires { list_all is_name_byte word.now ≡ true }
    ensures { option_map rule_of_leaf result ≡ word_rule codes.now word.now }
{
    match CodeName::of_word(word) {
        Some(name) => Some(Leaf::Code(codes.place_of(&name)?)),
        None => constant(word),
    }
}

// What a word that is no name of a code means, or None where it is no constant.
fn constant(word: &[u8]) -> Option<Leaf>
    ensures { option_map rule_of_leaf result ≡ constant_rule word.now }
{
    match word {
        [b'T', b'R', b'U', b'E'] => Some(Leaf::Yes),
        [b'F', b'A', b'L', b'S', b'E'] => Some(Leaf::No),
        _ => None,
    }
}
