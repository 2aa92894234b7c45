//! Printing a rule.
ghost use Rattle.std.specs.Prelude.{◌≡◌, ◌++◌, IsTrue, IfOk, OnOk, length, reverse};
ghost use Rattle.pb_base.specs.Rule.{codes_below};
ghost use Rattle.rule_text.specs.Token.{tokens};
ghost use Rattle.rule_text.specs.Grammar.{IsText};
ghost use Rattle.rule_text.specs.Laws.{ReadsBack};
ghost use Rattle.rule_text.specs.Printing.{printed, printed_depth, bracketed, is_either, is_pair};

use pb_base::{Body, CodeTable, Formula, FormulaPart, Memory, Shape};
use std::alloc::Global;

/// The text of a rule with fewest brackets, without blanks and without a semicolon.
pub fn print_rule(alloc: Global, rule: &Formula, codes: &CodeTable) -> Result<Body, Memory>
    requires { IsTrue (codes_below (length codes.now) rule.now) }
    ensures text { IfOk result (λ text. text ≡ printed codes.now rule.now) }
    ensures spelled { IfOk result (λ text. IsText codes.now (printed_depth rule.now) (tokens text) rule.now) }
    ensures read_back { IfOk result (λ text. ReadsBack codes.now rule.now text) }
{
    // Each name is a word of its own, and is read as its code.
    codes.names_law();
    let mut text = Vec::new(alloc);
    write_backward(&mut text, rule.part(), codes)?;
    text.reverse();
    Ok(Body::of(text))
}

// Writes the text from its end, since the last node of a formula is its outermost. The left sides are a loop, so that
// it goes down no deeper than the text nests.
#[cycle(write)]
fn write_backward(
    text: &mut Vec<u8>,
    rule: FormulaPart<'_>,
    codes: &CodeTable,
) -> Result<(), Memory>
    requires { IsTrue (codes_below (length codes.now) rule) }
    ensures { OnOk result (text.new.items ≡ text.old.items ++ reverse (printed codes.now rule.entry)) }
{
    let mut rest = rule;
    'sides: loop {
        match rest.shape() {
            Shape::Or(left, right) => {
                let needed = is_either(&right);
                write_bracketed(text, needed, right, codes)?;
                text.push(b'/')?;
                rest = left;
            }
            Shape::And(left, right) => {
                let needed = is_pair(&right);
                write_bracketed(text, needed, right, codes)?;
                text.push(b'+')?;
                if is_either(&left) {
                    return write_bracketed(text, true, left, codes);
                }
                rest = left;
            }
            Shape::Not(of) => {
                let needed = is_pair(&of);
                write_bracketed(text, needed, of, codes)?;
                text.push(b'-')?;
                return Ok(());
            }
            Shape::Code(place) => return write_word(text, codes.name_of(place).bytes()),
            Shape::Yes => return write_word(text, b"TRUE"),
            Shape::No => return write_word(text, b"FALSE"),
        }
    }
}

// Writes the rule from its end, inside brackets where they are needed.
#[cycle(write)]
fn write_bracketed(
    text: &mut Vec<u8>,
    needed: bool,
    rule: FormulaPart<'_>,
    codes: &CodeTable,
) -> Result<(), Memory>
    requires { IsTrue (codes_below (length codes.now) rule) }
    ensures { let rule_text = bracketed needed (printed codes.now rule.entry) in
        OnOk result (text.new.items ≡ text.old.items ++ reverse rule_text) }
{
    if needed {
        text.push(b')')?;
        write_backward(text, rule, codes)?;
        text.push(b'(')?;
        Ok(())
    } else {
        write_backward(text, rule, codes)
    }
}

// Writes a word from its end.
fn write_word(text: &mut Vec<u8>, word: &[u8]) -> Result<(), Memory>
    ensures { OnOk result (text.new.items ≡ text.old.items ++ reverse word.now) }
{
    let mut at = word.len();
    while at > 0 {
        at -= 1;
        text.push(word[at])?;
    }
    Ok(())
}

fn is_either(rule: &FormulaPart<'_>) -> bool
    ensures { result ≡ is_either rule.now }
{
    match rule.shape() {
        Shape::Or(_, _) => true,
        _ => false,
    }
}

fn is_pair(rule: &FormulaPart<'_>) -> bool
    ensures { result ≡ is_pair rule.now }
{
    match rule.shape() {
        Shape::Or(_, _) => true,
        Shape::And(_, _) => true,
        _ => false,
    }
}
