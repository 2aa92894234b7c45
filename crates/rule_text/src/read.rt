//! Reading the text of a rule.
ghost use Rattle.std.specs.Prelude.{◌≡◌, ◌<◌, ◌^◌, length, Ok, IfOk, IsTrue};
ghost use Rattle.std.specs.List.{list_all};
ghost use Rattle.pb_base.specs.Answers.{Answers};
ghost use Rattle.pb_base.specs.Rule.{Rule, codes_below};
ghost use Rattle.rule_text.specs.Token.{is_blank};
ghost use Rattle.rule_text.specs.FirstFault.{first_fault};
ghost use Rattle.rule_text.specs.Reading.{rule_of};
ghost use Rattle.rule_text.specs.Laws.{IsShortText, AnswersFault, RefusesForLimits};

use crate::RuleFault;
use crate::reader::Reader;
use crate::token::{is_blank, token_at};
use pb_base::limits::MOST_NODES;
use pb_base::{CodeTable, Fail, Formula};
use std::alloc::Global;

/// The formula that a text spells over the codes of a book, or its first fault. The text is a rule as docs/BOOK-FORMAT.md describes it.
pub fn read_rule(alloc: Global, text: &[u8], codes: &CodeTable) -> Result<Formula, Fail<RuleFault>>
    requires { length text.now < 2 ^ 32 }
    ensures answer { Answers result (rule_of codes.now text.now) }
    ensures fault { AnswersFault result (first_fault codes.now text.now) }
    ensures spelled { IfOk result (λ rule. IsShortText codes.now text.now rule) }
    ensures read { (rule : Rule) → IsShortText codes.now text.now rule → Answers result (Ok rule) }
    ensures limits { RefusesForLimits result codes.now text.now }
    ensures codes { IfOk result (λ rule. IsTrue (codes_below (length codes.now) rule)) }
{
    if is_all_blank(text) {
        return Err(Fail::Refused(RuleFault::Empty));
    }
    // Codes of five letters make a node for each two bytes.
    let room = (text.len() / 2 + 4).min(MOST_NODES);
    let mut reader = Reader::new(alloc, room)?;
    let mut at = 0;
    while at < text.len() {
        if is_blank(text[at]) {
            at += 1;
        } else {
            let token = token_at(text, at);
            reader.take(alloc, at as u32, token, codes)?;
            at += token.len();
        }
    }
    reader.finish(text.len() as u32)
}

fn is_all_blank(text: &[u8]) -> bool
    ensures { result ≡ list_all is_blank text.now }
{
    text.iter().all(|b| is_blank(*b))
}
