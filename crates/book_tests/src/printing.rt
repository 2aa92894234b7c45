//! How rules are printed.

use pb_base::{Body, CodeName, CodeTable};
use rule_text::{print_rule, read_rule};
use std::alloc::Global;
use std::test::Fail;

// A rule on each line, and behind the bar its text with fewest brackets.
const RULES: &str = "M1/M2+-G7;|M1/M2+-G7
 M1 /\t(M2)\r/ ((G7)) ;|M1/M2/G7
M1/(M2/G7)|M1/(M2/G7)
M1+(M2+G7)|M1+(M2+G7)
(M1+M2)+G7|M1+M2+G7
(M1/M2)+-(M1+G7)|(M1/M2)+-(M1+G7)
M1+(M2/G7)/(M1+M2)|M1+(M2/G7)/M1+M2
-(-M1)+(TRUE+FALSE)|--M1+(TRUE+FALSE)
-(M1/-M2)|-(M1/-M2)
TRUE|TRUE";

// The codes that the rules name.
fn codes(alloc: Global) -> Result<CodeTable, Fail> {
    let mut codes = CodeTable::new(alloc);
    for name in [b"M1", b"M2", b"G7"] {
        enter(&mut codes, name)?;
    }
    Ok(codes)
}

fn enter(codes: &mut CodeTable, name: &[u8]) -> Result<(), Fail> {
    if codes.len() < 3 {
        codes.add(CodeName::of(name).ok_or("a name")?)?;
    }
    Ok(())
}

// The text with fewest brackets of the rule that a text spells.
fn printed(alloc: Global, codes: &CodeTable, text: &str) -> Result<Body, Fail> {
    if text.len() > 99 {
        return Err(Fail::from("a short text"));
    }
    match read_rule(alloc, text.as_bytes(), codes) {
        Ok(rule) => Ok(print_rule(alloc, &rule, codes)?),
        Err(_) => Err(Fail::from("a rule")),
    }
}

fn is_printed(alloc: Global, codes: &CodeTable, line: &str) -> Result<bool, Fail> {
    let rule = line.split('|').nth(0).ok_or("a rule")?;
    let want = line.split('|').nth(1).ok_or("a text")?;
    let text = printed(alloc, codes, rule)?;
    Ok(text.as_slice() == want.as_bytes())
}

#[test]
fn rules_are_printed_with_fewest_brackets(rt: HostRuntime) -> Result<(), Fail> {
    let codes = codes(rt.alloc())?;
    for line in RULES.split('\n') {
        assert!(rt; is_printed(rt.alloc(), &codes, line)?, "{line}");
    }
    Ok(())
}
