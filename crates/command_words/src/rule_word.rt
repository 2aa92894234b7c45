//! The text of a rule, as a word gave it.
ghost use Rattle.std.specs.Prelude.{◌≡◌, ◌≤◌, length, IfOk};
ghost use Rattle.pb_base.specs.declared.limits.TheConstants.{MOST_TEXT_BYTES};

use pb_base::Memory;
use std::alloc::Global;
use std::marker::Model;

/// The text of a rule, as a word gave it. It has at most as many bytes as a book.
#[derive(Drop)]
pub struct RuleWord {
    text: String,
}

impl Model for RuleWord {
    ghost use Rattle.std.specs.Prelude.{List, ℕ, ◌≤◌, length, string_bytes};
    ghost use Rattle.pb_base.specs.declared.limits.TheConstants.{MOST_TEXT_BYTES};

    ghost Value = { List ℕ };

    ghost view = { λ r. string_bytes r.text };

    ghost invariant = { λ r. length (string_bytes r.text) ≤ MOST_TEXT_BYTES };
}

impl RuleWord {
    pub fn of(alloc: Global, text: &str) -> Result<RuleWord, Memory>
        requires { length text.now ≤ MOST_TEXT_BYTES }
        ensures { IfOk result (λ rule. rule ≡ text.now) }
    {
        Ok(RuleWord {
            text: String::from_str(alloc, text)?,
        })
    }

    /// The bytes of the text, in UTF-8.
    pub fn bytes(&self) -> &[u8]
        ensures value { result.now ≡ self.now }
        ensures short { length self.now ≤ MOST_TEXT_BYTES }
    {
        self.text.as_bytes()
    }
}
