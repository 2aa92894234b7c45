//! Why a text is no rule.
ghost use Rattle.std.specs.Prelude.{◌≡◌};

/// The first fault of a rule's text. Places count bytes of the text from 0.
#[derive(Clone, Copy, Debug, PartialEq, Eq)]
pub enum RuleFault {
    /// The text has only blanks, or nothing.
    Empty,
    /// The byte there is no blank and begins no token.
    BadByte(u32),
    /// The word there is no code of the book.
    UnknownCode(u32),
    /// The token there may not stand there. Where the text ends too early the place is its length.
    Expected(u32),
    /// The bracket or the minus sign there makes the nesting 65.
    TooDeep(u32),
    /// The word, minus, plus or slash there is the 513th.
    TooLong(u32),
}

impl RuleFault {
    ghost use Rattle.rule_text.specs.Fault.{fault_number};

    /// The number under which a report names the kind of fault, from 1.
    pub fn number(&self) -> u32
        ensures { result ≡ fault_number self.now }
    {
        match self {
            RuleFault::Empty => 1,
            RuleFault::BadByte(_) => 2,
            RuleFault::UnknownCode(_) => 3,
            RuleFault::Expected(_) => 4,
            RuleFault::TooDeep(_) => 5,
            RuleFault::TooLong(_) => 6,
        }
    }
}
