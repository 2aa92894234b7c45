//! The tokens of a rule's text.
ghost use Rattle.std.specs.Prelude.{◌≡◌, ◌<◌, ◌≤◌, length, drop, slice_index};
ghost use Rattle.std.specs.List.{prefix_len};
ghost use Rattle.pb_base.specs.Names.{is_name_byte};
ghost use Rattle.rule_text.specs.Token.{is_blank, mark, token_at, token_len};
ghost use Rattle.rule_text.specs.Views.{misplaced, token_of, IsLexed};

use crate::RuleFault;
use pb_base::is_name_byte;

// A token of a rule.
#[derive(Clone, Copy)]
pub(crate) enum Token<'a> {
    /// A longest run of A to Z and 0 to 9.
    Word(&'a [u8]),
    Plus,
    Slash,
    Minus,
    Opening,
    Closing,
    Semicolon,
    /// A byte that begins no token.
    Other,
}

pub(crate) fn is_blank(b: u8) -> bool
    ensures { result ≡ is_blank b }
{
    b == b' ' || b == b'\t' || b == b'\r' || b == b'\n'
}

// The token that begins at this place, which is no blank.
pub(crate) fn token_at(text: &[u8], at: usize) -> Token<'_>
    requires { at < length text.now }
    ensures token { token_of result ≡ token_at (drop at text.now) }
    ensures lexed { IsLexed result }
{
    let b = text[at];
    if is_name_byte(b) {
        let rest = &text[at..];
        Token::Word(&rest[..word_len(rest)])
    } else {
        mark(b)
    }
}

// How long the word at the front is.
fn word_len(text: &[u8]) -> usize
    ensures value { result ≡ prefix_len is_name_byte text.now }
    ensures within { result ≤ length text.now }
{
    for (i, b) in text.iter().enumerate() {
        if !is_name_byte(*b) {
            return i;
        }
    }
    text.len()
}

// The token of a byte that is neither a blank nor part of a word.
fn mark(b: u8) -> Token<'static>
    ensures { token_of result ≡ mark b }
{
    match b {
        b'+' => Token::Plus,
        b'/' => Token::Slash,
        b'-' => Token::Minus,
        b'(' => Token::Opening,
        b')' => Token::Closing,
        b';' => Token::Semicolon,
        _ => Token::Other,
    }
}

impl Token<'_> {
    // How many bytes it has.
    pub(crate) fn len(&self) -> usize
        ensures { result ≡ token_len (token_of self.now) }
    {
        match self {
            Token::Word(word) => word.len(),
            _ => 1,
        }
    }

    // The fault of this token where it may not stand.
    pub(crate) fn misplaced(&self, at: u32) -> RuleFault
        ensures { result ≡ misplaced at (token_of self.now) }
    {
        match self {
            Token::Other => RuleFault::BadByte(at),
            _ => RuleFault::Expected(at),
        }
    }
}
