//! A text in pieces, read once from the left.
ghost use Rattle.std.specs.Prelude.{◌≡◌, ◌<◌, ◌≤◌, ◌^◌, [], ◌∷◌, None, Some, IsTrue, ◌↔◌, MatchOption, length};
ghost use Rattle.derivation.specs.Kept.{first_literal, first_number};
ghost use Rattle.derivation.specs.Pieces.{EndsPiece};

use crate::word::{front_literal, front_number, literal, number};
use clause_pool::Lit;
use memchr::memchr;
use std::marker::Model;

/// The pieces of a text that are left to read, parted by one byte: the lines of a text, or the words of a line.
#[derive(Drop)]
pub(crate) struct Pieces<'a> {
    rest: &'a [u8],
    // Below each sign and digit.
    separator: u8,
    done: bool,
}

impl<'a> Model for Pieces<'a> {
    ghost use Rattle.std.specs.Prelude.{◌==◌, ◌<◌, List, ℕ};
    ghost use Rattle.derivation.specs.Pieces.{pieces_left};

    ghost Value = { List (List ℕ) };

    ghost view = { λ p. pieces_left p.done p.separator p.rest.now };

    ghost invariant = { λ p. p.separator < 43 };
}

impl<'a> Pieces<'a> {
    ghost use Rattle.derivation.specs.Pieces.{pieces};

    /// All pieces of a text. No sign and no digit may part them.
    pub(crate) fn of(text: &'a [u8], separator: u8) -> Pieces<'a>
        requires { separator < 43 }
        ensures { result ≡ pieces separator text.now }
    {
        Pieces {
            rest: text,
            separator,
            done: false,
        }
    }

    /// The next piece, or None where there is none left.
    pub(crate) fn next(&mut self) -> Option<&'a [u8]>
        ensures { MatchOption result ((self.old ≡ []) × (self.new ≡ []))
            (λ piece. self.old ≡ piece.now ∷ self.new) }
    {
        if self.done {
            return None;
        }
        let text = self.rest;
        let end = piece_end(text, self.separator);
        if end == text.len() {
            self.done = true;
            return Some(text);
        }
        self.rest = &text[end + 1..];
        Some(&text[..end])
    }

    /// The number that the next piece is, or None where none is left or it is no number. It is read as it comes, without
    /// a search for its end.
    pub(crate) fn next_number(&mut self) -> Option<u64>
        ensures { MatchOption result (first_number self.old ≡ None)
            (λ number. first_number self.old ≡ Some (number, self.new)) }
    {
        if self.done {
            return None;
        }
        let text = self.rest;
        let Some(front) = front_number(text, self.separator) else {
            return self.next_long_number();
        };
        if front.end == text.len() {
            self.done = true;
            return Some(front.value);
        }
        self.rest = &text[front.end + 1..];
        Some(front.value)
    }

    // The same, of a piece of any form.
    fn next_long_number(&mut self) -> Option<u64>
        ensures { MatchOption result (first_number self.old ≡ None)
            (λ number. first_number self.old ≡ Some (number, self.new)) }
    {
        let word = self.next()?;
        number(word)
    }

    /// The literal that the next piece is, or None where none is left or it is no literal.
    pub(crate) fn next_literal(&mut self) -> Option<Lit>
        ensures { MatchOption result (first_literal self.old ≡ None)
            (λ lit. first_literal self.old ≡ Some (lit, self.new)) }
    {
        if self.done {
            return None;
        }
        let text = self.rest;
        let Some(front) = front_literal(text, self.separator) else {
            return self.next_long_literal();
        };
        if front.end == text.len() {
            self.done = true;
            return Some(front.lit);
        }
        self.rest = &text[front.end + 1..];
        Some(front.lit)
    }

    // The same, of a piece of any form.
    fn next_long_literal(&mut self) -> Option<Lit>
        ensures { MatchOption result (first_literal self.old ≡ None)
            (λ lit. first_literal self.old ≡ Some (lit, self.new)) }
    {
        let word = self.next()?;
        literal(word)
    }

    /// Whether no piece is left. No text has so many that they couldn't be counted.
    pub(crate) fn is_done(&self) -> bool
        ensures value { IsTrue result ↔ (self.now ≡ []) }
        ensures few { length self.now ≤ 2 ^ 63 }
    {
        self.done
    }
}

// Where the first piece of a text ends.
fn piece_end(text: &[u8], separator: u8) -> usize
    ensures { EndsPiece separator text.now result }
{
    match memchr(separator, text) {
        Some(end) => end,
        None => text.len(),
    }
}
