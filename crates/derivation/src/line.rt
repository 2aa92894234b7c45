//! The lines of a certificate, each read once from its words.
ghost use Rattle.std.specs.Prelude.{◌≡◌, ◌≢◌, ◌<◌, None, Some, List, [], ◌∷◌, IfOk, IfSome, MatchOption, length, if◌then◌else◌};
ghost use Rattle.std.specs.Option.{option_map};
ghost use Rattle.derivation.specs.CertLine.{book_from, close_from, end_from, head_from, other_from, set_from, slice_from, step_from};
ghost use Rattle.clause_pool.specs.declared.chain.Pair.{Pair};
ghost use Rattle.derivation.specs.Kept.{line_kept, literal_kept, number_kept, pairs_kept};
ghost use Rattle.derivation.specs.Reading.{HasPairs, line_of};

use crate::pieces::Pieces;
use crate::word::number;
use clause_pool::{Pair, Ref};
use pb_base::{CodeList, CodeName, Id, Memory};
use std::alloc::Global;

/// What a line of a certificate says.
#[derive(Drop)]
pub(crate) enum Line {
    /// The first line.
    Head,
    /// The name of the book, and the number of its slices.
    Book { name: Id, slices: u64 },
    /// A slice begins.
    Slice(u64),
    /// The names of a set of codes.
    Set(CodeList),
    /// A clause is derived by a chain. Its pairs lie beside the line, in room that serves every step.
    Step { start: Ref },
    /// A question is closed by a clause.
    Close { question: u64, clause: Ref },
    /// The last line.
    End,
}

/// Reads a line, or gives nothing where it has the form of none. The pairs of a step take the place of those in `pairs`.
pub(crate) fn read_line(
    alloc: Global,
    text: &[u8],
    pairs: &mut Vec<Pair>,
) -> Result<Option<Line>, Memory>
    ensures line { IfOk result (λ line. line_kept text.now
        ≡ option_map (λ l. line_of l pairs.new.items) line) }
    ensures pairs { IfOk result (λ line. IfSome line (λ l. HasPairs l pairs.new.items)) }
{
    let mut words = Pieces::of(text, b' ');
    let Some(keyword) = words.next() else {
        return Ok(None);
    };
    if keyword == b"step".as_slice() {
        return read_step(words, pairs);
    }
    read_other(alloc, keyword, words)
}

// Reads a line other than a step.
fn read_other(alloc: Global, keyword: &[u8], words: Pieces) -> Result<Option<Line>, Memory>
    ensures line { IfOk result (λ line. (pairs : List Pair)
        → other_from number_kept literal_kept keyword.now words.entry
        ≡ option_map (λ l. line_of l pairs) line) }
    ensures pairs { IfOk result (λ line. (pairs : List Pair) → IfSome line (λ l. HasPairs l pairs)) }
{
    if keyword == b"close".as_slice() {
        return Ok(read_close(words));
    }
    if keyword == b"set".as_slice() {
        return read_set(alloc, words);
    }
    if keyword == b"slice".as_slice() {
        return Ok(read_slice(words));
    }
    if keyword == b"book".as_slice() {
        return Ok(read_book(words));
    }
    if keyword == b"end".as_slice() {
        return Ok(read_end(&words));
    }
    if keyword == b"partsbook".as_slice() {
        return Ok(read_head(words));
    }
    Ok(None)
}

fn read_step(mut words: Pieces, pairs: &mut Vec<Pair>) -> Result<Option<Line>, Memory>
    ensures line { IfOk result (λ line. step_from number_kept literal_kept words.entry
        ≡ option_map (λ l. line_of l pairs.new.items) line) }
    ensures pairs { IfOk result (λ line. IfSome line (λ l. HasPairs l pairs.new.items)) }
{
    let Some(start) = words.next_number() else {
        return Ok(None);
    };
    let are_pairs = read_pairs(words, pairs)?;
    if !are_pairs {
        return Ok(None);
    }
    if pairs.is_empty() {
        return Ok(None);
    }
    Ok(Some(Line::Step {
        start: start as usize,
    }))
}

// Whether the words are pairs, which take the place of those that are there.
#[tactic(auto, using(crate::proofs::ReadLaws::no_pairs_read, crate::proofs::ReadLaws::all_pairs_read, crate::proofs::ReadLaws::pair_read))]
fn read_pairs(mut words: Pieces, pairs: &mut Vec<Pair>) -> Result<bool, Memory>
    ensures { IfOk result (λ are_pairs. pairs_kept words.entry
        ≡ (if are_pairs then Some pairs.new.items else None)) }
{
    pairs.clear();
    while !words.is_done() {
        let Some(pair) = read_pair(&mut words) else {
            return Ok(false);
        };
        pairs.push(pair)?;
    }
    Ok(true)
}

// Reads the first of the pairs that are left.
fn read_pair(words: &mut Pieces) -> Option<Pair>
    requires { words.old ≢ [] }
    ensures pairs { MatchOption result (pairs_kept words.old ≡ None)
        (λ pair. pairs_kept words.old ≡ option_map (λ pairs. pair ∷ pairs) (pairs_kept words.new)) }
    ensures fewer { IfSome result (λ pair. length words.new < length words.old) }
{
    let lit = words.next_literal()?;
    let with = words.next_number()? as usize;
    Some(Pair { lit, with })
}

fn read_close(mut words: Pieces) -> Option<Line>
    ensures line { (pairs : List Pair) → close_from number_kept literal_kept words.entry
        ≡ option_map (λ l. line_of l pairs) result }
    ensures pairs { (pairs : List Pair) → IfSome result (λ l. HasPairs l pairs) }
{
    let question = words.next_number()?;
    let clause = words.next_number()? as usize;
    if !words.is_done() {
        return None;
    }
    Some(Line::Close { question, clause })
}

#[tactic(auto, using(crate::proofs::ReadLaws::name_read, crate::proofs::ReadLaws::all_names_read))]
fn read_set(alloc: Global, mut words: Pieces) -> Result<Option<Line>, Memory>
    ensures line { IfOk result (λ line. (pairs : List Pair) → set_from words.entry
        ≡ option_map (λ l. line_of l pairs) line) }
    ensures pairs { IfOk result (λ line. (pairs : List Pair) → IfSome line (λ l. HasPairs l pairs)) }
{
    let mut names = CodeList::new(alloc);
    while let Some(word) = words.next() {
        let Some(name) = CodeName::of(word) else {
            return Ok(None);
        };
        names.push(name)?;
    }
    Ok(Some(Line::Set(names)))
}

fn read_slice(mut words: Pieces) -> Option<Line>
    ensures line { (pairs : List Pair) → slice_from number_kept literal_kept words.entry
        ≡ option_map (λ l. line_of l pairs) result }
    ensures pairs { (pairs : List Pair) → IfSome result (λ l. HasPairs l pairs) }
{
    let word = words.next()?;
    if !words.is_done() {
        return None;
    }
    Some(Line::Slice(number(word)?))
}

fn read_book(mut words: Pieces) -> Option<Line>
    ensures line { (pairs : List Pair) → book_from number_kept literal_kept words.entry
        ≡ option_map (λ l. line_of l pairs) result }
    ensures pairs { (pairs : List Pair) → IfSome result (λ l. HasPairs l pairs) }
{
    let name = words.next()?;
    let slices = words.next()?;
    if !words.is_done() {
        return None;
    }
    let name = Id::of(name)?;
    let slices = number(slices)?;
    Some(Line::Book { name, slices })
}

fn read_end(words: &Pieces) -> Option<Line>
    ensures line { (pairs : List Pair) → end_from words.now ≡ option_map (λ l. line_of l pairs) result }
    ensures pairs { (pairs : List Pair) → IfSome result (λ l. HasPairs l pairs) }
{
    if words.is_done() {
        Some(Line::End)
    } else {
        None
    }
}

fn read_head(mut words: Pieces) -> Option<Line>
    ensures line { (pairs : List Pair) → head_from words.entry ≡ option_map (λ l. line_of l pairs) result }
    ensures pairs { (pairs : List Pair) → IfSome result (λ l. HasPairs l pairs) }
{
    let subject = words.next()?;
    let version = words.next()?;
    if !words.is_done() {
        return None;
    }
    if subject != b"certificate".as_slice() {
        return None;
    }
    if version != b"1".as_slice() {
        return None;
    }
    Some(Line::Head)
}
