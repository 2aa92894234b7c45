//! What is done with the words by hand, before the option parser has them.
ghost use Rattle.std.specs.Prelude.{◌≡◌, ◌++◌, IfOk, OnOk, option_map};
ghost use Rattle.command_words.specs.Parts.{is_plain};
ghost use Rattle.command_words.specs.Prepared.{texts_of, lent, if_done, is_long, plain_front, behind_plain, last_words, ended, is_cut_short, with_option, from_option, prepared};

use pb_base::Memory;
use std::alloc::Global;

/// The words as the option parser is given them, or None where they are of no form. The first `--` is dropped, and
/// a word that the parser would take for a value though it begins with `-` is refused.
pub fn prepare<'a>(alloc: Global, words: &'a [String]) -> Result<Option<Vec<&'a str>>, Memory>
    ensures { IfOk result (λ list.
        option_map (λ kept. lent kept.items) list ≡ prepared (texts_of words.now)) }
{
    let Some((name, _)) = words.split_first() else {
        return Ok(None);
    };
    if !is_plain(name.as_bytes()) {
        return Ok(None);
    }
    let mut kept = Vec::new(alloc);
    let behind = take_plain(&mut kept, words)?;
    if take_option(&mut kept, behind)? {
        Ok(Some(kept))
    } else {
        Ok(None)
    }
}

// Takes the plain words in front, and gives those behind them.
fn take_plain<'a>(kept: &mut Vec<&'a str>, words: &'a [String]) -> Result<&'a [String], Memory>
    ensures kept { OnOk result
        (lent kept.new.items ≡ lent kept.old.items ++ plain_front (texts_of words.now)) }
    ensures behind { IfOk result (λ behind. texts_of behind.now ≡ behind_plain (texts_of words.now)) }
{
    let mut left = words;
    while let Some((word, behind)) = left.split_first() {
        if !is_plain(word.as_bytes()) {
            return Ok(left);
        }
        kept.push(word.as_str())?;
        left = behind;
    }
    Ok(left)
}

// Takes the words from the first one on that isn't plain.
fn take_option<'a>(kept: &mut Vec<&'a str>, words: &'a [String]) -> Result<bool, Memory>
    ensures { IfOk result (λ done. if_done done (lent kept.new.items)
        ≡ option_map (λ more. lent kept.old.items ++ more) (from_option (texts_of words.now))) }
{
    let Some((word, behind)) = words.split_first() else {
        return Ok(true);
    };
    if word.as_str() == "--" {
        take_last(kept, behind)
    } else if is_long(word.as_bytes()) && !is_cut_short(word.as_str(), behind) {
        kept.push(word.as_str())?;
        let further = take_plain(kept, behind)?;
        take_ended(kept, further)
    } else {
        Ok(false)
    }
}

// Whether the option is `--budget`, and its value would be `--`.
fn is_cut_short(option: &str, behind: &[String]) -> bool
    ensures { result ≡ is_cut_short option.now (texts_of behind.now) }
{
    match behind.first() {
        Some(word) => option == "--budget" && word.as_str() == "--",
        None => false,
    }
}

// Takes the words behind an option and further plain words.
fn take_ended<'a>(kept: &mut Vec<&'a str>, words: &'a [String]) -> Result<bool, Memory>
    ensures { IfOk result (λ done. if_done done (lent kept.new.items)
        ≡ option_map (λ more. lent kept.old.items ++ more) (ended (texts_of words.now))) }
{
    match words.split_first() {
        None => Ok(true),
        Some((word, last)) if word.as_str() == "--" => take_last(kept, last),
        Some(_) => Ok(false),
    }
}

// Takes the words behind the `--` that ended the options.
fn take_last<'a>(kept: &mut Vec<&'a str>, words: &'a [String]) -> Result<bool, Memory>
    ensures { IfOk result (λ done. if_done done (lent kept.new.items)
        ≡ option_map (λ more. lent kept.old.items ++ more) (last_words (texts_of words.now))) }
{
    let behind = take_plain(kept, words)?;
    Ok(behind.is_empty())
}

fn is_plain(text: &[u8]) -> bool
    ensures { result ≡ is_plain text.now }
{
    !matches!(text, [b'-', ..])
}

pub(crate) fn is_long(text: &[u8]) -> bool
    ensures { result ≡ is_long text.now }
{
    matches!(text, [b'-', b'-', ..])
}
