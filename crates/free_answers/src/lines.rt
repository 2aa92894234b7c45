//! The lines that tell of codes.
ghost use Rattle.std.specs.Prelude.{◌≡◌, ◌<◌, ◌++◌, length, IfSome, OnOk, slice_get};
ghost use Rattle.pb_base.specs.Sets.{has};
ghost use Rattle.pb_base.specs.Lines.{line};
ghost use Rattle.free_answers.specs.FreeText.{code_word, line_at, lines_from, open_word};

use left_cars::CodeState;
use pb_base::{CodeName, CodeSet, CodeTable, Memory, Text};

/// Puts a line for each code behind a text, in record order. The set tells of an open code whether it comes.
pub(crate) fn put_lines(
    text: &mut Text,
    codes: &CodeTable,
    completed: &CodeSet,
    states: &[CodeState],
) -> Result<(), Memory>
    ensures { OnOk result (text.new ≡ text.old ++ lines_from 0 completed.now states.now codes.now) }
{
    for place in 0..codes.len() {
        put_line(text, codes, completed, states, place)?;
    }
    Ok(())
}

fn put_line(
    text: &mut Text,
    codes: &CodeTable,
    completed: &CodeSet,
    states: &[CodeState],
    place: u32,
) -> Result<(), Memory>
    requires { place < length codes.now }
    ensures { let found = slice_get codes.now place in
        OnOk result (IfSome found (λ name. text.new ≡ text.old ++ line_at completed.now states.now place name)) }
{
    match states.get(place as usize) {
        Some(state) => {
            let came = is_in(completed, place);
            put_state(text, codes.name_of(place), state, came)
        }
        None => Ok(()),
    }
}

fn is_in(set: &CodeSet, place: u32) -> bool
    ensures { result ≡ has set.now place }
{
    place < set.len() && set.has(place)
}

fn put_state(text: &mut Text, name: &CodeName, state: &CodeState, came: bool) -> Result<(), Memory>
    ensures { OnOk result (text.new ≡ text.old ++ line (code_word state.now came ++ name.now)) }
{
    put_word(text, state, came)?;
    text.put(name.bytes())?;
    text.put(b"\n")
}

// What is so of a code, and a space.
fn put_word(text: &mut Text, state: &CodeState, came: bool) -> Result<(), Memory>
    ensures { OnOk result (text.new ≡ text.old ++ code_word state.now came) }
{
    match state {
        CodeState::Ordered => text.put(b"ordered "),
        CodeState::Forced => text.put(b"forced "),
        CodeState::Excluded => text.put(b"excluded "),
        CodeState::Undecided(_) => text.put(b"left "),
        CodeState::Open => put_open(text, came),
    }
}

fn put_open(text: &mut Text, came: bool) -> Result<(), Memory>
    ensures { OnOk result (text.new ≡ text.old ++ open_word came) }
{
    if came {
        text.put(b"comes ")
    } else {
        text.put(b"open ")
    }
}
