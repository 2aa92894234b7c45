//! The lines of the generated book.
ghost use Rattle.std.specs.Prelude.{◌≡◌, ◌++◌, ◌<◌, ◌≤◌, IfSome, OnOk, slice_index};
ghost use Rattle.std.specs.List.{flat_map};
ghost use Rattle.book_sample.specs.Fits.{GroupFits, BoundFits};
ghost use Rattle.book_sample.specs.Lines.{heading_line, code_line, module_line, supplement_line, some_line, alone_line, bound_text, position_line, usage_text, variant_line, group_text};

use crate::group::{Bound, Choice, Group};
use crate::names::{code_of, name};
use itoa::Buffer;
use pb_base::{Memory, Text};

/// The `book` record.
pub fn put_heading(text: &mut Text) -> Result<(), Memory>
    ensures { OnOk result (text.new ≡ text.old ++ heading_line) }
{
    text.put(b"book,SAMPLE,1,1000\n")
}

/// The code of this number.
pub fn put_code(text: &mut Text, number: u32) -> Result<(), Memory>
    ensures { OnOk result (text.new ≡ text.old ++ code_line number) }
{
    let code = name(b'K', number);
    put_all(text, &[b"code,", &code, b",\n"])
}

/// The one module.
pub fn put_module(text: &mut Text) -> Result<(), Memory>
    ensures { OnOk result (text.new ≡ text.old ++ module_line) }
{
    text.put(b"module,M,\n")
}

/// The rules, the position and the variants of the group of this number.
pub fn put_group(text: &mut Text, number: u32, group: &Group) -> Result<(), Memory>
    requires small { number ≤ 1000 }
    requires group { GroupFits number group.now }
    ensures { OnOk result (text.new ≡ text.old ++ group_text number group.now) }
{
    put_supplement(text, number, group)?;
    put_some(text, number)?;
    put_alone(text, number, 0, [1, 2, 3])?;
    put_alone(text, number, 1, [0, 2, 3])?;
    put_alone(text, number, 2, [0, 1, 3])?;
    put_alone(text, number, 3, [0, 1, 2])?;
    put_bound(text, number, group.bound)?;
    put_position(text, number)?;
    put_variant(text, number, 0, group.first)?;
    put_variant(text, number, 1, group.second)?;
    put_variant(text, number, 2, group.third)?;
    put_variant(text, number, 3, group.fourth)?;
    Ok(())
}

fn put_supplement(text: &mut Text, number: u32, group: &Group) -> Result<(), Memory>
    requires small { number ≤ 1000 }
    requires adds { group.now.adds < 4 }
    ensures { OnOk result (text.new ≡ text.old ++ supplement_line number group.now) }
{
    let id = name(b'S', number);
    let adds = code_of(number, group.adds);
    let first = code_of(number, 0);
    let second = code_of(number, 1);
    let third = code_of(number, 2);
    let fourth = code_of(number, 3);
    let mut digits = Buffer::new();
    let rank = digits.format(group.rank).as_bytes();
    put_all(
        text,
        &[
            b"supplement,",
            &id,
            b",",
            rank,
            b",",
            &adds,
            b",-",
            &first,
            b"+-",
            &second,
            b"+-",
            &third,
            b"+-",
            &fourth,
            b",,\n",
        ],
    )
}

fn put_some(text: &mut Text, number: u32) -> Result<(), Memory>
    requires { number ≤ 1000 }
    ensures { OnOk result (text.new ≡ text.old ++ some_line number) }
{
    let id = name(b'G', number);
    let first = code_of(number, 0);
    let second = code_of(number, 1);
    let third = code_of(number, 2);
    let fourth = code_of(number, 3);
    put_all(
        text,
        &[
            b"construct,",
            &id,
            b",*,",
            &first,
            b"/",
            &second,
            b"/",
            &third,
            b"/",
            &fourth,
            b",,\n",
        ],
    )
}

// With a code of the group there are none of the three others.
fn put_alone(text: &mut Text, number: u32, code: u32, others: [u32; 3]) -> Result<(), Memory>
    requires small { number ≤ 1000 }
    requires code { code ≤ 3 }
    requires first { slice_index others 0 ≤ 3 }
    requires second { slice_index others 1 ≤ 3 }
    requires third { slice_index others 2 ≤ 3 }
    ensures { let first = slice_index others 0 in
        let second = slice_index others 1 in
        let third = slice_index others 2 in
        OnOk result (text.new ≡ text.old ++ alone_line number code first second third) }
{
    let id = name(b'X', 4 * number + code);
    let own = code_of(number, code);
    let first = code_of(number, others[0]);
    let second = code_of(number, others[1]);
    let third = code_of(number, others[2]);
    put_all(
        text,
        &[
            b"construct,",
            &id,
            b",",
            &own,
            b",-(",
            &first,
            b"/",
            &second,
            b"/",
            &third,
            b"),,\n",
        ],
    )
}

fn put_bound(text: &mut Text, number: u32, bound: Option<Bound>) -> Result<(), Memory>
    requires small { number ≤ 1000 }
    requires bound { IfSome bound (BoundFits number) }
    ensures { OnOk result (text.new ≡ text.old ++ bound_text number bound) }
{
    match bound {
        None => Ok(()),
        Some(bound) => {
            let id = name(b'Z', number);
            let own = code_of(number, bound.code);
            let other = code_of(bound.group, bound.forbids);
            put_all(
                text,
                &[b"construct,", &id, b",", &own, b",-", &other, b",,\n"],
            )
        }
    }
}

fn put_position(text: &mut Text, number: u32) -> Result<(), Memory>
    ensures { OnOk result (text.new ≡ text.old ++ position_line number) }
{
    let id = name(b'P', number);
    put_all(text, &[b"position,", &id, b",M,mandatory,,\n"])
}

fn put_variant(text: &mut Text, number: u32, code: u32, choice: Choice) -> Result<(), Memory>
    requires small { number ≤ 1000 }
    requires code { code ≤ 3 }
    ensures { OnOk result (text.new ≡ text.old ++ variant_line number code choice) }
{
    let id = name(b'V', 4 * number + code);
    let position = name(b'P', number);
    let part = name(b'A', 4 * number + code);
    let mut digits = Buffer::new();
    let quantity = digits.format(choice.quantity).as_bytes();
    put_all(
        text,
        &[
            b"variant,",
            &id,
            b",",
            &position,
            b",",
            &part,
            b",",
            quantity,
            b",",
        ],
    )?;
    put_usage(text, 4 * number + code, choice.other)?;
    text.put(b",,\n")
}

// The formula of a variant, by the places of its own code and of the other.
fn put_usage(text: &mut Text, own: u32, other: Option<u32>) -> Result<(), Memory>
    ensures { OnOk result (text.new ≡ text.old ++ usage_text own other) }
{
    let own = name(b'K', own);
    match other {
        None => text.put(&own),
        Some(other) => {
            let other = name(b'K', other);
            put_all(text, &[&own, b"+", &other, b"/", &own, b"+-", &other])
        }
    }
}

// Puts the pieces one behind the other.
fn put_all(text: &mut Text, pieces: &[&[u8]]) -> Result<(), Memory>
    ensures { OnOk result (text.new ≡ text.old ++ flat_map (λ piece. piece.now) pieces.now) }
{
    for piece in pieces {
        text.put(piece)?;
    }
    Ok(())
}
