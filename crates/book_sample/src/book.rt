//! The generated book.
ghost use Rattle.std.specs.Prelude.{◌≡◌, ◌++◌, ◌≤◌, IfOk, OnOk};
ghost use Rattle.book_sample.specs.Groups.{groups};
ghost use Rattle.book_sample.specs.Law.{MaySample};
ghost use Rattle.book_sample.specs.Lines.{codes_text, groups_text, sample_text};

use crate::draws::Draws;
use crate::group::draw_group;
use crate::lines::{put_code, put_group, put_heading, put_module};
use pb_base::{Body, Memory, Text};
use std::alloc::Global;

/// The text of the generated book with so many codes, which `start` tells from others. See the README.
pub fn sample_book(alloc: Global, start: u32, codes: u32) -> Result<Body, Memory>
    requires { MaySample codes }
    ensures { IfOk result (λ text. text ≡ sample_text start codes) }
{
    let mut text = Text::new(alloc);
    put_heading(&mut text)?;
    put_codes(&mut text, codes)?;
    put_module(&mut text)?;
    put_groups(&mut text, start, codes / 4)?;
    Ok(text.into_body())
}

fn put_codes(text: &mut Text, codes: u32) -> Result<(), Memory>
    ensures { OnOk result (text.new ≡ text.old ++ codes_text codes 0) }
{
    for number in 0..codes {
        put_code(text, number)?;
    }
    Ok(())
}

fn put_groups(text: &mut Text, start: u32, count: u32) -> Result<(), Memory>
    requires { count ≤ 500 }
    ensures { OnOk result (text.new ≡ text.old ++ groups_text 0 (groups count 0 start)) }
{
    let mut draws = Draws::from(start);
    for number in 0..count {
        let group = draw_group(&mut draws, number);
        put_group(text, number, &group)?;
    }
    Ok(())
}
