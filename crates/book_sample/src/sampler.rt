//! The orders of the generated book.
ghost use Rattle.std.specs.Prelude.{◌≡◌, ◌/◌, ◌≤◌, IfOk, OnOk, OnErr};
ghost use Rattle.book_sample.specs.Groups.{behind_groups};
ghost use Rattle.book_sample.specs.Law.{MaySample};
ghost use Rattle.book_sample.specs.Names.{code_name, place};
ghost use Rattle.book_sample.specs.Orders.{order_at, behind_order, picks, behind_picks};

use crate::draws::Draws;
use crate::group::draw_group;
use crate::names::code_of;
use desk_words::OrderWords;
use pb_base::{CodeList, CodeName, Memory};
use std::alloc::Global;
use std::marker::Model;

/// The orders of a generated book, one after the other without end. A contract sees the number of groups in each, and the state of the draws.
#[derive(Clone, Copy)]
pub struct Sampler {
    groups: u32,
    draws: Draws,
}

impl Model for Sampler {
    ghost use Rattle.std.specs.Prelude.{◌≤◌};
    ghost use Rattle.book_sample.specs.Orders.{Stream};

    ghost Value = { Stream };

    ghost view = { λ s. record { groups = s.groups; state = s.draws } };

    ghost invariant = { λ s. s.groups ≤ 500 };

    ghost inverse = { λ s. record { groups = s.groups; draws = s.state } };
}

impl Sampler {
    /// The orders of the generated book of `start` and so many codes: their draws follow those of the book.
    pub fn after_book(start: u32, codes: u32) -> Sampler
        requires { MaySample codes }
        ensures { result ≡ record { groups = codes / 4; state = behind_groups (codes / 4) 0 start } }
    {
        let groups = codes / 4;
        let mut draws = Draws::from(start);
        for number in 0..groups {
            draw_group(&mut draws, number);
        }
        Sampler { groups, draws }
    }

    /// The next order, of book 1. On want of memory none is taken.
    pub fn next_order(&mut self, alloc: Global) -> Result<OrderWords, Memory>
        ensures order { IfOk result (λ order. order ≡ order_at self.old.groups self.old.state) }
        ensures ok { let behind = behind_order self.old.groups self.old.state in
            OnOk result (self.new ≡ record { groups = self.old.groups; state = behind }) }
        ensures err { OnErr result (self.new ≡ self.old) }
    {
        let mut draws = self.draws;
        let day = 1 + draws.draw(1_000);
        let codes = draw_codes(alloc, &mut draws, self.groups)?;
        self.draws = draws;
        Ok(OrderWords {
            book: 1,
            day,
            codes,
        })
    }
}

// Of each group one of its codes, or none.
fn draw_codes(alloc: Global, draws: &mut Draws, groups: u32) -> Result<CodeList, Memory>
    requires { groups ≤ 500 }
    ensures codes { IfOk result (λ codes. codes ≡ picks groups 0 draws.old) }
    ensures state { OnOk result (draws.new ≡ behind_picks groups draws.old) }
{
    let mut codes = CodeList::new(alloc);
    for group in 0..groups {
        let code = draws.draw(5);
        if code < 4 {
            codes.push(code_name(group, code))?;
        }
    }
    Ok(codes)
}

fn code_name(group: u32, code: u32) -> CodeName
    requires group { group ≤ 500 }
    requires code { code ≤ 3 }
    ensures { result ≡ code_name (place group code) }
{
    match CodeName::of(&code_of(group, code)) {
        Some(name) => name,
        None => unreachable!(),
    }
}
