//! What is drawn for a group of four codes.
ghost use Rattle.std.specs.Prelude.{◌≡◌, ◌≤◌, ◌<◌};
ghost use Rattle.book_sample.specs.Groups.{bound_at, behind_bound, choice_at, behind_choice, group_at, behind_group};

use crate::draws::Draws;

/// A code of the group, counted from 0, and the code of an earlier group that it forbids.
#[derive(Clone, Copy)]
pub struct Bound {
    pub code: u32,
    pub group: u32,
    pub forbids: u32,
}

/// What is drawn for a variant: its quantity, and the place of the code that its formula speaks of besides its own.
#[derive(Clone, Copy)]
pub struct Choice {
    pub quantity: u32,
    pub other: Option<u32>,
}

/// A group: the code that its supplementing rule adds, counted from 0, and the rule's rank; and its variants.
#[derive(Clone, Copy)]
pub struct Group {
    pub adds: u32,
    pub rank: u32,
    pub bound: Option<Bound>,
    pub first: Choice,
    pub second: Choice,
    pub third: Choice,
    pub fourth: Choice,
}

/// Draws the group of this number, counted from 0.
pub fn draw_group(draws: &mut Draws, number: u32) -> Group
    requires { number ≤ 1000 }
    ensures group { result ≡ group_at number draws.old }
    ensures state { draws.new ≡ behind_group number draws.old }
{
    let adds = draws.draw(4);
    let rank = draws.draw(100);
    let bound = draw_bound(draws, number);
    let first = draw_choice(draws, number);
    let second = draw_choice(draws, number);
    let third = draw_choice(draws, number);
    let fourth = draw_choice(draws, number);
    Group {
        adds,
        rank,
        bound,
        first,
        second,
        third,
        fourth,
    }
}

// Every sixteenth group has a code that is bound.
fn draw_bound(draws: &mut Draws, number: u32) -> Option<Bound>
    ensures bound { result ≡ bound_at number draws.old }
    ensures state { draws.new ≡ behind_bound number draws.old }
{
    let rest = number % 16;
    if rest != 15 {
        return None;
    }
    let code = draws.draw(4);
    let group = draws.draw(number);
    let forbids = draws.draw(4);
    Some(Bound {
        code,
        group,
        forbids,
    })
}

// The first group has no codes before it.
fn draw_choice(draws: &mut Draws, number: u32) -> Choice
    requires { number ≤ 1000 }
    ensures choice { result ≡ choice_at number draws.old }
    ensures state { draws.new ≡ behind_choice number draws.old }
{
    let quantity = draws.draw(9) + 1;
    let other = if number == 0 {
        None
    } else {
        Some(draws.draw(4 * number))
    };
    Choice { quantity, other }
}
