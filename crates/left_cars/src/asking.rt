//! A solver over the cars of a day that have the chosen codes.
ghost use Rattle.std.specs.Prelude.{◌≡◌, ◌<◌, All, IfOk, OnOk, length, map};
ghost use Rattle.clausify.specs.Encoding.{EncodesItems};
ghost use Rattle.item_search.specs.Search.{IsOver};
ghost use Rattle.left_cars.specs.Left.{AreChosen, chosen_item, left_items};

use book_model::Book;
use clause_pool::Lit;
use clausify::{Encoder, add_rules};
use item_search::solver_over;
use pb_base::{Day, Memory};
use solver::Solver;
use std::alloc::Global;

/// A solver over the rules of a day and the chosen codes.
pub(crate) fn begin(alloc: Global, book: &Book, day: Day, chosen: &[u32]) -> Result<Solver, Memory>
    requires { AreChosen book.now chosen.now }
    ensures { IfOk result (IsOver (length book.now.codes) (left_items book.now day chosen.now)) }
{
    let mut encoder = Encoder::new(alloc, book.codes().len())?;
    let mut starts = Vec::new(alloc);
    add_rules(&mut encoder, &mut starts, book, day)?;
    add_chosen(&mut encoder, chosen)?;
    solver_over(alloc, encoder)
}

// Each of these codes is present.
#[tactic(auto, using(crate::proofs::LeftLaws::chosen_step))]
fn add_chosen(encoder: &mut Encoder, chosen: &[u32]) -> Result<(), Memory>
    ensures { OnOk result (EncodesItems encoder.old encoder.new (map chosen_item chosen.now)) }
{
    for place in chosen {
        encoder.clause(&[Lit::new(*place, true)])?;
    }
    Ok(())
}
