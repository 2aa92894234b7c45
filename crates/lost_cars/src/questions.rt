//! All questions on the cars of a book that another may lose.
ghost use Rattle.std.specs.Prelude.{◌≡◌, ◌++◌, ◌<◌, ◌^◌, IfOk, OnOk, length, map};
ghost use Rattle.std.specs.List.{range_with_len};
ghost use Rattle.lost_cars.specs.Losses.{questions};
ghost use Rattle.lost_cars.specs.declared.question.Question.TheVariants as kind;

use crate::question::Question;
use book_model::Book;
use pb_base::Memory;
use std::alloc::Global;

/// The other book's supplementing rules, its constructibility rules, and the own book's codes, in record order.
#[tactic(auto, using(crate::proofs::AskLaws::questions_put))]
pub(crate) fn questions(alloc: Global, own: &Book, other: &Book) -> Result<Vec<Question>, Memory>
    ensures { IfOk result (λ qs. qs.items ≡ questions own.now other.now) }
{
    let codes = own.codes().len();
    let _others = other.codes();
    let mut questions = Vec::new(alloc);
    put_firing(&mut questions, other.supplements().len() as u32)?;
    put_breaking(&mut questions, other.constructs().len() as u32)?;
    put_lacking(&mut questions, codes)?;
    Ok(questions)
}

fn put_firing(questions: &mut Vec<Question>, count: u32) -> Result<(), Memory>
    ensures { OnOk result (questions.new.items
        ≡ questions.old.items ++ map (λ p. kind.Fires p) (range_with_len 0 count)) }
{
    for place in 0..count {
        questions.push(Question::Fires(place))?;
    }
    Ok(())
}

fn put_breaking(questions: &mut Vec<Question>, count: u32) -> Result<(), Memory>
    ensures { OnOk result (questions.new.items
        ≡ questions.old.items ++ map (λ p. kind.Breaks p) (range_with_len 0 count)) }
{
    for place in 0..count {
        questions.push(Question::Breaks(place))?;
    }
    Ok(())
}

fn put_lacking(questions: &mut Vec<Question>, count: u32) -> Result<(), Memory>
    ensures { OnOk result (questions.new.items
        ≡ questions.old.items ++ map (λ p. kind.Lacks p) (range_with_len 0 count)) }
{
    for place in 0..count {
        questions.push(Question::Lacks(place))?;
    }
    Ok(())
}
