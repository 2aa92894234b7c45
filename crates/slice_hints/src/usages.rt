//! The questions of single variants, and which variables their formulas have.
use book_model::Book;
use clausify::{Asked, Layout, Question};
use pb_base::Memory;
use std::alloc::Global;

/// Variables from one on and before another.
#[derive(Clone, Copy)]
pub(crate) struct Span {
    pub(crate) from: u32,
    pub(crate) until: u32,
}

/// The questions of single variants of a slice.
#[derive(Drop)]
pub struct Usages {
    /// The questions, in order.
    pub(crate) asked: Vec<Asked>,
    // By variant, the variables of its formula.
    spans: Vec<Option<Span>>,
}

impl Usages {
    /// Those among the questions of a slice of this layout.
    pub fn of(
        alloc: Global,
        book: &Book,
        questions: &[Asked],
        layout: &Layout,
    ) -> Result<Usages, Memory> {
        let mut asked = Vec::new(alloc);
        for one in questions {
            if let Question::Superfluous(_) = one.question {
                asked.push(*one)?;
            }
        }
        let spans = spans_of(alloc, book, &asked, layout)?;
        Ok(Usages { asked, spans })
    }

    /// The variables of a variant's formula, if it has any.
    pub(crate) fn span(&self, variant: u32) -> Option<Span> {
        match self.spans.get(variant as usize) {
            Some(span) => *span,
            None => None,
        }
    }
}

// The variables of each variant's formula. Usages are the last records of a layout, in the order of their questions.
fn spans_of(
    alloc: Global,
    book: &Book,
    usages: &[Asked],
    layout: &Layout,
) -> Result<Vec<Option<Span>>, Memory> {
    let mut spans = vec![in alloc; None; book.variants().len()]?;
    let rules = layout.starts.len().saturating_sub(usages.len());
    for (number, usage) in usages.iter().enumerate() {
        let Question::Superfluous(variant) = usage.question else {
            continue;
        };
        if let Some(entry) = spans.get_mut(variant as usize) {
            *entry = span_of(layout, rules.saturating_add(number));
        }
    }
    Ok(spans)
}

// The variables of the record whose start has this place.
fn span_of(layout: &Layout, place: usize) -> Option<Span> {
    let start = layout.starts.get(place)?;
    let end = layout
        .starts
        .get(place.saturating_add(1))
        .unwrap_or(&layout.goals);
    Some(Span {
        from: start.var,
        until: end.var,
    })
}
