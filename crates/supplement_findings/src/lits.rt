//! The literals of a question.

use clause_pool::Lit;
use pb_base::Sequence;

/// The literals of the formulas that a question is about, and the codes that its rules add.
#[derive(Drop)]
pub enum QuestionLits {
    BreaksLits {
        /// The rule's formula.
        rule: Lit,
        added: u32,
        /// What each constructibility rule that the code touches asks of the set with the code.
        afterwards: Sequence<Lit>,
    },
    SwapsLits {
        first: Lit,
        first_added: u32,
        second: Lit,
        second_added: u32,
        /// The second rule's formula with the code of the first read as present.
        second_afterwards: Lit,
        /// The first rule's formula with the code of the second read as present.
        first_afterwards: Lit,
    },
}
