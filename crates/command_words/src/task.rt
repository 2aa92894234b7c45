//! What the words of a command line can ask for.

use crate::budget::Budget;
use crate::file_name::FileName;
use crate::impact::Impact;
use crate::rejudging::Rejudging;
use crate::rule_word::RuleWord;
use crate::sample_size::SampleSize;
use crate::service::Service;
use crate::workers::Workers;
use pb_base::{CodeList, Day};

/// What the words of a command line ask for.
#[derive(Drop)]
pub enum Task {
    /// An answer to the book that is read.
    Book(BookCommand),
    /// The order desk over the rows that this store keeps. It answers the messages that are read.
    Desk { store: FileName },
    /// The order desk at a port of the machine.
    Serve(Service),
    /// The orders that a store keeps, judged again by one of its books.
    Rejudge(Rejudging),
    /// The orders that a store keeps, judged again by the book that a file is, before it is released.
    Impact(Impact),
    /// The release of a generated book, and what its orders come to.
    Sample(SampleSize),
}

/// What is asked of the book that is read.
#[derive(Drop)]
pub enum BookCommand {
    /// What the order of these codes on this day comes to.
    Order {
        day: Day,
        codes: CodeList,
    },
    /// What can still be chosen on this day beside these codes, with this budget for each search.
    Free {
        day: Day,
        codes: CodeList,
        budget: Budget,
    },
    /// What the order of these codes on this day comes to, and how it would be accepted, with this budget for each search.
    Why {
        day: Day,
        codes: CodeList,
        budget: Budget,
    },
    /// Whether a car of this day meets the rule, and what is to blame if none does, with this budget for each search.
    Ask {
        day: Day,
        rule: RuleWord,
        budget: Budget,
    },
    /// What is wrong with the book, by all questions, each with this budget, by so many workers.
    Check {
        budget: Budget,
        workers: Workers,
    },
    /// A certificate that nothing keeps the book from its release, or what does, with this budget for each question, by so many
    /// workers.
    Prove {
        budget: Budget,
        workers: Workers,
    },
    /// Whether the certificate in this file shows that the book can be released.
    Verify {
        file: FileName,
    },
    /// What the supplementing rules of the book do, with this budget for each question, by so many workers.
    Supplements {
        budget: Budget,
        workers: Workers,
    },
    /// What changes on this day from the book to the one in this file, with this budget for each question, by so many workers.
    Compare {
        day: Day,
        file: FileName,
        budget: Budget,
        workers: Workers,
    },
    /// What the order of these codes comes to on every day of the book's term.
    Days {
        codes: CodeList,
    },
    /// Whether the cars of the book keep the requirements in this file, with this budget for each question, by so many workers.
    Require {
        file: FileName,
        budget: Budget,
        workers: Workers,
    },
    /// What changes on all days from the book to the one in this file, with this budget for each question, by so many workers.
    Changes {
        file: FileName,
        budget: Budget,
        workers: Workers,
    },
}
