//! The limits of a book, of its checks and of the texts that are read.

use crate::day::Day;

/// The most bytes of a text that is read: a book, a command or a draft.
pub const MOST_TEXT_BYTES: usize = 1_048_576;

/// The most codes of a book.
pub const MOST_CODES: usize = 2_000;

/// The most supplementing rules of a book.
pub const MOST_SUPPLEMENTS: usize = 5_000;

/// The most constructibility rules of a book that are no groups.
pub const MOST_CONSTRUCTS: usize = 10_000;

/// The most groups of codes of a book.
pub const MOST_GROUPS: usize = 1_000;

/// The fewest codes of one group.
pub const LEAST_GROUP_CODES: usize = 2;

/// The most codes of one group.
pub const MOST_GROUP_CODES: usize = 64;

/// The most modules of a book.
pub const MOST_MODULES: usize = 1_000;

/// The most positions of a book.
pub const MOST_POSITIONS: usize = 5_000;

/// The most variants of a book.
pub const MOST_VARIANTS: usize = 20_000;

/// The most variants of one position.
pub const MOST_CHOICES: usize = 200;

/// The most codes, constants and connectives of one rule.
pub const MOST_NODES: usize = 512;

/// The deepest nesting of brackets and minus signs of one rule.
pub const MOST_NESTING: usize = 64;

/// The most slices of the term of a book.
pub const MOST_SLICES: usize = 64;

/// The most questions of one slice.
pub const MOST_QUESTIONS: usize = 200_000;

/// The most bytes of a certificate.
pub const MOST_CERT_BYTES: usize = 67_108_864;

/// The last production day that a book may name.
pub const LAST_DAY: Day = 99_999;

/// The most clauses that may be learnt for one question.
pub const MOST_BUDGET: u32 = 50_000;

/// The clauses that may be learnt for one question where nobody says how many.
pub const DEFAULT_BUDGET: u32 = 10_000;
