//! The names of the generated book.
ghost use Rattle.std.specs.Prelude.{◌≡◌, ◌+◌, ◌%◌, ◌≤◌};
ghost use Rattle.book_sample.specs.Names.{name, code_name, place};

/// The bytes of a name.
pub type Name = [u8; 5];

/// A letter and a number in four digits; of a larger number its last four.
pub fn name(letter: u8, number: u32) -> Name
    ensures { result ≡ name letter number }
{
    [
        letter,
        digit(number / 1_000),
        digit(number / 100),
        digit(number / 10),
        digit(number),
    ]
}

/// The name of a code of a group, both counted from 0.
pub fn code_of(group: u32, code: u32) -> Name
    requires group { group ≤ 1000 }
    requires code { code ≤ 3 }
    ensures { result ≡ code_name (place group code) }
{
    name(b'K', 4 * group + code)
}

// The last digit of a number.
fn digit(number: u32) -> u8
    ensures { result ≡ 48 + number % 10 }
{
    b'0' + (number % 10) as u8
}
