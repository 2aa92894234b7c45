//! What the orders of a generated book come to, counted.
ghost use Rattle.std.specs.Prelude.{◌≡◌, ◌+◌, ◌++◌, ◌<◌, Ok, OnOk};
ghost use Rattle.release.specs.Judged.{as_outcome};
ghost use Rattle.book_commands.specs.Sample.{counted, lines_in, nothing_counted, tally_text};

use pb_base::{Memory, Text, put_number};
use release::Judged;

/// How many orders are accepted and refused, and how many lines the parts lists of the accepted ones have.
#[derive(Clone, Copy, Debug)]
pub struct Tally {
    pub accepted: u32,
    pub refused: u32,
    pub parts: u64,
}

impl Tally {
    /// No order.
    pub fn none() -> Tally
        ensures { result ≡ nothing_counted }
    {
        Tally {
            accepted: 0,
            refused: 0,
            parts: 0,
        }
    }

    /// With one more order.
    pub fn with(self, judged: &Judged) -> Tally
        requires orders { self.accepted + self.refused < 4294967295 }
        requires parts { self.parts + lines_in judged.now < 18446744073709551616 }
        ensures { result ≡ counted self (Ok (as_outcome judged.now)) }
    {
        match judged {
            Judged::Accepted { set: _, list } => Tally {
                accepted: self.accepted + 1,
                refused: self.refused,
                parts: self.parts + list.as_slice().len() as u64,
            },
            Judged::Refused(_) => Tally {
                accepted: self.accepted,
                refused: self.refused + 1,
                parts: self.parts,
            },
        }
    }
}

/// `accepted A refused R parts N`.
pub fn put_tally(text: &mut Text, tally: Tally) -> Result<(), Memory>
    ensures { OnOk result (text.new ≡ text.old ++ tally_text tally) }
{
    text.put(b"accepted")?;
    put_number(text, u64::from(tally.accepted))?;
    text.put(b" refused")?;
    put_number(text, u64::from(tally.refused))?;
    text.put(b" parts")?;
    put_number(text, tally.parts)?;
    text.put(b"\n")
}
