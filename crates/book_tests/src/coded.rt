//! The clauses of the worked book, and slices at the limit of questions.
use book_model::Book;
use book_text::read_book;
use clausify::clauses_of;
use pb_base::{Fail as Refusal, Memory, Text};
use std::alloc::Global;
use std::test::Fail;

// A book of two engines and two gears. An engine that is ordered brings the gears that fit it.
const ENGINE: &[u8] = b"book,T,1,1000\n\
code,M1,engine one\n\
code,M2,engine two\n\
code,G5,five gears\n\
code,G7,seven gears\n\
code,AC,air\n\
construct,C1,*,M1/M2,,\n\
construct,C2,M1,-M2,,\n\
construct,C3,*,G5/G7,,\n\
construct,C4,G5,-G7,,\n\
supplement,S1,10,G5,M1+-G7,,\n\
module,MOT,motor\n\
position,P1,MOT,mandatory,,\n\
variant,V1,P1,A100,1,M1,,\n\
variant,V2,P1,A200,1,M2,,";

/// The book of a text that says one.
pub(crate) fn book_of(alloc: Global, text: &[u8]) -> Result<Book, Fail> {
    let Ok(book) = read_book(alloc, text) else {
        return Err(Fail::from("no book"));
    };
    Ok(book)
}

// How many clauses, variables and questions the slice of a book has, or the number of questions for which it is refused.
fn counts(alloc: Global, book: &Book) -> Result<Result<[usize; 3], u64>, Memory> {
    match clauses_of(alloc, book, &book.term()) {
        Ok(coded) => Ok(Ok([coded.pool.len(), coded.vars as usize, coded.questions.len()])),
        Err(Refusal::Refused(count)) => Ok(Err(count)),
        Err(Refusal::Memory) => Err(Memory),
    }
}

// The same of a book's text.
fn counts_of(alloc: Global, text: &[u8]) -> Result<Result<[usize; 3], u64>, Fail> {
    let book = book_of(alloc, text)?;
    Ok(counts(alloc, &book)?)
}

#[test]
fn the_clauses_of_the_worked_book(rt: HostRuntime) -> Result<(), Fail> {
    let counted = counts_of(rt.alloc(), ENGINE)?;
    assert!(rt; counted == Ok([21, 11, 15]));
    Ok(())
}

// Whether the position of a letter is mandatory, and how many variants it has.
fn position_of(letter: u8) -> (bool, u32) {
    match letter {
        b'F' => (true, 200),
        b'M' => (true, 173),
        b'E' => (true, 8),
        _ => (false, 1),
    }
}

fn put_variant(text: &mut Text, place: u64, variant: u32) -> Result<(), Memory> {
    text.put(b"variant,P")?;
    text.put_number(place)?;
    text.put(b"V")?;
    text.put_number(u64::from(variant))?;
    text.put(b",P")?;
    text.put_number(place)?;
    text.put(b",X,1,K0,,\n")
}

fn put_position(text: &mut Text, place: u64, letter: u8) -> Result<(), Memory> {
    let (mandatory, variants) = position_of(letter);
    text.put(b"position,P")?;
    text.put_number(place)?;
    text.put(if mandatory {
        b",,mandatory,,\n"
    } else {
        b",,optional,,\n"
    })?;
    for variant in 0..variants {
        put_variant(text, place, variant)?;
    }
    Ok(())
}

// A book of 2,000 codes, with a position for each letter.
fn put_book(text: &mut Text, positions: &[u8]) -> Result<(), Memory> {
    text.put(b"book,L,1,9\n")?;
    for code in 0..2_000u32 {
        text.put(b"code,K")?;
        text.put_number(u64::from(code))?;
        text.put(b",\n")?;
    }
    for (place, letter) in positions.iter().enumerate() {
        put_position(text, place as u64, *letter)?;
    }
    Ok(())
}

// How many questions the slice of such a book has, and whether it is refused for them.
fn questions_of(alloc: Global, positions: &[u8]) -> Result<Result<usize, u64>, Fail> {
    let mut text = Text::new(alloc);
    put_book(&mut text, positions)?;
    let counted = counts_of(alloc, text.bytes())?;
    Ok(counted.map(|[_, _, questions]| questions))
}

// 4,001 questions of the codes, 9 times 20,101 of positions of 200 variants, and then 15,052, 37 and 1 each.
#[test]
fn slices_of_more_than_200000_questions_are_refused(rt: HostRuntime) -> Result<(), Fail> {
    let refused = questions_of(rt.alloc(), b"FFFFFFFFFMEoo")?;
    assert!(rt; refused == Err(200_001));
    let coded = questions_of(rt.alloc(), b"FFFFFFFFFMEo")?;
    assert!(rt; coded == Ok(200_000));
    Ok(())
}
