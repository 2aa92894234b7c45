//! How long a caller may take. The times are bounds on one connection, so that a silent or slow caller ends its own
//! connection and no other.

ghost use Rattle.std.specs.Prelude.{◌≡◌, ◌≢◌, ◌++◌, false, true};
ghost use Rattle.pb_outside.specs.Sink.{TakesFront, TakesPiece};

use crate::write_both::WriteBoth;
use pb_outside::behind;
use std::io::Read;
use std::net::{Shutdown, TcpStream};
use std::time::{Clock, Duration, Instant};

// How long one read or one write waits at most, in seconds.
const LONGEST_WAIT: u64 = 30;

// How long the head and the body of a message may take, in seconds, from the second read of it on.
const LONGEST_MESSAGE: u64 = 120;

// How long a response may take, in seconds, if it has more bytes than a part.
const LONGEST_RESPONSE: u64 = 900;

// How many bytes are written between two looks at the clock.
const PART: usize = 65_536;

// How long a connection is read on when it ends, in seconds, and how long each of these reads waits, in milliseconds.
const LONGEST_CLOSE: u64 = 5;

const LONGEST_CLOSING_READ: u64 = 1_000;

// How many bytes are read on at most, 8 MiB, and by one read.
const MOST_CLOSING_BYTES: usize = 8_388_608;

const CHUNK: usize = 8_192;

/// How far the message is that is being read.
#[derive(Clone, Copy)]
pub(crate) enum Progress {
    /// Nothing of it was read.
    Awaited,
    /// It was read once.
    Begun,
    /// It was read once before this time.
    Since(Instant),
}

/// Bounds each wait for the peer. Where a bound can't be set the connection is without it.
pub(crate) fn bound_waits(stream: &TcpStream) {
    let wait = Some(Duration::from_secs(LONGEST_WAIT));
    let _read = stream.set_read_timeout(wait);
    let _write = stream.set_write_timeout(wait);
}

/// How far a message is before it is read further. The first read of a message needs no clock.
pub(crate) fn before_read<C: Clock>(clock: &C, progress: Progress) -> Progress
    ensures first { progress ≡ Progress.Awaited → result ≡ Progress.Awaited }
    ensures second { progress ≡ Progress.Begun → result ≢ Progress.Awaited }
    ensures later { (begin : Instant) → progress ≡ Progress.Since begin → result ≡ Progress.Since begin }
{
    match progress {
        Progress::Begun => match Instant::now(clock) {
            Ok(now) => Progress::Since(now),
            Err(_) => Progress::Begun,
        },
        other => other,
    }
}

/// Whether a message has taken too long. A clock that can't be read says no; each wait is bounded all the same.
pub(crate) fn is_late<C: Clock>(clock: &C, progress: Progress) -> bool
    ensures first { progress ≡ Progress.Awaited → result ≡ false }
    ensures second { progress ≡ Progress.Begun → result ≡ false }
{
    match progress {
        Progress::Since(begin) => took(clock, begin, LONGEST_MESSAGE),
        Progress::Awaited | Progress::Begun => false,
    }
}

// Whether more than so many seconds have passed.
fn took<C: Clock>(clock: &C, begin: Instant, seconds: u64) -> bool {
    match begin.elapsed(clock) {
        Ok(time) => time > Duration::from_secs(seconds),
        Err(_) => false,
    }
}

/// Writes two pieces whole, one behind the other, the first with what fits beside it of the second by one call of the
/// system. The first is short, as the head of a response. False where the stream refused a part, or where it took too long.
#[tactic(auto, using(crate::proofs::WholeLaws::parts_taken, crate::proofs::WholeLaws::front_cut, crate::proofs::WholeLaws::behind_cut))]
pub(crate) fn write_whole<S: WriteBoth, C: Clock>(
    stream: &mut S,
    clock: &C,
    first: &[u8],
    second: &[u8],
) -> bool
    ensures whole { let piece = first.now ++ second.now in
        result ≡ true → TakesPiece piece (S.contents stream.old) (S.contents stream.new) }
    ensures cut { let piece = first.now ++ second.now in
        result ≡ false → TakesFront piece (S.contents stream.old) (S.contents stream.new) }
{
    let (front, rest) = second.split_at(second.len().min(PART));
    if rest.is_empty() {
        return write_parts(stream, first, second);
    }
    let Ok(begin) = Instant::now(clock) else {
        return write_parts(stream, first, second);
    };
    if !write_parts(stream, first, front) {
        return false;
    }
    write_rest(stream, clock, begin, rest)
}

// Writes the parts of a response behind its first, with a look at the clock before each.
#[tactic(auto, using(crate::proofs::WholeLaws::rest_taken, crate::proofs::WholeLaws::part_cut, crate::proofs::WholeLaws::none_cut, crate::proofs::WholeLaws::all_taken))]
fn write_rest<S: WriteBoth, C: Clock>(
    stream: &mut S,
    clock: &C,
    begin: Instant,
    rest: &[u8],
) -> bool
    ensures whole { result ≡ true → TakesPiece rest.now (S.contents stream.old) (S.contents stream.new) }
    ensures cut { result ≡ false → TakesFront rest.now (S.contents stream.old) (S.contents stream.new) }
{
    let mut left = rest;
    while !left.is_empty() {
        let (part, further) = left.split_at(left.len().min(PART));
        if took(clock, begin, LONGEST_RESPONSE) {
            return false;
        }
        if !write_parts(stream, &[], part) {
            return false;
        }
        left = further;
    }
    true
}

// Writes two parts, one behind the other, without a look at the clock. False where the stream refused a byte.
#[tactic(auto, using(crate::proofs::WholeLaws::stopped, crate::proofs::WholeLaws::failed, crate::proofs::WholeLaws::all_taken))]
fn write_parts<S: WriteBoth>(stream: &mut S, first: &[u8], second: &[u8]) -> bool
    ensures whole { let piece = first.now ++ second.now in
        result ≡ true → TakesPiece piece (S.contents stream.old) (S.contents stream.new) }
    ensures cut { let piece = first.now ++ second.now in
        result ≡ false → TakesFront piece (S.contents stream.old) (S.contents stream.new) }
{
    let (mut front, mut rest) = (first, second);
    while !front.is_empty() || !rest.is_empty() {
        match stream.write_both(front, rest) {
            Ok(0) => return false,
            Ok(count) => (front, rest) = behind(front, rest, count),
            Err(_) => return false,
        }
    }
    true
}

/// Ends a connection so that the peer gets all that was written. What the peer has sent and nobody has read would else
/// make the system reset the connection, and the peer lose what was written last. So this reads on, until the peer ends
/// its side, has sent too much, takes too long, or sends nothing for a second.
pub(crate) fn end_connection<C: Clock>(mut stream: TcpStream, clock: &C) {
    let wait = Some(Duration::from_millis(LONGEST_CLOSING_READ));
    if stream.shutdown(Shutdown::Write).is_ok() && stream.set_read_timeout(wait).is_ok() {
        read_on(&mut stream, clock);
    }
}

// Reads what still comes, up to a number of bytes and a time.
fn read_on<C: Clock>(stream: &mut TcpStream, clock: &C) {
    let Ok(begin) = Instant::now(clock) else {
        return;
    };
    let mut chunk = [0; CHUNK];
    let mut left = MOST_CLOSING_BYTES;
    for _ in 0..MOST_CLOSING_BYTES {
        match stream.read(&mut chunk) {
            Ok(0) => return,
            Ok(count) => left = left.saturating_sub(count),
            Err(_) => return,
        }
        if left == 0 || took(clock, begin, LONGEST_CLOSE) {
            return;
        }
    }
}
