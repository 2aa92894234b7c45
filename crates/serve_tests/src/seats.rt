//! Threads that take seats in one hall, and the replies of calls in their order.
ghost use Rattle.std.specs.Prelude.{◌≡◌, ◌+◌, ℕ, ◌≤◌, ◌<◌, All, IfSome, None, Some, length, slice_index_or};

use std::hint::spin_loop;
use std::process::Abort;
use std::sync::Wait;
use std::thread::Threads;
use std::{mem, thread};
use turn_book::{Machine, Pass, TurnBook};

const SEATS: u32 = 1000;

const CALLS: usize = 60;

const LIMIT: u64 = 1000;

// Seats are given out in order, as many together as are asked for, while there are enough.
#[derive(Drop)]
struct Hall {
    taken: u32,
}

impl Machine for Hall {
    type Call = u32;

    type Reply = Option<u32>;

    ghost use Rattle.std.specs.Prelude.{◌≡◌, ◌+◌, ◌≤◌, ◌<◌, MatchOption, None, Some};
    ghost use Rattle.std.proofs.Common.{arith, subst, sym};

    ghost valid = { λ hall. hall.taken ≤ 1000 };

    ghost fits = { λ hall wanted. 1 ≤ wanted };

    ghost legal = { λ hall wanted reply after. MatchOption reply
        ((1000 < hall.taken + wanted) × (after.taken ≡ hall.taken))
        (λ first. (first ≡ hall.taken) × (after.taken ≡ hall.taken + wanted) × (after.taken ≤ 1000)) };

    fn step(&mut self, wanted: u32) -> Option<u32> {
        linger();
        if SEATS - self.taken < wanted {
            return None;
        }
        let first = self.taken;
        self.taken += wanted;
        Some(first)
    }

    ghost stays_valid = { λ x c r y v f l. elim r as (λ s. MatchOption s
        ((1000 < x.taken + c) × (y.taken ≡ x.taken))
        (λ n. (n ≡ x.taken) × (y.taken ≡ x.taken + c) × (y.taken ≤ 1000)) → y.taken ≤ 1000)
        [ None ↦ λ h. Prim.omega (arith, h.1, v) | Some n ↦ λ h. h.2 ] l };

    ghost stays_fitting = { λ x c r y d v f l g. g };
}

// Takes so long that those who wait for their turn sleep. It doesn't let others run, since on a busy machine that takes
// milliseconds each time.
fn linger() {
    for _ in 0..20_000 {
        spin_loop();
    }
}

// Who takes seats in a thread of its own. Its pass is away only within a call.
struct Worker {
    pass: Option<Pass<Hall>>,
    firsts: [u32; CALLS],
}

fn with_pass(pass: Pass<Hall>) -> Worker
    ensures { result.pass ≡ Some pass }
{
    Worker {
        pass: Some(pass),
        firsts: [SEATS; CALLS],
    }
}

// How many seats call number `i` asks for: 1, 2 or 3.
fn wanted(i: usize) -> u32
    ensures { (1 ≤ result) × (result ≤ 3) }
{
    (i % 3) as u32 + 1
}

fn take_seats<R: Wait>(
    rt: &R,
    book: &TurnBook<Hall>,
    mut pass: Pass<Hall>,
    firsts: &mut [u32; CALLS],
) -> Pass<Hall>
    requires book { pass.table ≡ book.now.table }
    requires left { 60 ≤ pass.left }
    ensures book { result.table ≡ book.now.table }
{
    for i in 0..CALLS {
        let (reply, next) = book.call(rt, pass, wanted(i));
        pass = next;
        if let Some(first) = reply {
            firsts[i] = first;
        }
    }
    pass
}

fn work<R: Wait>(rt: &R, book: &TurnBook<Hall>, worker: &mut Worker)
    requires { IfSome worker.old.pass (λ p. (p.table ≡ book.now.table) × (60 ≤ p.left)) }
    ensures { IfSome worker.new.pass (λ p. p.table ≡ book.now.table) }
{
    match mem::replace(&mut worker.pass, None) {
        Some(pass) => {
            let pass = take_seats(rt, book, pass, &mut worker.firsts);
            gone(mem::replace(&mut worker.pass, Some(pass)));
        }
        None => {}
    }
}

// Where a pass was before it was taken out.
fn gone(held: Option<Pass<Hall>>)
    requires { held ≡ None }
{
    match held {
        Some(_pass) => unreachable!(),
        None => {}
    }
}

fn work_all<R: Threads + Wait + Sync>(rt: &R, book: &TurnBook<Hall>, workers: &mut [Worker])
    requires { All (λ w. IfSome w.pass (λ p. (p.table ≡ book.now.table) × (60 ≤ p.left))) workers.old }
    ensures { (i : ℕ) (d : _) → i < length workers.old
        → IfSome (slice_index_or workers.new i d).pass (λ p. p.table ≡ book.now.table) }
{
    thread::for_each_mut(rt, workers, 4, &|_, worker| work(rt, book, worker));
}

// Marks the seats of one worker, of which none was given before.
fn mark(rt: &impl Abort, firsts: &[u32; CALLS], seats: &mut [bool; 480]) {
    for i in 0..CALLS {
        let first = firsts[i] as usize;
        let end = first + wanted(i) as usize;
        assert!(rt; end <= 480, "seat {first} of call {i}");
        for seat in first..end {
            assert!(rt; !seats[seat], "seat {seat} was given twice");
            seats[seat] = true;
        }
    }
}

// The pass that is left of this one and of the worker's, and the first seats that the worker was given.
fn joined<R: Abort>(
    rt: &R,
    book: &TurnBook<Hall>,
    all: Pass<Hall>,
    worker: Worker,
) -> (Pass<Hall>, [u32; CALLS])
    requires all { all.table ≡ book.now.table }
    requires worker { IfSome worker.pass (λ p. p.table ≡ book.now.table) }
    ensures { result.0.table ≡ book.now.table }
{
    let Worker { pass, firsts } = worker;
    match pass {
        Some(pass) => (book.join(all, pass), firsts),
        None => panic!(rt; "the worker gave its pass back"),
    }
}

// The pass without the calls of a worker, and the worker.
fn hired(book: &TurnBook<Hall>, pass: Pass<Hall>) -> (Pass<Hall>, Worker)
    requires book { pass.table ≡ book.now.table }
    requires left { 60 ≤ pass.left }
    ensures book { result.0.table ≡ book.now.table }
    ensures left { result.0.left + 60 ≡ pass.left }
    ensures worker { IfSome result.1.pass (λ p. (p.table ≡ book.now.table) × (60 ≤ p.left)) }
{
    let (pass, own) = book.split(pass, 60);
    (pass, with_pass(own))
}

// Four workers take their seats, and give their passes back.
fn taken_by_four<R: Threads + Wait + Sync + Abort>(
    rt: &R,
    book: &TurnBook<Hall>,
    pass: Pass<Hall>,
) -> (Pass<Hall>, [[u32; CALLS]; 4])
    requires book { pass.table ≡ book.now.table }
    requires left { 240 ≤ pass.left }
    ensures { result.0.table ≡ book.now.table }
{
    let (pass, a) = hired(book, pass);
    let (pass, b) = hired(book, pass);
    let (pass, c) = hired(book, pass);
    let (pass, d) = hired(book, pass);
    let mut workers = [a, b, c, d];
    work_all(rt, book, &mut workers);
    let [a, b, c, d] = workers;
    let (pass, a) = joined(rt, book, pass, a);
    let (pass, b) = joined(rt, book, pass, b);
    let (pass, c) = joined(rt, book, pass, c);
    let (pass, d) = joined(rt, book, pass, d);
    (pass, [a, b, c, d])
}

#[test]
fn each_seat_is_given_once_to_four_threads(rt: HostRuntime) {
    let Ok((book, pass)) = TurnBook::new(rt.alloc(), Hall { taken: 0 }, LIMIT) else {
        panic!(rt; "memory")
    };
    let (pass, taken) = taken_by_four(&rt, &book, pass);
    assert!(rt; pass.left() == 760 && pass.made() == 240);
    let hall = book.close(pass);
    assert_eq!(rt; hall.taken, 480);
    let mut seats = [false; 480];
    for firsts in &taken {
        mark(&rt, firsts, &mut seats);
    }
    assert!(rt; seats.iter().all(|given| *given));
}

// The replies of four calls by two passes, in the order of the calls, and the pass of both.
fn called_by_two<R: Wait>(
    rt: &R,
    book: &TurnBook<Hall>,
    pass: Pass<Hall>,
) -> ([Option<u32>; 4], Pass<Hall>)
    requires book { pass.table ≡ book.now.table }
    requires left { pass.left ≡ 6 }
    ensures { result.1.table ≡ book.now.table }
{
    let (first, second) = book.split(pass, 2);
    let (given, first) = book.call(rt, first, 3);
    let (refused, second) = book.call(rt, second, 998);
    let (rest, second) = book.call(rt, second, 997);
    let pass = book.join(first, second);
    let (none, pass) = book.call(rt, pass, 1);
    ([given, refused, rest, none], pass)
}

#[test]
fn replies_come_in_the_order_of_the_calls(rt: HostRuntime) {
    let Ok((book, pass)) = TurnBook::new(rt.alloc(), Hall { taken: 0 }, 6) else {
        panic!(rt; "memory")
    };
    let (replies, pass) = called_by_two(&rt, &book, pass);
    assert!(rt; pass.left() == 2 && pass.made() == 4);
    let hall = book.close(pass);
    assert_eq!(rt; hall.taken, 1000);
    assert_eq!(rt; replies, [Some(0), None, Some(3), None]);
}
