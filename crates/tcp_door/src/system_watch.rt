//! A watch over the system: a file stops it, and it writes its counts to standard error.

use crate::watch::Watch;
use std::io::Eprint;
use std::sync::atomic::{AtomicU64, Ordering};
use std::time::{Clock, Duration, Instant};
use std::{eprintln, fs, io, rt};

/// Is stopped while a file of a given name is there. It says on standard error when the door listens, and from then on how
/// many connections, responses and orders there were, and how many steps are left at least.
#[derive(Drop)]
pub struct SystemWatch<'a, R: rt::Files + Clock + Eprint> {
    system: &'a R,
    stop: Option<String>,
    // How many seconds lie between two lines at least. It writes nothing where this is 0.
    interval: u64,
    begun: Option<Instant>,
    // How many steps those who answer may make in all.
    steps: u64,
    // How many seconds after `begun` the next line is due.
    due: AtomicU64,
    given: AtomicU64,
    ended: AtomicU64,
    failed: AtomicU64,
    refused: AtomicU64,
    answered: AtomicU64,
    orders: AtomicU64,
}

impl<'a, R: rt::Files + Clock + Eprint> SystemWatch<'a, R> {
    /// `stop` is the name of the file; where there is none, nothing stops it. `interval` is the least number of seconds
    /// between two lines on standard error; it writes none where this is 0. `steps` is how many steps those who answer may
    /// make in all, at most two for each response and for each connection that fails or is open.
    pub fn new(
        system: &'a R,
        stop: Option<String>,
        interval: u64,
        steps: u64,
    ) -> SystemWatch<'a, R> {
        SystemWatch {
            system,
            stop,
            interval,
            steps,
            begun: Instant::now(system).ok(),
            due: AtomicU64::new(interval),
            given: AtomicU64::new(0),
            ended: AtomicU64::new(0),
            failed: AtomicU64::new(0),
            refused: AtomicU64::new(0),
            answered: AtomicU64::new(0),
            orders: AtomicU64::new(0),
        }
    }

    /// How many orders were kept. The door doesn't know of orders, so who keeps them counts them here.
    pub fn orders(&self) -> &AtomicU64 {
        &self.orders
    }

    // Writes the counts if they are due. Only one port finds them due.
    fn tell_if_due(&self) {
        let (Some(begun), true) = (self.begun, self.interval > 0) else {
            return;
        };
        let Ok(time) = begun.elapsed(self.system) else {
            return;
        };
        let now = time.as_secs();
        let due = self.due.load(Ordering::SeqCst);
        let next = now.saturating_add(self.interval);
        if now >= due
            && self
                .due
                .compare_exchange(due, next, Ordering::SeqCst, Ordering::SeqCst)
                .is_ok()
        {
            self.tell();
        }
    }

    fn tell(&self) {
        let ended = self.ended.load(Ordering::SeqCst);
        let given = self.given.load(Ordering::SeqCst);
        let failed = self.failed.load(Ordering::SeqCst);
        let open = given.saturating_sub(ended);
        let answered = self.answered.load(Ordering::SeqCst);
        let asked = answered.saturating_add(failed).saturating_add(open);
        let _told = eprintln!(self.system;
            "links {} open {} failed {} refused {} requests {} orders {} steps {}",
            given,
            open,
            failed,
            self.refused.load(Ordering::SeqCst),
            answered,
            self.orders.load(Ordering::SeqCst),
            self.steps.saturating_sub(asked.saturating_mul(2))
        );
    }
}

impl<R: rt::Files + Clock + Eprint> Clock for SystemWatch<'_, R> {
    fn monotonic(&self) -> io::Result<Duration> {
        self.system.monotonic()
    }

    fn since_1970(&self) -> io::Result<Duration> {
        self.system.since_1970()
    }

    fn sleep(&self, duration: Duration) {
        self.system.sleep(duration);
    }
}

impl<R: rt::Files + Clock + Eprint> Watch for SystemWatch<'_, R> {
    ghost use Rattle.std.specs.Prelude.{true};

    ghost may_stop = { true };

    // A file that can't be looked for is not there.
    fn is_stopped(&self) -> bool {
        self.tell_if_due();
        match &self.stop {
            Some(name) => fs::exists(self.system, name.as_str()).unwrap_or(false),
            None => false,
        }
    }

    fn note_listening(&self, port: u16) {
        if self.interval > 0 {
            let _told = eprintln!(self.system; "listens at 127.0.0.1:{}", port);
        }
    }

    fn note_given(&self) {
        self.given.fetch_add(1, Ordering::SeqCst);
    }

    fn note_answered(&self) {
        self.answered.fetch_add(1, Ordering::SeqCst);
    }

    fn note_ended(&self, failed: bool) {
        self.ended.fetch_add(1, Ordering::SeqCst);
        if failed {
            self.failed.fetch_add(1, Ordering::SeqCst);
        }
    }

    fn note_refused(&self) {
        self.refused.fetch_add(1, Ordering::SeqCst);
    }
}
