//! A port in memory.
ghost use Rattle.std.specs.Prelude.{◌≡◌, ◌⊎◌, ⊤, ◌<◌, ◌↔◌, [], false, IsTrue, IfOk, IfSome, OnErr, MatchOption};
ghost use Rattle.pb_outside.specs.FaultPlan.{faults_of, is_over, is_to_fail};
ghost use Rattle.pb_outside.specs.Faults.{Fails, IsLater};
ghost use Rattle.pb_door.specs.LinkTold.{IsUnwritten};
ghost use Rattle.pb_door.specs.MemoryDoor.{plan_of};
ghost use Rattle.pb_door.specs.MemoryPort.{AreUnwritten, after_next, after_refusal, exchange_told, next_link, told_by};
ghost use Rattle.pb_door.specs.PortTold.{closes, counts, gives};

use crate::DoorPort;
use pb_outside::{FaultPlan, MemoryLink, OutError};
use std::alloc::Global;
use std::collections::VecDeque;
use std::marker::Model;
use std::snapshot::Snapshot;

/// A port that gives links in memory, with chosen calls that fail. It tells all.
#[derive(Drop)]
pub struct MemoryPort {
    number: u32,
    left: u64,
    coming: VecDeque<MemoryLink>,
    given: Vec<Snapshot<MemoryLink>>,
    ended: Vec<MemoryLink>,
    out: bool,
    over: bool,
    plan: FaultPlan,
}

impl Model for MemoryPort {
    ghost use Rattle.std.specs.Prelude.{◌≡◌, ◌<◌, true, map, vec_len, vec_capacity};
    ghost use Rattle.pb_door.specs.MemoryPort.{AreUnwritten, PortState};

    ghost Value = { PortState };

    ghost view = { λ p. record {
      number = p.number;
      left = p.left;
      coming = p.coming.items;
      given = map (λ link. link.value) p.given.items;
      ended = p.ended.items;
      out = p.out;
      over = p.over;
      plan = p.plan;
    } };

    ghost invariant = { λ p. (p.out ≡ true → vec_len p.ended < vec_capacity p.ended)
        × AreUnwritten p.coming.items };
}

impl MemoryPort {
    /// The port of this number, which gives these links, `left` of them at most. A call of `next` fails exactly where
    /// its number is among `fails`.
    pub(crate) fn new(
        alloc: Global,
        number: u32,
        left: u64,
        links: Vec<MemoryLink>,
        fails: Vec<u64>,
    ) -> MemoryPort
        requires { AreUnwritten links.items }
        ensures { result ≡ record {
          number = number;
          left = left;
          coming = links.items;
          given = [];
          ended = [];
          out = false;
          over = false;
          plan = plan_of fails.items;
        } }
    {
        MemoryPort {
            number,
            left,
            coming: VecDeque::from_vec(links),
            given: Vec::new(alloc),
            ended: Vec::new(alloc),
            out: false,
            over: false,
            plan: FaultPlan::new(fails),
        }
    }

    /// The links that were handed back, in order.
    pub fn ended(&self) -> &[MemoryLink]
        ensures { result.now ≡ self.now.ended }
    {
        &self.ended
    }
}

impl DoorPort for MemoryPort {
    type L = MemoryLink;

    ghost told = { told_by };

    ghost faultless = { λ p. is_over p.plan };

    ghost exhausted = { λ p. p.coming ≡ [] };

    fn next(&mut self) -> Result<Option<MemoryLink>, OutError>
        requires { self.old.out ≡ false }
        ensures found { IfOk result (λ found. MatchOption found
            (told_by self.new ≡ closes (told_by self.old))
            (λ link. told_by self.new ≡ gives (exchange_told link) (told_by self.old))) }
        ensures none { IfOk result (λ found. MatchOption found
            ((self.old.left ≡ 0) ⊎ (self.old.coming ≡ [])) (λ _. ⊤)) }
        ensures left { IfOk result (λ found. IfSome found (λ _. 0 < self.old.left)) }
        ensures unwritten { IfOk result (λ found. IfSome found (λ link. IsUnwritten (exchange_told link))) }
        ensures err { OnErr result (told_by self.new ≡ counts self.new.plan.faults (told_by self.old)) }
        ensures cause { let fails = Fails (faults_of self.old.plan) (faults_of self.new.plan) in
            result ≡ Err OutError.Failed → fails }
        ensures later { IsLater (faults_of self.old.plan) (faults_of self.new.plan) }

        // It gives its links in order, and fails exactly at the calls that are to fail.
        ensures fails { (result ≡ Err OutError.Failed) ↔ IsTrue (is_to_fail self.old.plan) }
        ensures next { IfOk result (λ found. found ≡ next_link self.old) }
        ensures after { IfOk result (λ found. self.new ≡ after_next found self.old) }
        ensures refused { OnErr result (self.new ≡ after_refusal self.old) }
    {
        if self.plan.begin_call() {
            return Err(OutError::Failed);
        }
        self.ended.reserve(1)?;
        self.given.reserve(1)?;
        if self.left == 0 {
            self.over = true;
            return Ok(None);
        }
        match self.coming.pop_front() {
            Some(link) => {
                if self.given.push(Snapshot::of(&link)).is_err() {
                    unreachable!();
                }
                self.left -= 1;
                self.out = true;
                Ok(Some(link))
            }
            None => {
                self.over = true;
                Ok(None)
            }
        }
    }

    fn done(&mut self, link: MemoryLink) {
        if self.ended.push(link).is_err() {
            unreachable!();
        }
        self.out = false;
    }

    fn faults(&self) -> u64 {
        self.plan.faults()
    }
}
