//! A door in memory.
ghost use Rattle.std.specs.Prelude.{◌≡◌, ⊤, ◌≤◌, ◌<◌, ◌↔◌, [], true, All, IsTrue, IfOk, OnOk, OnErr, IsSomeAnd, length, map, slice_get};
ghost use Rattle.std.specs.List.{list_any};
ghost use Rattle.pb_outside.specs.FaultPlan.{is_over, is_to_fail};
ghost use Rattle.pb_outside.specs.Faults.{Fails, IsLater};
ghost use Rattle.pb_door.specs.DoorTold.{AreLent, counts, faults_of, faults_with, has_failed, lends, takes_back};
ghost use Rattle.pb_door.specs.MemoryDoor.{are_faultless, first_of, is_faultless, lists_below, plan_of, rest_of, told_by};
ghost use Rattle.pb_door.specs.MemoryPort.{AreUnwritten, told_by as port_told_by};
ghost use Rattle.pb_door.specs.PortTold.{new_ports};

use crate::{Door, DoorPort, MemoryPort, share_of};
use pb_outside::{FaultPlan, MemoryLink, OutError};
use std::alloc::{AllocError, Global};
use std::collections::VecDeque;
use std::marker::Model;

/// A door whose ports give links in memory, with chosen calls that fail. It tells all.
#[derive(Drop)]
pub struct MemoryDoor {
    links: VecDeque<Vec<MemoryLink>>,
    fails: VecDeque<Vec<u64>>,
    plan: FaultPlan,
    lent: u32,
    back: Vec<MemoryPort>,
}

impl Model for MemoryDoor {
    ghost use Rattle.std.specs.Prelude.{All, map};
    ghost use Rattle.pb_door.specs.MemoryDoor.{DoorState};
    ghost use Rattle.pb_door.specs.MemoryPort.{AreUnwritten};

    ghost Value = { DoorState };

    ghost view = { λ d. record {
      links = map (λ links. links.items) d.links.items;
      fails = map (λ fails. fails.items) d.fails.items;
      plan = d.plan;
      lent = d.lent;
      back = d.back.items;
    } };

    ghost invariant = { λ d. All AreUnwritten (map (λ links. links.items) d.links.items) };
}

impl MemoryDoor {
    /// Port k has the links of `links[k]`, and none where there is no such list. A call of `listen` fails exactly where
    /// its number is among `fails`, and a call of `next` on port k where its number is among `port_fails[k]`.
    pub fn new(
        alloc: Global,
        links: Vec<Vec<MemoryLink>>,
        fails: Vec<u64>,
        port_fails: Vec<Vec<u64>>,
    ) -> MemoryDoor
        requires { All AreUnwritten (map (λ links. links.items) links.items) }
        ensures { result ≡ record {
          links = map (λ links. links.items) links.items;
          fails = map (λ fails. fails.items) port_fails.items;
          plan = plan_of fails.items;
          lent = 0;
          back = [];
        } }
    {
        MemoryDoor {
            links: VecDeque::from_vec(links),
            fails: VecDeque::from_vec(port_fails),
            plan: FaultPlan::new(fails),
            lent: 0,
            back: Vec::new(alloc),
        }
    }

    /// How many ports came back last.
    pub fn came_back(&self) -> usize
        ensures { result ≡ length self.now.back }
    {
        self.back.len()
    }

    /// The links that were handed back at this port, once the ports came back.
    pub fn ended(&self, port: u32) -> &[MemoryLink]
        requires { port < length self.now.back }
        ensures { IsSomeAnd (slice_get self.now.back port) (λ p. result.now ≡ p.ended) }
    {
        self.back[port as usize].ended()
    }
}

// The first of the lists, which leaves them; an empty one where there is none.
fn take_first<T>(alloc: Global, lists: &mut VecDeque<Vec<T>>) -> Vec<T>
    ensures first { result.items ≡ first_of (map (λ list. list.items) lists.old.items) }
    ensures rest { let before = map (λ list. list.items) lists.old.items in
        map (λ list. list.items) lists.new.items ≡ rest_of before }
{
    match lists.pop_front() {
        Some(list) => list,
        None => Vec::new(alloc),
    }
}

// A port for each of so many workers.
fn open_ports(
    alloc: Global,
    links: &mut VecDeque<Vec<MemoryLink>>,
    fails: &mut VecDeque<Vec<u64>>,
    workers: u32,
    count: u32,
) -> Result<Vec<MemoryPort>, AllocError>
    requires workers { 1 ≤ workers }
    requires unwritten { All AreUnwritten (map (λ links. links.items) links.old.items) }
    ensures told { IfOk result (λ ports. map port_told_by ports.items ≡ new_ports count workers) }
    ensures coming { let lists = map (λ links. links.items) links.old.items in
        IfOk result (λ ports. map (λ p. p.coming) ports.items ≡ lists_below workers lists) }
    ensures plans { let lists = map (λ fails. fails.items) fails.old.items in
        IfOk result (λ ports. map (λ p. p.plan) ports.items ≡ map plan_of (lists_below workers lists)) }
    ensures unwritten { All AreUnwritten (map (λ links. links.items) links.new.items) }
    ensures faultless { let before = map (λ fails. fails.items) fails.old.items in
        are_faultless before ≡ true → IfOk result (λ ports. All (λ p. is_over p.plan ≡ true) ports.items) }
    ensures later { let before = map (λ fails. fails.items) fails.old.items in
        let after = map (λ fails. fails.items) fails.new.items in
        are_faultless before ≡ true → are_faultless after ≡ true }
{
    let mut ports = Vec::new(alloc);
    for number in 0..workers {
        let port = MemoryPort::new(
            alloc,
            number,
            share_of(count, workers, number),
            take_first(alloc, links),
            take_first(alloc, fails),
        );
        ports.push(port)?;
    }
    Ok(ports)
}

// Counts a fault where one of the ports has failed.
#[tactic(auto, using(crate::proofs::Opening::have_failed_told))]
fn count_failed(plan: &mut FaultPlan, ports: &[MemoryPort])
    ensures faults { plan.new.faults ≡ faults_with (map port_told_by ports.now) plan.old.faults }
    ensures same { is_over plan.new ≡ is_over plan.old }
{
    if have_failed(ports) {
        plan.count_fault();
    }
}

fn have_failed(ports: &[MemoryPort]) -> bool
    ensures { result ≡ list_any (λ p. has_failed (port_told_by p)) ports.now }
{
    ports.iter().any(|port| port.faults() > 0)
}

impl Door for MemoryDoor {
    type Port = MemoryPort;

    ghost told = { told_by };

    ghost faultless = { is_faultless };

    ghost may_listen = { λ _ _. ⊤ };

    fn listen(
        &mut self,
        alloc: Global,
        _: u16,
        workers: u32,
        links: u32,
    ) -> Result<Vec<MemoryPort>, OutError>
        requires { 1 ≤ workers }
        ensures ports { IfOk result (λ ports. map port_told_by ports.items ≡ new_ports links workers) }
        ensures faultless { is_faultless self.old ≡ true
            → IfOk result (λ ports. All (λ p. is_over p.plan ≡ true) ports.items) }
        ensures lent { OnOk result (told_by self.new ≡ lends workers (told_by self.old)) }
        ensures err { OnErr result (told_by self.new ≡ counts self.new.plan.faults (told_by self.old)) }
        ensures cause { let before = faults_of (told_by self.old) (is_faultless self.old) in
            let after = faults_of (told_by self.new) (is_faultless self.new) in
            result ≡ Err OutError.Failed → Fails before after }
        ensures later { let before = faults_of (told_by self.old) (is_faultless self.old) in
            let after = faults_of (told_by self.new) (is_faultless self.new) in
            IsLater before after }

        // Each port has the links and the failing calls of its list, and just the calls that are to fail do so.
        ensures coming { let links = lists_below workers self.old.links in
            IfOk result (λ ports. map (λ p. p.coming) ports.items ≡ links) }
        ensures plans { let fails = lists_below workers self.old.fails in
            IfOk result (λ ports. map (λ p. p.plan) ports.items ≡ map plan_of fails) }
        ensures fails { (result ≡ Err OutError.Failed) ↔ IsTrue (is_to_fail self.old.plan) }
    {
        if self.plan.begin_call() {
            return Err(OutError::Failed);
        }
        let ports = open_ports(alloc, &mut self.links, &mut self.fails, workers, links)?;
        self.lent = workers;
        Ok(ports)
    }

    fn back(&mut self, ports: Vec<MemoryPort>)
        requires { AreLent (told_by self.old) (map port_told_by ports.items) }
        ensures back { told_by self.new ≡ takes_back (map port_told_by ports.items) (told_by self.old) }
        ensures faultless { is_faultless self.new ≡ is_faultless self.old }

        // The ports themselves are kept.
        ensures kept { self.new.back ≡ ports.items }
    {
        count_failed(&mut self.plan, &ports);
        self.lent = 0;
        self.back = ports;
    }

    fn faults(&self) -> u64 {
        self.plan.faults()
    }
}
