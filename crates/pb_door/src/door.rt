//! Where ports come from.
ghost use Rattle.std.specs.Prelude.{◌≡◌, ◌≤◌, ℕ, Bool, true, All, IfOk, OnOk, OnErr, map};
ghost use Rattle.pb_outside.specs.Faults.{Fails, IsLater};
ghost use Rattle.pb_door.specs.DoorTold.{AreLent, DoorTold, counts, faults_of, lends, takes_back};
ghost use Rattle.pb_door.specs.PortTold.{new_ports};

use crate::DoorPort;
use pb_outside::OutError;
use std::alloc::Global;

/// What listens for connections, and gives each of a number of workers a port.
pub trait Door {
    type Port: DoorPort + Send;

    /// How many ports are out, and those that came back.
    ghost told: { Self → DoorTold };

    /// Whether no call on the door or on a port that it gives fails from here on.
    ghost faultless: { Self → Bool };

    /// At which ports of the machine it may listen. A door listens at any; who runs one of a kind that isn't known has only the
    /// ports of which this was said.
    ghost may_listen: { Self → ℕ → Type 0 };

    /// Listens at a port of the machine, for so many links in all, which are divided among the workers.
    fn listen(
        &mut self,
        alloc: Global,
        port: u16,
        workers: u32,
        links: u32,
    ) -> Result<Vec<Self::Port>, OutError>
        requires workers { 1 ≤ workers }
        requires at_port { may_listen self.old port }
        ensures ports { IfOk result (λ ports. map Self.Port.told ports.items ≡ new_ports links workers) }
        ensures faultless { faultless self.old ≡ true
            → IfOk result (λ ports. All (λ p. Self.Port.faultless p ≡ true) ports.items) }
        ensures lent { OnOk result (told self.new ≡ lends workers (told self.old)) }
        ensures err { OnErr result (told self.new ≡ counts (told self.new).faults (told self.old)) }
        ensures cause { let before = faults_of (told self.old) (faultless self.old) in
            let after = faults_of (told self.new) (faultless self.new) in
            result ≡ Err OutError.Failed → Fails before after }
        ensures later { let before = faults_of (told self.old) (faultless self.old) in
            let after = faults_of (told self.new) (faultless self.new) in
            IsLater before after };

    /// Takes back all ports that it gave, in their order. It counts a fault where a port has failed. This takes no
    /// memory.
    fn back(&mut self, ports: Vec<Self::Port>)
        requires { AreLent (told self.old) (map Self.Port.told ports.items) }
        ensures back { told self.new ≡ takes_back (map Self.Port.told ports.items) (told self.old) }
        ensures faultless { faultless self.new ≡ faultless self.old };

    /// How often a call has failed so far, or a port that came back had failed.
    fn faults(&self) -> u64
        ensures { result ≡ (told self.now).faults };
}
