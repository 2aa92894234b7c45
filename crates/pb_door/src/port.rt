//! Where links come from, one after the other.
ghost use Rattle.std.specs.Prelude.{◌≡◌, ◌⊎◌, ⊤, ◌<◌, ◌≤◌, Bool, false, true, IfOk, IfSome, OnErr, MatchOption};
ghost use Rattle.pb_outside.specs.Faults.{Fails, IsLater};
ghost use Rattle.pb_door.specs.LinkTold.{IsUnwritten, link_told};
ghost use Rattle.pb_door.specs.PortTold.{PortTold, closes, counts, ends, faults_of, gives, share_of};

use pb_outside::{Link, OutError};

/// One of the ports of a door. Who has it takes one link at a time and hands each back.
pub trait DoorPort {
    type L: Link + Send;

    /// Which links came and went.
    ghost told: { Self → PortTold };

    /// Whether no call on the port fails from here on.
    ghost faultless: { Self → Bool };

    /// That the port has no more links, however many it might still give.
    ghost exhausted: { Self → Type 0 };

    /// The next link, of which nothing was read and which has taken nothing. None says that the port has given as
    /// many as it may, or has no more. It may wait for a peer.
    fn next(&mut self) -> Result<Option<Self::L>, OutError>
        requires { (told self.old).out ≡ false }
        ensures found { IfOk result (λ found. MatchOption found
            (told self.new ≡ closes (told self.old))
            (λ link. let taken = link_told (Self.L.input link) (Self.L.output link) in
            told self.new ≡ gives taken (told self.old))) }
        ensures none { IfOk result (λ found. MatchOption found
            (((told self.old).left ≡ 0) ⊎ exhausted self.old) (λ _. ⊤)) }
        ensures left { IfOk result (λ found. IfSome found (λ _. 0 < (told self.old).left)) }
        ensures unwritten { IfOk result (λ found. IfSome found
            (λ link. IsUnwritten (link_told (Self.L.input link) (Self.L.output link)))) }
        ensures err { OnErr result (told self.new ≡ counts (told self.new).faults (told self.old)) }
        ensures cause { let before = faults_of (told self.old) (faultless self.old) in
            let after = faults_of (told self.new) (faultless self.new) in
            result ≡ Err OutError.Failed → Fails before after }
        ensures later { let before = faults_of (told self.old) (faultless self.old) in
            let after = faults_of (told self.new) (faultless self.new) in
            IsLater before after };

    /// Hands a link back, as it now stands. This takes no memory.
    fn done(&mut self, link: Self::L)
        requires { (told self.old).out ≡ true }
        ensures ended { let taken = link_told (Self.L.input link) (Self.L.output link) in
            told self.new ≡ ends taken (told self.old) }
        ensures faultless { faultless self.new ≡ faultless self.old };

    /// How often a call has failed so far.
    fn faults(&self) -> u64
        ensures { result ≡ (told self.now).faults };
}

/// How many of a door's links the port of this number gives at most.
pub fn share_of(links: u32, workers: u32, number: u32) -> u64
    requires { 1 ≤ workers }
    ensures { result ≡ share_of links workers number }
{
    let each = u64::from(links / workers);
    if number < links % workers {
        each + 1
    } else {
        each
    }
}
