//! What a journal stands on.
ghost use Rattle.std.specs.Prelude.{◌≡◌, ◌≢◌, ◌≤◌, List, ℕ, Option, length, take, IfOk, OnOk, OnErr};
ghost use Rattle.std.specs.Option.{option_map};
ghost use Rattle.disk.specs.Disk.{overwritten, Torn, Overwrites, IsCut, IsCutOrNot, WhereTold, Becomes, Follows, Only, Elapses, CountsFaults};

use pb_outside::OutError;
use std::alloc::Global;

/// One file on a disk that may stop at any moment. Bytes outside the ranges that were written since the last sync are
/// then as they were. Each of these ranges may hold any bytes and may be short, and a cut was made or not. After an error
/// of a write or a cut the same may stand in the file itself.
///
/// A sync that succeeds makes last what was written since the sync before it, and what that one could have made last. So a
/// stop then leaves the file as a read gives it, as long as no sync has failed. Behind one that failed nothing is known of
/// what was written before it, though a read may still give it: the system may take a page for written that it has lost.
pub trait Disk {
    /// The file as a read gives it, where it is told.
    ghost content: { Self → Option (List ℕ) };

    /// What a stop at this moment may leave of the file: one of these images.
    ghost may_leave: { Self → List ℕ → Type 0 };

    /// What a stop may leave of the file after a sync that succeeds now: one of these images.
    ghost may_leave_synced: { Self → List ℕ → Type 0 };

    /// The moment, as a number that does not fall.
    ghost moment: { Self → ℕ };

    /// What a stop at some moment from that one on could leave, during a call or between two.
    ghost left_since: { Self → ℕ → List ℕ → Type 0 };

    /// The file has this name, and no sync of it has failed so far. A disk whose file has no name may be taken by any.
    ghost may_begin: { Self → List ℕ → Type 0 };

    /// How often a call has failed so far.
    ghost failures: { Self → ℕ };

    /// All bytes of the file.
    fn read(&mut self, alloc: Global) -> Result<Vec<u8>, OutError>
        ensures bytes { IfOk result (λ bytes. WhereTold (content self.old) (λ file. bytes.items ≡ file)) }
        ensures kept { content self.new ≡ content self.old }
        ensures crash { (image : List ℕ) → may_leave self.new image → may_leave self.old image }
        ensures time { Elapses (moment self.old) (moment self.new) (left_since self.old) (left_since self.new)
            (may_leave self.new) }
        ensures count { CountsFaults result (failures self.old) (failures self.new) };

    /// Writes bytes at a place that is at most the end, over what is there and past the end.
    fn write_at(&mut self, at: u64, bytes: &[u8]) -> Result<(), OutError>
        requires { WhereTold (content self.old) (λ file. at ≤ length file) }
        ensures written { OnOk result (content self.new ≡ option_map (overwritten at bytes.now)
            (content self.old)) }
        ensures torn { OnErr result (Becomes (Torn at (length bytes.now)) (content self.old)
            (content self.new)) }
        ensures synced { OnOk result (Follows (Overwrites at bytes.now) (may_leave_synced self.old)
            (may_leave_synced self.new)) }
        ensures crash { Follows (Torn at (length bytes.now)) (may_leave self.old) (may_leave self.new) }
        ensures time { Elapses (moment self.old) (moment self.new) (left_since self.old) (left_since self.new)
            (may_leave self.new) }
        ensures no_memory { result ≢ Err OutError.Memory }
        ensures count { CountsFaults result (failures self.old) (failures self.new) };

    /// Cuts the file to a length that is at most its own.
    fn cut(&mut self, len: u64) -> Result<(), OutError>
        requires { WhereTold (content self.old) (λ file. len ≤ length file) }
        ensures cut { OnOk result (content self.new ≡ option_map (take len) (content self.old)) }
        ensures torn { OnErr result (Becomes (IsCutOrNot len) (content self.old) (content self.new)) }
        ensures synced { OnOk result (Follows (IsCut len) (may_leave_synced self.old)
            (may_leave_synced self.new)) }
        ensures crash { Follows (IsCutOrNot len) (may_leave self.old) (may_leave self.new) }
        ensures time { Elapses (moment self.old) (moment self.new) (left_since self.old) (left_since self.new)
            (may_leave self.new) }
        ensures no_memory { result ≢ Err OutError.Memory }
        ensures count { CountsFaults result (failures self.old) (failures self.new) };

    /// Makes last what was written.
    fn sync(&mut self) -> Result<(), OutError>
        ensures durable { OnOk result ((image : List ℕ) → may_leave self.new image
            → may_leave_synced self.old image) }
        ensures kept { content self.new ≡ content self.old }
        ensures crash { (image : List ℕ) → may_leave self.new image → may_leave self.old image }
        ensures time { Elapses (moment self.old) (moment self.new) (left_since self.old) (left_since self.new)
            (may_leave self.new) }
        ensures no_memory { result ≢ Err OutError.Memory }
        ensures count { CountsFaults result (failures self.old) (failures self.new) };

    /// How often a call has failed so far.
    fn faults(&self) -> u64
        ensures { result ≡ failures self.now };

    /// The system may write at any time, so what a sync may make last, a stop may leave.
    ghost synced_now: { (disk : Self) (image : List ℕ) → may_leave_synced disk image → may_leave disk image };

    /// Where no sync has failed, one makes last what a read gives.
    ghost begins_sure: { (disk : Self) (name : List ℕ) → may_begin disk name
        → WhereTold (content disk) (λ file. Only file (may_leave_synced disk)) };

    /// This moment is one of those since an earlier one.
    ghost counts_now: { (disk : Self) (t : ℕ) (image : List ℕ) → t ≤ moment disk → may_leave disk image
        → left_since disk t image };

    /// Since this moment there is no other.
    ghost only_now: { (disk : Self) (image : List ℕ) → left_since disk (moment disk) image
        → may_leave disk image };
}
