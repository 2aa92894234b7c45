//! Changes of a file that are on the disk when they are done, whatever failed before.
ghost use Rattle.std.specs.Prelude.{◌≡◌, ◌≢◌, ◌≤◌, length, take, OnOk, OnErr};
ghost use Rattle.std.specs.Option.{option_map};
ghost use Rattle.disk.specs.Disk.{overwritten, Torn, Overwrites, IsCut, IsCutOrNot, WhereTold, Becomes, AfterStep, Follows, LeavesOnly, CountsFaults};

use crate::Disk;
use pb_outside::OutError;

/// Writes bytes at a place, and then syncs.
pub fn write_through<D: Disk>(disk: &mut D, at: u64, bytes: &[u8]) -> Result<(), OutError>
    requires { WhereTold (D.content disk.old) (λ file. at ≤ length file) }
    ensures written { OnOk result (D.content disk.new ≡ option_map (overwritten at bytes.now)
        (D.content disk.old)) }
    ensures torn { OnErr result (Becomes (Torn at (length bytes.now)) (D.content disk.old)
        (D.content disk.new)) }
    ensures crash { Follows (Torn at (length bytes.now)) (D.may_leave disk.old) (D.may_leave disk.new) }
    ensures durable { OnOk result (Follows (Overwrites at bytes.now) (D.may_leave disk.old)
        (D.may_leave disk.new)) }
    ensures any_moment { LeavesOnly D.moment D.left_since disk.old disk.new
        (AfterStep (Torn at (length bytes.now)) (D.may_leave disk.old)) }
    ensures no_memory { result ≢ Err OutError.Memory }
    ensures count { CountsFaults result (D.failures disk.old) (D.failures disk.new) }
{
    disk.write_at(at, bytes)?;
    disk.sync()
}

/// Cuts the file to a length, and then syncs.
pub fn cut_through<D: Disk>(disk: &mut D, len: u64) -> Result<(), OutError>
    requires { WhereTold (D.content disk.old) (λ file. len ≤ length file) }
    ensures cut { OnOk result (D.content disk.new ≡ option_map (take len) (D.content disk.old)) }
    ensures torn { OnErr result (Becomes (IsCutOrNot len) (D.content disk.old) (D.content disk.new)) }
    ensures crash { Follows (IsCutOrNot len) (D.may_leave disk.old) (D.may_leave disk.new) }
    ensures durable { OnOk result (Follows (IsCut len) (D.may_leave disk.old) (D.may_leave disk.new)) }
    ensures any_moment { LeavesOnly D.moment D.left_since disk.old disk.new
        (AfterStep (IsCutOrNot len) (D.may_leave disk.old)) }
    ensures no_memory { result ≢ Err OutError.Memory }
    ensures count { CountsFaults result (D.failures disk.old) (D.failures disk.new) }
{
    disk.cut(len)?;
    disk.sync()
}
