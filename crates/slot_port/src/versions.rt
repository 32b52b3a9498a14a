//! The version of the library.

ghost use Rattle.std.specs.Prelude.{◌≡◌, ◌≢◌, ◌++◌, drop, length};
ghost use Rattle.slot_core.specs.declared.TheConstants.{VERSION};
ghost use Rattle.slot_port.specs.declared.status.TheConstants.{OK};
ghost use Rattle.slot_port.specs.Statuses.{room_status};

use crate::keys::put_front;
use crate::status::Status;
use slot_core::VERSION;

/// Writes the version to the front of `text`, and tells its length. `BAD_NUMBER` where it has no
/// room.
pub fn version(text: &mut [u8], written: &mut usize) -> Status
    ensures status { result ≡ room_status VERSION.now (length text.old) }
    ensures stays { result ≢ OK → text.new ≡ text.old }
    ensures silent { result ≢ OK → written.new ≡ written.old }
    ensures writes { result ≡ OK → text.new ≡ VERSION.now ++ drop written.new text.old }
    ensures tells { result ≡ OK → written.new ≡ length VERSION.now }
{
    put_front(VERSION, text, written)
}
