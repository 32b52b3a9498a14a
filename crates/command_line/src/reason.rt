//! Why a recorded trace is not lawful.

ghost use Rattle.std.specs.Prelude.{◌≡◌, ◌≤◌, length};
ghost use Rattle.command_line.specs.declared.reason.TheConstants.{REASON_LIMIT};

use arrayvec::ArrayVec;
use std::marker::Model;

/// Most bytes of a reason.
pub const REASON_LIMIT: usize = 192;

/// A text of at most `REASON_LIMIT` bytes, which contracts see as a list. It takes no memory.
#[derive(Drop)]
pub struct Reason {
    text: ArrayVec<u8, REASON_LIMIT>,
}

impl Model for Reason {
    ghost use Rattle.std.specs.Prelude.{ℕ, List};

    ghost Value = { List ℕ };

    ghost view = { λ r. r.text.items };
}

impl Reason {
    /// The reason of these bytes.
    pub fn of(bytes: &[u8]) -> Reason
        requires { length bytes.now ≤ REASON_LIMIT }
        ensures { result ≡ bytes.now }
    {
        let mut text = ArrayVec::new();
        for byte in bytes {
            text.push(*byte);
        }
        Reason { text }
    }

    /// The bytes of the reason.
    pub fn bytes(&self) -> &[u8]
        ensures { result.now ≡ self.now }
    {
        self.text.as_slice()
    }
}
