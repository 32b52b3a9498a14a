//! The version of the library.

ghost use Rattle.std.specs.Prelude.{◌≡◌, ◌≢◌, ◌++◌, drop as beyond, length as count_of};
ghost use Rattle.slot_core.specs.declared.TheConstants.{VERSION};
ghost use Rattle.slot_port.specs.declared.status.TheConstants.{OK};
ghost use Rattle.slot_port.specs.Statuses.{room_status};

/// The version of the library.
#[unsafe(no_mangle)]
pub extern "C" fn ss_version(text: &mut [u8], length: &mut usize) -> u32
    ensures untouched { result ≢ OK → text.new ≡ text.old }
    ensures silent { result ≢ OK → length.new ≡ length.old }
    ensures status { result ≡ room_status VERSION.now (count_of text.old) }
    ensures writes { result ≡ OK → text.new ≡ VERSION.now ++ beyond length.new text.old }
    ensures tells { result ≡ OK → length.new ≡ count_of VERSION.now }
{
    slot_port::version(text, length)
}
