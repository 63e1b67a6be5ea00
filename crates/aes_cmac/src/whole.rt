// The code of a message that is there as a whole (RFC 4493 section 2.4).

ghost use Rattle.std.specs.Prelude.{◌≡◌};
ghost use Rattle.aes_cmac.specs.Mac.{cmac};

use crate::keys::Key;
use crate::state::Cmac;

/// The code of a message under a key (RFC 4493 section 2.4). Needs no memory.
pub fn cmac(key: &Key, message: &[u8]) -> [u8; 16]
    ensures { result ≡ cmac key.now message.now }
{
    let mut state = Cmac::new(key);
    state.update(message);
    state.finish()
}
