ghost use Rattle.std.specs.Prelude.{◌≡◌};
ghost use Rattle.serve_journal.specs.Session.{session_of};

use aes_cmac::{Key, cmac};

/// What tells a device's session from others of the same address: the first four bytes of the CMAC of its AppSKey under its
/// NwkSKey (RFC 4493). A changed session has other counters.
pub fn session_of(nwkskey: &Key, appskey: &[u8; 16]) -> [u8; 4]
    ensures { result ≡ session_of nwkskey.now appskey.now }
{
    let code = cmac(nwkskey, appskey);
    [code[0], code[1], code[2], code[3]]
}
