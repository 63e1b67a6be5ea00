// The two subkeys of CMAC (RFC 4493 section 2.3).

ghost use Rattle.std.specs.Prelude.{◌≡◌};
ghost use Rattle.aes_cmac.specs.Mac.{shifted_left, doubled_block};

// const_Rb: what is added to the last byte where the bit that is lost was 1 (RFC 4493 section 2.3).
const RB: u8 = 0x87;

// The block shifted left by one bit, the first bit being lost.
fn shifted(block: &[u8; 16]) -> [u8; 16]
    ensures { result ≡ shifted_left block.now }
{
    let mut out = [0u8; 16];
    'bytes: for i in 0..15 {
        out[i] = block[i] % 128 * 2 + block[i + 1] / 128;
    }
    out[15] = block[15] % 128 * 2;
    out
}

/// The subkey that follows a block: K1 of the cipher of zeros, and K2 of K1.
pub(crate) fn subkey_after(block: &[u8; 16]) -> [u8; 16]
    ensures { result ≡ doubled_block block.now }
{
    let mut out = shifted(block);
    if block[0] >= 128 {
        out[15] = RB ^ out[15];
    }
    out
}
