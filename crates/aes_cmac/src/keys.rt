// A key, expanded once.

ghost use Rattle.std.specs.Prelude.{◌≡◌};
ghost use Rattle.aes_cmac.specs.Mac.{first_subkey, second_subkey};

use crate::cipher::encrypt_block;
use crate::schedule::{Schedule, expanded};
use crate::subkeys::subkey_after;
use std::fmt;
use std::marker::Model;

/// A key of AES-128, expanded once: contracts see its 16 bytes. It holds the words of the key
/// schedule (FIPS 197 section 5.2) and the two subkeys of CMAC (RFC 4493 section 2.3).
#[derive(Clone, Copy)]
pub struct Key {
    pub(crate) words: Schedule,
    first: [u8; 16],
    second: [u8; 16],
}

impl Model for Key {
    ghost use Rattle.std.specs.Prelude.{List, ℕ};
    ghost use Rattle.aes_cmac.specs.Mac.{first_subkey, second_subkey};
    ghost use Rattle.aes_cmac.specs.Words.{four_words, schedule_numbers, IsExpanded};
    ghost use Rattle.aes_cmac.specs.KeyFields.{same_fields};

    ghost Value = { List ℕ };

    ghost view = { λ k. four_words k.words 0 };

    ghost invariant = { λ k. IsExpanded k.words k.first k.second };

    ghost inverse = { λ b. record { words = schedule_numbers b; first = first_subkey b; second = second_subkey b } };

    ghost inverse_ok = { λ k h. same_fields k h };
}

impl Key {
    /// Expands the 16 bytes of a key.
    pub fn new(bytes: [u8; 16]) -> Key
        ensures { result ≡ bytes }
    {
        let words = expanded(&bytes);
        let first = subkey_after(&encrypt_block(&words, &[0; 16]));
        let second = subkey_after(&first);
        Key {
            words,
            first,
            second,
        }
    }

    /// K1: what is added to a whole last block (RFC 4493 section 2.3).
    pub(crate) fn first_subkey(&self) -> [u8; 16]
        ensures { result ≡ first_subkey self.now }
    {
        self.first
    }

    /// K2: what is added to a last block that was filled up (RFC 4493 section 2.3).
    pub(crate) fn second_subkey(&self) -> [u8; 16]
        ensures { result ≡ second_subkey self.now }
    {
        self.second
    }
}

/// Shows no byte of the key.
impl fmt::Debug for Key {
    fn fmt<W: fmt::Write>(&self, f: &mut fmt::Formatter<W>) -> fmt::Result {
        f.write_str("Key { .. }")
    }
}
