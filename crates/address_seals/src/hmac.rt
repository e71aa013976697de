//! HMAC with SHA-256 (RFC 2104, section 2; FIPS 180-4).

ghost use Rattle.std.specs.Prelude.{◌≡◌, ◌≤◌, ◌++◌, List, ℕ, bit_xor, length, replicate};
ghost use Rattle.address_seals.specs.Seals.{hmac, padded, xored};
ghost use Rattle.sha2.specs.Hashers.{Holds256};

use sha2::{Digest, Sha256};

/// A hash that was fed each byte of a key with this one.
fn mixed(pad: u8, key: &[u8]) -> Sha256
    ensures { Holds256 result (xored pad key.now) }
{
    let mut hasher = Sha256::new();
    for byte in key {
        hasher.update([*byte ^ pad]);
    }
    hasher
}

/// The hash is fed so many zeros with this byte.
fn fill(hasher: &mut Sha256, pad: u8, count: usize)
    ensures { (fed : List ℕ) → Holds256 hasher.old fed → Holds256 hasher.new (fed ++ replicate count (bit_xor 0 pad)) }
{
    for _place in 0..count {
        hasher.update([0 ^ pad]);
    }
}

/// A hash that was fed a key of at most 64 bytes, filled up with zeros, each byte with this one.
#[tactic(auto, using(crate::proofs::Blocks::filled_up))]
fn keyed(pad: u8, key: &[u8]) -> Sha256
    requires { length key.now ≤ 64 }
    ensures { Holds256 result (padded pad key.now) }
{
    let mut hasher = mixed(pad, key);
    fill(&mut hasher, pad, 64 - key.len());
    hasher
}

/// The code of a text under a key of at most 64 bytes.
#[tactic(auto, unfolding(crate::specs::Seals::hmac))]
pub(crate) fn hmac(key: &[u8], text: &[u8]) -> [u8; 32]
    requires { length key.now ≤ 64 }
    ensures { result ≡ hmac key.now text.now }
{
    let mut inner = keyed(0x36, key);
    inner.update(text);
    let digest = inner.finalize();
    let mut outer = keyed(0x5c, key);
    outer.update(digest);
    outer.finalize()
}

#[cfg(test)]
mod tests {
    use super::hmac;
    use std::test::Fail;

    // RFC 4231, sections 4.2 and 4.3
    #[test]
    fn codes_are_those_of_the_standard(rt: HostRuntime) -> Result<(), Fail> {
        let alloc = rt.alloc();
        let key = [0x0b; 20];
        let first = hex::encode(alloc, hmac(key.as_slice(), b"Hi There").as_slice())?;
        assert_eq!(rt;
            first.as_str(),
            "b0344c61d8db38535ca8afceaf0bf12b881dc200c9833da726e9376c2e32cff7"
        );
        let second = hex::encode(
            alloc,
            hmac(b"Jefe", b"what do ya want for nothing?").as_slice(),
        )?;
        assert_eq!(rt;
            second.as_str(),
            "5bdcc146bf60754e6a042426089575c75a003f089d2739839dec58b964ec3843"
        );
        Ok(())
    }
}
