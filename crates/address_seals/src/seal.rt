//! Seals, made and compared.

ghost use Rattle.std.specs.Prelude.{◌≡◌, IfOk, bytes_eq, option_map, string_bytes, take};
ghost use Rattle.address_seals.specs.Seals.{end_of, opened, seal_of, sealed};

use crate::hmac::hmac;
use std::alloc::{AllocError, Global};

/// Whether two texts are the same: each byte of the first is looked at.
fn is_same(a: &[u8], b: &[u8]) -> bool
    ensures { result ≡ bytes_eq a.now b.now }
{
    if a.len() != b.len() {
        return false;
    }
    let mut same = true;
    for place in 0..a.len() {
        same = same & (a[place] == b[place]);
    }
    same
}

/// What only a node knows: 32 random bytes.
#[derive(Clone, Copy)]
pub struct Secret {
    bytes: [u8; 32],
}

impl Secret {
    pub fn new(bytes: [u8; 32]) -> Secret
        ensures { result.bytes ≡ bytes }
    {
        Secret { bytes }
    }

    /// The seal of a path: 32 hexadecimal digits.
    fn seal_of(&self, alloc: Global, path: &str) -> Result<String, AllocError>
        ensures { IfOk result (λ seal. string_bytes seal ≡ seal_of self.now.bytes path.now) }
    {
        let code = hmac(self.bytes.as_slice(), path.as_bytes());
        hex::encode(alloc, &code[..16])
    }

    /// A path with its seal behind a slash.
    pub fn sealed(&self, alloc: Global, path: &str) -> Result<String, AllocError>
        ensures { IfOk result (λ text. string_bytes text ≡ sealed self.now.bytes path.now) }
    {
        let seal = self.seal_of(alloc, path)?;
        format!(in alloc; "{path}/{seal}")
    }

    /// What stands behind a path that is sealed: a slash and the seal.
    #[tactic(auto)]
    fn end_of(&self, path: &[u8]) -> [u8; 33]
        ensures { result ≡ end_of self.now.bytes path.now }
    {
        let code = hmac(self.bytes.as_slice(), path);
        let mut end = [b'/'; 33];
        if hex::encode_to_slice(&code[..16], &mut end[1..]).is_err() {
            unreachable!();
        }
        end
    }

    /// The path that a text is with its seal; none where its end isn't the seal of what stands before. How long it takes
    /// doesn't tell how much of a seal is right.
    #[tactic(auto)]
    pub fn opened<'a>(&self, text: &'a [u8]) -> Option<&'a [u8]>
        ensures { option_map (λ path. path.now) result ≡ opened self.now.bytes text.now }
    {
        if text.len() < 33 {
            return None;
        }
        let (path, end) = text.split_at(text.len() - 33);
        if is_same(end, self.end_of(path).as_slice()) {
            Some(path)
        } else {
            None
        }
    }
}

#[cfg(test)]
mod tests {
    use super::Secret;
    use std::test::Fail;

    /// Whether a text is this path with its seal.
    fn opens(secret: Secret, text: &str, path: &str) -> bool {
        match secret.opened(text.as_bytes()) {
            Some(opened) => opened == path.as_bytes(),
            None => false,
        }
    }

    #[test]
    fn a_seal_opens_its_own_path_alone(rt: HostRuntime) -> Result<(), Fail> {
        let alloc = rt.alloc();
        let secret = Secret::new([7; 32]);
        let sealed = secret.sealed(alloc, "/c/d/1-1/1")?;
        assert_eq!(rt; sealed.len(), 43);
        assert!(rt; opens(secret, sealed.as_str(), "/c/d/1-1/1"));
        assert!(rt; secret.opened(sealed.as_bytes()).is_some());
        assert!(rt; Secret::new([8; 32]).opened(sealed.as_bytes()).is_none());
        let moved = format!(in alloc; "/c/d/1-1/1{}", &sealed.as_str()[10..])?;
        assert!(rt; opens(secret, moved.as_str(), "/c/d/1-1/1"));
        let other = format!(in alloc; "/c/d/1-1/2{}", &sealed.as_str()[10..])?;
        assert!(rt; secret.opened(other.as_bytes()).is_none());
        assert!(rt; secret.opened(b"/c/d/1-1/1").is_none());
        Ok(())
    }
}
