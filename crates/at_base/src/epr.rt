//! Endpoint references (WS-Addressing 1.0 Core, section 2).

ghost use Rattle.std.specs.Prelude.{◌≡◌};

use crate::text::Text;
use std::alloc::AllocError;

/// An endpoint: its address, and its reference parameters.
///
/// `params` is empty or the canonical text of one `wsa:ReferenceParameters` element. The two together have at most
/// 2,048 bytes.
#[derive(Debug, PartialEq, Eq)]
pub struct Epr {
    pub address: Text,
    pub params: Text,
}

impl Drop for Epr {
    fn drop(self) {
        let Epr {
            address: _address,
            params: _params,
        } = self;
    }
}

impl Clone for Epr {
    ghost is_clone = { λ epr copy. copy ≡ epr };

    fn clone(&self) -> Result<Epr, AllocError> {
        Ok(Epr {
            address: self.address.clone()?,
            params: self.params.clone()?,
        })
    }
}

/// Where an answer goes (WS-Addressing 1.0 Core, section 3.4).
#[derive(Debug, PartialEq, Eq)]
pub enum Reply {
    /// Back on the connection that the request came on.
    Anonymous,
    /// Nowhere.
    Nobody,
    At(Epr),
}

impl Drop for Reply {
    fn drop(self) {
        match self {
            Reply::Anonymous => {}
            Reply::Nobody => {}
            Reply::At(_held) => {}
        }
    }
}

impl Clone for Reply {
    ghost is_clone = { λ reply copy. copy ≡ reply };

    fn clone(&self) -> Result<Reply, AllocError> {
        match self {
            Reply::Anonymous => Ok(Reply::Anonymous),
            Reply::Nobody => Ok(Reply::Nobody),
            Reply::At(epr) => Ok(Reply::At(epr.clone()?)),
        }
    }
}
