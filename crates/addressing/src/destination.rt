//! Where a message goes to (WS-Addressing 1.0 Core, section 3.1).

ghost use Rattle.std.specs.Prelude.{◌≡◌, None, Some, IfOk};
ghost use Rattle.url.specs.Parser.{parse_url};
ghost use Rattle.addressing.specs.Headers.{url_text};
ghost use Rattle.addressing.specs.PostAddresses.{path_in};

use at_base::text::Text;
use std::alloc::{AllocError, Global};
use std::marker::Model;
use url::{ParseError, Url};

/// A destination: the text of a URL, and the path of that URL, which so is parsed once.
#[derive(Drop)]
pub struct Destination {
    address: Text,
    path: Text,
}

impl Model for Destination {
    ghost use Rattle.std.specs.Prelude.{◌≡◌, ℕ, List, None, Some};
    ghost use Rattle.url.specs.Parser.{parse_url};
    ghost use Rattle.addressing.specs.PostAddresses.{path_in};

    ghost Value = { List ℕ };

    ghost view = { λ d. d.address };

    ghost invariant = { λ d. path_in (parse_url None d.address) ≡ Some d.path };
}

impl Destination {
    /// The destination that a text is. None where it is no URL.
    pub fn read(alloc: Global, text: Text) -> Result<Option<Destination>, AllocError>
        ensures { IfOk result (λ destination. destination ≡ url_text text) }
    {
        match Url::parse(alloc, text.as_str()) {
            Ok(url) => {
                let path = Text::copied(alloc, url.path())?;
                Ok(Some(Destination {
                    address: text,
                    path,
                }))
            }
            Err(ParseError::OutOfMemory | ParseError::Overflow) => Err(AllocError),
            Err(_) => Ok(None),
        }
    }

    /// The text as it stands.
    pub fn as_str(&self) -> &str
        ensures { result.now ≡ self.now }
    {
        self.address.as_str()
    }

    /// The path of the URL, without its query.
    pub fn path(&self) -> &str
        ensures { path_in (parse_url None self.now) ≡ Some result.now }
    {
        self.path.as_str()
    }

    /// The text, without a copy.
    pub fn into_address(self) -> Text
        ensures { result ≡ self }
    {
        let Destination {
            address,
            path: _path,
        } = self;
        address
    }
}
