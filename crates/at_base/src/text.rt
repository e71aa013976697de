//! Texts: UTF-8 that contracts see as a list of bytes.

ghost use Rattle.std.specs.Prelude.{◌≡◌, ◌++◌, IfOk, OnOk, OnErr, nat_eq, string_bytes, Some};
ghost use Rattle.std.specs.Cmp.Lexicographic.{pointwise, nat_list_eq_equiv};
ghost use Rattle.std.specs.Cmp.{partial_equiv_from_equiv};

use std::alloc::{AllocError, Global};
use std::fmt;
use std::marker::Model;
use std::rc::Rc;

/// A text in UTF-8. Its bounds are those of the place where it stands.
pub struct Text {
    held: Held,
}

/// The bytes of a text: its own, or those that copies of it share.
enum Held {
    Own(String),
    Shared(Rc<String>),
}

impl Model for Text {
    ghost use Rattle.std.specs.Prelude.{ℕ, List};
    ghost use Rattle.at_base.specs.TextBytes.{bytes_of};

    ghost Value = { List ℕ };

    ghost view = { λ t. bytes_of t.held };
}

impl Held {
    /// By hand, and not derived, so that a caller's exits see one call and no variants.
    fn let_go(self) {
        match self {
            Held::Own(_string) => {}
            Held::Shared(_string) => {}
        }
    }
}

impl Drop for Text {
    fn drop(self) {
        let Text { held } = self;
        held.let_go();
    }
}

impl Text {
    /// The text of a string, without a copy.
    pub fn from_string(inner: String) -> Text
        ensures { result ≡ string_bytes inner }
    {
        Text {
            held: Held::Own(inner),
        }
    }

    /// The same text, whose copies share its bytes: making one takes no memory.
    pub fn into_shared(self, alloc: Global) -> Result<Text, AllocError>
        ensures { IfOk result (λ t. t ≡ self) }
    {
        let Text { held } = self;
        match held {
            Held::Own(string) => Ok(Text {
                held: Held::Shared(Rc::new(alloc, string)?),
            }),
            Held::Shared(string) => Ok(Text {
                held: Held::Shared(string),
            }),
        }
    }

    /// A text of its own with the same bytes.
    pub fn copied(alloc: Global, text: &str) -> Result<Text, AllocError>
        ensures { IfOk result (λ t. t ≡ text.now) }
    {
        Ok(Text::from_string(String::from_str(alloc, text)?))
    }

    /// The text as it stands.
    pub fn as_str(&self) -> &str
        ensures { result.now ≡ self.now }
    {
        self.as_string().as_str()
    }

    fn as_string(&self) -> &String
        ensures { string_bytes result.now ≡ self.now }
    {
        match &self.held {
            Held::Own(string) => string,
            Held::Shared(string) => string.as_ref(),
        }
    }

    /// Adds to the end. After an error the text is as before.
    pub fn push_str(&mut self, more: &str) -> Result<(), AllocError>
        ensures ok { OnOk result (self.new ≡ self.old ++ more.now) }
        ensures err { OnErr result (self.new ≡ self.old) }
    {
        if let Held::Own(string) = &mut self.held {
            return string.push_str(more);
        }
        *self = joined(self.as_string(), more)?;
        Ok(())
    }
}

/// A text and what follows it, in memory of their own.
fn joined(text: &String, more: &str) -> Result<Text, AllocError>
    ensures { IfOk result (λ own. own ≡ string_bytes text.now ++ more.now) }
{
    let mut own = text.clone()?;
    own.push_str(more)?;
    Ok(Text::from_string(own))
}

impl Clone for Text {
    ghost is_clone = { λ text copy. copy ≡ text };

    fn clone(&self) -> Result<Text, AllocError> {
        match &self.held {
            Held::Own(string) => Ok(Text {
                held: Held::Own(string.clone()?),
            }),
            Held::Shared(string) => Ok(Text {
                held: Held::Shared(string.clone()?),
            }),
        }
    }
}

impl fmt::Debug for Text {
    fn fmt<W: fmt::Write>(&self, f: &mut fmt::Formatter<W>) -> fmt::Result {
        fmt::Debug::fmt(self.as_str(), f)
    }
}

impl PartialEq for Text {
    ghost eq = { pointwise nat_eq };

    ghost laws = { partial_equiv_from_equiv nat_list_eq_equiv };

    fn eq(&self, other: &Text) -> bool {
        self.as_str() == other.as_str()
    }
}

impl Eq for Text {
    ghost laws = { nat_list_eq_equiv };
}

impl fmt::Display for Text {
    ghost output = { λ text. Some text };

    fn fmt<W: fmt::Write>(&self, f: &mut fmt::Formatter<W>) -> fmt::Result {
        f.write_str(self.as_str())
    }
}
