//! Expanded names and attributes (Namespaces in XML 1.0, sections 2.1 and 6).

ghost use Rattle.std.specs.Prelude.{◌≡◌, ◌++◌, ◌∷◌, [], OnOk, OnErr};

use at_base::message::cloned_option;
use at_base::text::Text;
use std::alloc::AllocError;
use std::marker::Model;

/// An expanded name: a namespace or none, and a local name.
#[derive(Debug, PartialEq, Eq)]
pub struct QName {
    pub space: Option<Text>,
    pub local: Text,
}

impl Drop for QName {
    fn drop(self) {
        let QName {
            space: _space,
            local: _local,
        } = self;
    }
}

impl Clone for QName {
    ghost is_clone = { λ name copy. copy ≡ name };

    fn clone(&self) -> Result<QName, AllocError> {
        let local = self.local.clone()?;
        let space = cloned_option(&self.space)?;
        Ok(QName { space, local })
    }
}

/// An attribute, its value normalised (XML 1.0, section 3.3.3).
#[derive(Debug, PartialEq, Eq)]
pub struct Attribute {
    pub name: QName,
    pub value: Text,
}

impl Drop for Attribute {
    fn drop(self) {
        let Attribute {
            name: _name,
            value: _value,
        } = self;
    }
}

impl Clone for Attribute {
    ghost is_clone = { λ attribute copy. copy ≡ attribute };

    fn clone(&self) -> Result<Attribute, AllocError> {
        let value = self.value.clone()?;
        let name = self.name.clone()?;
        Ok(Attribute { name, value })
    }
}

/// The attributes of an element in order, declarations of namespaces not among them. No two names are equal.
#[derive(Debug)]
pub struct Attributes {
    items: Vec<Attribute>,
}

impl Drop for Attributes {
    fn drop(self) {
        let Attributes { items: _items } = self;
    }
}

impl Model for Attributes {
    ghost use Rattle.std.specs.Prelude.{List};
    ghost use Rattle.xml_profile.specs.declared.name.Attribute.{Attribute};

    ghost Value = { List Attribute };

    ghost view = { λ a. a.items.items };
}

impl Attributes {
    /// The list of a `Vec`, without a copy.
    pub fn from_vec(items: Vec<Attribute>) -> Attributes
        ensures { result ≡ items.items }
    {
        Attributes { items }
    }

    /// The `Vec` of the list, without a copy.
    pub fn into_vec(self) -> Vec<Attribute>
        ensures { result.items ≡ self }
    {
        let Attributes { items } = self;
        items
    }

    /// The list as a slice.
    pub fn as_slice(&self) -> &[Attribute]
        ensures { result.now ≡ self.now }
    {
        self.items.as_slice()
    }

    /// Adds one at the end. After an error the list is as before.
    pub fn push(&mut self, attribute: Attribute) -> Result<(), AllocError>
        ensures ok { OnOk result (self.new ≡ self.old ++ attribute ∷ []) }
        ensures err { OnErr result (self.new ≡ self.old) }
    {
        self.items.push(attribute)?;
        Ok(())
    }
}

impl Clone for Attributes {
    ghost is_clone = { λ attributes copy. copy ≡ attributes };

    fn clone(&self) -> Result<Attributes, AllocError> {
        Ok(Attributes {
            items: self.items.clone()?,
        })
    }
}
