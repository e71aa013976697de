//! The children of a Work.

ghost use Rattle.std.specs.Prelude.{◌≡◌};
ghost use Rattle.std.specs.Option.{option_copied, option_map};
ghost use Rattle.wire_msgs.specs.Parts.{child_in, part_name};

use soap_profile::elements::child;
use xml_profile::names::WORK;
use xml_profile::tree::Tree;

/// A child of a Work.
#[derive(Debug, Clone, Copy, PartialEq, Eq)]
pub enum Part {
    Key,
    Value,
    Kind,
    Vote,
}

impl Part {
    /// The local name of its element, which is in the namespace of a Work.
    pub fn local_name(self) -> &'static str
        ensures { result.now ≡ part_name self }
    {
        match self {
            Part::Key => "Key",
            Part::Value => "Value",
            Part::Kind => "Kind",
            Part::Vote => "Vote",
        }
    }
}

/// This child of a Work: nothing where it stands more than once, an inner nothing where it isn't there.
pub(crate) fn child_in(tree: &Tree, part: Part) -> Option<Option<&Tree>>
    ensures { option_map option_copied result ≡ child_in tree.now part }
{
    child(tree, Some(WORK), part.local_name())
}
