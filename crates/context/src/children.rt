//! The children of a body, looked up by name.

ghost use Rattle.std.specs.Prelude.{◌≡◌};
ghost use Rattle.std.specs.Option.{option_copied, option_map};
ghost use Rattle.std.specs.Result.{result_map_both};
ghost use Rattle.context.specs.Parameters.{child_in};
ghost use Rattle.context.specs.Bodies.{optional, required};

use crate::parameter::{ContextFault, Parameter};
use soap_profile::elements::child;
use xml_profile::names::COORDINATION;
use xml_profile::tree::Tree;

/// The child that must be there once.
pub fn required(tree: &Tree, name: Parameter) -> Result<&Tree, ContextFault>
    ensures { result_map_both (λ t. t.now) (λ fault. fault) result ≡ required name (child_in tree.now name) }
{
    match child_in(tree, name) {
        Some(Some(child)) => Ok(child),
        Some(None) | None => Err(ContextFault::Parameters { name }),
    }
}

/// The child that stands at most once.
pub fn optional(tree: &Tree, name: Parameter) -> Result<Option<&Tree>, ContextFault>
    ensures { result_map_both option_copied (λ fault. fault) result ≡ optional name (child_in tree.now name) }
{
    match child_in(tree, name) {
        Some(child) => Ok(child),
        None => Err(ContextFault::Parameters { name }),
    }
}

/// The child of this name: nothing where it stands more than once, an inner nothing where it isn't there.
fn child_in(tree: &Tree, name: Parameter) -> Option<Option<&Tree>>
    ensures { option_map option_copied result ≡ child_in tree.now name }
{
    child(tree, Some(COORDINATION), name.local_name())
}
