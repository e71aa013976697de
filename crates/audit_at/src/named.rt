//! The transaction that an address names.

ghost use Rattle.std.specs.Prelude.{ℕ, List, ◌≡◌, IfOk, Some, is_some};
ghost use Rattle.std.specs.Option.{option_map};
ghost use Rattle.endpoints.specs.Addresses.{slash, split_at};
ghost use Rattle.audit_at.specs.Superiors.{durable_seat, item_at, named, named_at, of_kind};

use crate::item::Item;
use at_base::id::Id;
use at_base::notice::Kind;
use at_base::target::Target;
use at_base::text::Text;
use endpoints::target::target_at;
use std::alloc::{AllocError, Global};

fn at_slash(text: &str) -> Option<(&str, &str)>
    ensures { option_map (λ parts. (parts.0.now, parts.1.now)) result ≡ split_at slash text.now }
{
    text.split_once('/')
}

#[tactic(auto, using(crate::proofs::Names::is_parted))]
fn has_slash(text: &str) -> bool
    ensures { result ≡ is_some (split_at slash text.now) }
{
    at_slash(text).is_some()
}

/// What stands before the first slash.
#[tactic(auto, using(crate::proofs::Names::first_part, crate::proofs::Names::no_part))]
fn before_slash(text: &str) -> &str
    ensures { (parts : List ℕ × List ℕ) → split_at slash text.now ≡ Some parts → result.now ≡ parts.0 }
{
    match at_slash(text) {
        Some((front, _behind)) => front,
        None => text,
    }
}

/// What stands behind the first slash.
#[tactic(auto, using(crate::proofs::Names::second_part, crate::proofs::Names::no_part))]
fn behind_slash(text: &str) -> &str
    ensures { (parts : List ℕ × List ℕ) → split_at slash text.now ≡ Some parts → result.now ≡ parts.1 }
{
    match at_slash(text) {
        Some((_front, behind)) => behind,
        None => text,
    }
}

fn of_kind(id: Id, kind: Kind) -> Option<Id>
    ensures { result ≡ of_kind id kind }
{
    match kind {
        Kind::Durable => Some(id),
        Kind::Volatile => None,
    }
}

/// The transaction whose durable seat this is.
fn durable_seat(target: Target) -> Option<Id>
    ensures { result ≡ durable_seat (Some target) }
{
    match target {
        Target::Coordinator { id, seat } => of_kind(id, seat.kind),
        Target::Activation
        | Target::Registration(_)
        | Target::Completion(_)
        | Target::Participant { .. }
        | Target::Initiator(_)
        | Target::Work => None,
    }
}

fn item_at(alloc: Global, base: &str, id: Id) -> Result<Item, AllocError>
    ensures { IfOk result (λ item. item ≡ item_at base.now id) }
{
    let base = Text::copied(alloc, base)?;
    Ok(Item { base, id })
}

fn named_at(alloc: Global, address: &str, base: &str) -> Result<Option<Item>, AllocError>
    ensures { IfOk result (λ item. item ≡ named_at address.now base.now) }
{
    let Some(target) = target_at(base, address) else {
        return Ok(None);
    };
    match durable_seat(target) {
        Some(id) => {
            let item = item_at(alloc, base, id)?;
            Ok(Some(item))
        }
        None => Ok(None),
    }
}

/// The transaction that an address names as the one that accepted a durable registration. None where it names none.
#[tactic(auto, using(crate::proofs::Names::goes_further, crate::proofs::Names::found_there, crate::proofs::Names::all_passed, crate::proofs::Names::shorter))]
pub fn named(alloc: Global, address: &str) -> Result<Option<Item>, AllocError>
    ensures { IfOk result (λ item. item ≡ named address.now) }
{
    let mut base = Text::copied(alloc, "")?;
    let mut rest = address;
    while has_slash(rest) {
        base.push_str(before_slash(rest))?;
        if let Some(item) = named_at(alloc, address, base.as_str())? {
            return Ok(Some(item));
        }
        base.push_str("/")?;
        rest = behind_slash(rest);
    }
    Ok(None)
}
