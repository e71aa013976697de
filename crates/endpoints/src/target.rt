//! What an address names on a node, and which messages that takes (this project's profile).

ghost use Rattle.std.specs.Prelude.{◌≡◌, ◌^◌};
ghost use Rattle.std.specs.Option.{option_map};
ghost use Rattle.endpoints.specs.Addresses.{PathsNameTargets, after_prefix, behind, id_of, number_of, seat_of, slash, split_at, target_of, target_at};
ghost use Rattle.endpoints.specs.Forms.{takes};
ghost use Rattle.endpoints.specs.Paths.{id_behind, item_of, participant_of, party_of};

use crate::form::{Form, takes_any};
use at_base::id::Id;
use at_base::message::Message;
use at_base::notice::Kind;
use at_base::target::{Seat, Target};

/// The target on the node at this base that an address names. None where it names none there.
pub fn target_at(base: &str, address: &str) -> Option<Target>
    ensures { result ≡ target_at base.now address.now }
{
    target_of(behind(base, address)?)
}

/// The target that a path names. None where it names none.
pub fn target_of(path: &str) -> Option<Target>
    ensures { result ≡ target_of path.now }
{
    match path {
        "/activation" => Some(Target::Activation),
        "/work" => Some(Target::Work),
        _ => item_of(path),
    }
}

fn item_of(path: &str) -> Option<Target>
    ensures { result ≡ item_of path.now }
{
    if let Some(id) = id_behind("/registration/", path) {
        return Some(Target::Registration(id));
    }
    if let Some(id) = id_behind("/completion/", path) {
        return Some(Target::Completion(id));
    }
    if let Some(id) = id_behind("/i/", path) {
        return Some(Target::Initiator(id));
    }
    party_of(path)
}

fn party_of(path: &str) -> Option<Target>
    ensures { result ≡ party_of path.now }
{
    if let Some(seat) = seat_behind("/c/d/", Kind::Durable, path) {
        return Some(seat);
    }
    if let Some(seat) = seat_behind("/c/v/", Kind::Volatile, path) {
        return Some(seat);
    }
    participant_of(path)
}

fn participant_of(path: &str) -> Option<Target>
    ensures { result ≡ participant_of path.now }
{
    if let Some(id) = id_behind("/p/d/", path) {
        return Some(Target::Participant {
            id,
            kind: Kind::Durable,
        });
    }
    let id = id_behind("/p/v/", path)?;
    Some(Target::Participant {
        id,
        kind: Kind::Volatile,
    })
}

fn id_behind(prefix: &str, path: &str) -> Option<Id>
    ensures { result ≡ id_behind prefix.now path.now }
{
    read_id(behind(prefix, path)?)
}

fn seat_behind(prefix: &str, kind: Kind, path: &str) -> Option<Target>
    ensures { result ≡ behind prefix.now (seat_of kind) path.now }
{
    read_seat(kind, behind(prefix, path)?)
}

#[tactic(auto, using(crate::proofs::TextSplits::stripped))]
fn behind<'a>(prefix: &str, path: &'a str) -> Option<&'a str>
    ensures { option_map (λ rest. rest.now) result ≡ after_prefix prefix.now path.now }
{
    path.strip_prefix(prefix)
}

#[tactic(auto, using(crate::proofs::Numbers::id_read))]
fn read_id(text: &str) -> Option<Id>
    ensures { result ≡ id_of text.now }
{
    Id::read(text.as_bytes())
}

fn read_seat(kind: Kind, text: &str) -> Option<Target>
    ensures { result ≡ seat_of kind text.now }
{
    let (id, number) = at_slash(text)?;
    let id = read_id(id)?;
    let number = read_number(number)?;
    Some(Target::Coordinator {
        id,
        seat: Seat { number, kind },
    })
}

fn at_slash(text: &str) -> Option<(&str, &str)>
    ensures { option_map (λ parts. (parts.0.now, parts.1.now)) result ≡ split_at slash text.now }
{
    text.split_once('/')
}

/// The number of a seat, 1 to 65,535 in decimal without sign or leading zeros.
fn read_number(text: &str) -> Option<u16>
    ensures { result ≡ number_of (2 ^ 16) text.now }
{
    let first = *text.as_bytes().first()?;
    if first == b'0' || first == b'+' {
        return None;
    }
    text.parse().ok()
}

/// Whether a target takes a message of this kind (WS-Coordination 1.2, section 3; WS-AtomicTransaction 1.2, section 3).
pub fn takes(target: Target, message: &Message) -> bool
    ensures { result ≡ takes target message.now }
{
    takes_any(target, Form::of(message))
}

/// The path of a target names it, and no other path does.
#[tactic(auto, using(crate::proofs::Inverses::paths_name_targets))]
pub fn paths_name_targets()
    ensures { PathsNameTargets }
{}
