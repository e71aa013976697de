//! The service or the item that a message is for.

ghost use Rattle.std.specs.Prelude.{◌≡◌};
ghost use Rattle.endpoints.specs.Addresses.{target_of};
ghost use Rattle.wire_msgs.specs.Targets.{target_at, without_query};

use addressing::destination::Destination;
use at_base::target::Target;
use endpoints::target::target_of;

/// What a message is for: what the path of its To names, or where it has none or an anonymous one, the path of the
/// request. None where the path names nothing.
///
/// The query of either is dropped, and the host of the To isn't compared.
pub fn target_at(to: &Option<Destination>, path: &str) -> Option<Target>
    ensures { result ≡ target_at to.now path.now }
{
    match to {
        Some(to) => target_of(to.path()),
        None => target_of(without_query(path)),
    }
}

fn without_query(path: &str) -> &str
    ensures { result.now ≡ without_query path.now }
{
    match path.split_once('?') {
        Some((before, _)) => before,
        None => path,
    }
}
