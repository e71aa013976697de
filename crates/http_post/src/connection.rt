//! The connection of a node's machine that is open.

ghost use Rattle.std.specs.Prelude.{◌≡◌, OnOk};
ghost use Rattle.std.specs.Io.{ReadsAtMost};
ghost use Rattle.std.specs.Io.KnownBytes.{ReadConsumes};
ghost use Rattle.site_model.specs.Counts.{HasCause};
ghost use Rattle.http_post.specs.Connections.{Leaves, left};

use site_model::site::Site;
use site_model::source::Failed;

#[tactic(auto, using(crate::proofs::Receives::consumes, crate::proofs::Receives::received))]
/// Reads from the connection, and says how many bytes. Zero into a nonempty buffer ends the input.
pub fn receive<S: Site>(site: &mut S, buf: &mut [u8]) -> Result<usize, Failed>
    ensures bound { ReadsAtMost result buf.new }
    ensures bytes { ReadConsumes (left (S.told site.old)) (left (S.told site.new)) result buf.new }
    ensures cause { HasCause (S.told site.old).counts.receive (S.told site.new).counts.receive result }
    ensures quiet { OnOk result ((S.told site.new).counts.receive ≡ (S.told site.old).counts.receive) }
    ensures leaves { Leaves S.told site.old site.new }
{
    site.receive(buf)
}
