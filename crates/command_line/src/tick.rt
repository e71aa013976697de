//! What `tick` does.

ghost use Rattle.std.specs.Prelude.{◌≡◌, IsTrue, nat_eq, Ok, Err, ◌∷◌, []};
ghost use Rattle.std.specs.List.{list_any};
ghost use Rattle.site_model.specs.Counts.{Rose};
ghost use Rattle.command_line.specs.Ticks.{FailedToTick, HasTicked};

use crate::run::{DONE, LINK_FAILED, NO_MEMORY};
use addressing::post_to::PostTo;
use http_post::writer::tick_bytes;
use site_model::site::Site;
use std::alloc::Global;

/// Posts what asks a node for what is due, and gives the status.
pub(crate) fn tick<H: Site>(alloc: Global, to: &PostTo, site: &mut H) -> u8
    ensures statuses { IsTrue (list_any (nat_eq result) (0 ∷ 8 ∷ 9 ∷ [])) }
    ensures ticked { result ≡ 0 → HasTicked to.now (H.told site.old) (H.told site.new) }
    ensures failed { result ≡ 8 → FailedToTick to.now (H.told site.old) (H.told site.new) }
    ensures cause { result ≡ 8 → Rose (H.told site.old).counts.link (H.told site.new).counts.link }
    ensures memory { result ≡ 9 → site.new ≡ site.old }
{
    let bytes = match tick_bytes(alloc, to) {
        Ok(bytes) => bytes,
        Err(_) => return NO_MEMORY,
    };
    match site.post(to.host.as_str(), to.port, bytes.as_slice()) {
        Ok(()) => DONE,
        Err(_) => LINK_FAILED,
    }
}
