//! The machine of a node before an event, and behind a crash.

ghost use Rattle.std.specs.Prelude.{◌≡◌, false, true};
ghost use Rattle.mirrored_nets.specs.Goings.{IsSet, WentDown};
ghost use Rattle.mirrored_nets.specs.Took.{HasRoom, IsFull};
ghost use Rattle.mirrored_nets.specs.ToldMachines.{IsReady, IsToldOf};

use crate::armed::Armed;
use memory_net::host::Host;
use site_memory::arm::Choice;
use site_memory::machine::MemSite;

/// The most bytes of a file to which a record of any length may still be added.
const MOST: usize = 4_293_907_285;

/// Whether both files have room for another record.
pub fn has_room(site: &MemSite) -> bool
    ensures room { result ≡ true → HasRoom site.now }
    ensures full { result ≡ false → IsFull site.now }
{
    site.file(0).len() <= MOST && site.file(1).len() <= MOST
}

/// The machine at that time, with a failure armed, or none. A stop is no failure: the machine goes back to it behind the event.
pub fn set(site: MemSite, armed: Armed, now: u64) -> MemSite
    ensures set { IsSet now site result }
    ensures told { IsReady site → IsToldOf armed result }
{
    let mut site = site;
    match armed {
        Armed::Fail(call) => site.fail(call),
        Armed::No | Armed::Stop(..) => site.fail(0),
    }
    site.set_now(now);
    site
}

/// A node that goes down between calls.
pub fn go_down(site: MemSite) -> Host
    ensures { WentDown site result }
{
    let mut machine = site;
    machine.crash(Choice::Drop);
    Host::of(None, machine)
}
