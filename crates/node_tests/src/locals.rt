//! Local requests.

ghost use Rattle.node_at.specs.State.{IsNode, seen};

use crate::nodes::started;
use at_base::event::Local;
use at_base::id::Id;
use at_base::text::Text;
use completion_at::requests::Refusal;
use node_at::local::Locally;
use node_at::node::Node;
use site_memory::machine::MemSite;
use std::alloc::Global;
use std::test::Fail;

fn begin(alloc: Global, node: &mut Node, site: &mut MemSite) -> Locally
    requires { IsNode (seen node.old) }
    ensures { IsNode (seen node.new) }
{
    match Text::copied(alloc, "http://n2.example") {
        Ok(coordinator) => {
            let request = Local::Begin { coordinator, ms: 0 };
            node.local(alloc, site, &request)
        }
        Err(_) => Locally::NoRoom,
    }
}

/// Whether the first activity is begun as 1-1, and asks its coordinator, and nothing is recorded.
fn begins(alloc: Global) -> bool {
    let mut site = MemSite::new(alloc);
    let Ok(mut node) = started(alloc, &mut site, 1000) else {
        return false;
    };
    let answer = begin(alloc, &mut node, &mut site);
    let id = Id::new(1, 1);
    answer == Locally::Done { id }
        && site.posts().len() == 1
        && site.file(0).len() == 21
        && node.effects().is_empty()
}

/// Whether an activity that isn't active can't commit, and one that isn't there neither.
fn refuses(alloc: Global) -> bool {
    let mut site = MemSite::new(alloc);
    let Ok(mut node) = started(alloc, &mut site, 1000) else {
        return false;
    };
    let _begun = begin(alloc, &mut node, &mut site);
    let early = Local::Commit {
        activity: Id::new(1, 1),
    };
    let stranger = Local::Rollback {
        activity: Id::new(1, 2),
    };
    let stale = Locally::Refused {
        why: Refusal::Stale,
    };
    let first = node.local(alloc, &mut site, &early);
    let second = node.local(alloc, &mut site, &stranger);
    first == stale && second == stale && site.posts().len() == 1
}

/// The answer to the last of so many Begins.
fn last(alloc: Global, count: u32) -> Locally {
    let mut site = MemSite::new(alloc);
    let Ok(mut node) = started(alloc, &mut site, 1000) else {
        return Locally::NoRoom;
    };
    let mut answer = Locally::NoRoom;
    for _time in 0..count {
        answer = begin(alloc, &mut node, &mut site);
    }
    answer
}

#[test]
fn a_begin_is_done(rt: HostRuntime) -> Result<(), Fail> {
    let right = begins(rt.alloc());
    assert!(rt; right, "begin");
    Ok(())
}

#[test]
fn a_stale_request_is_refused(rt: HostRuntime) -> Result<(), Fail> {
    let right = refuses(rt.alloc());
    assert!(rt; right, "commit");
    Ok(())
}

#[test]
fn a_node_has_256_activities(rt: HostRuntime) -> Result<(), Fail> {
    let most = last(rt.alloc(), 256);
    let more = last(rt.alloc(), 257);
    let id = Id::new(1, 256);
    let full = Locally::Refused { why: Refusal::Full };
    assert!(rt; most == Locally::Done { id } && more == full, "activities");
    Ok(())
}
