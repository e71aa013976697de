//! How a node starts.

ghost use Rattle.std.specs.Prelude.{◌≡◌, [], false, IfOk};
ghost use Rattle.decision_log.specs.KeptState.{known};
ghost use Rattle.node_at.specs.StartedNodes.{Starts};
ghost use Rattle.node_at.specs.State.{IsNode, seen};
ghost use Rattle.node_at.specs.declared.shrink.Shrunk.TheVariants.{NotDue};

use crate::fault::StartFault;
use crate::laws::promises_stay;
use crate::node::Node;
use crate::opened_journal::{Opened, open};
use crate::role::Role;
use crate::shrink::Shrunk;
use at_base::text::Text;
use decision_log::fold::grows_by_one;
use decision_log::shrink::shrinks_the_same;
use interposition::book::Book;
use model_laws::rules::{ids_rise, records_are_well_formed};
use recovery::recover::recover;
use site_model::site::Site;
use std::alloc::Global;

fn node_of(alloc: Global, book: Book, opened: Opened, role: Role) -> Node
    ensures seen { seen result ≡ record { book = book; kept = known opened.kept; journal = opened.journal; effects = []; halted = false } }
    ensures role { result.role ≡ role }
    ensures shrunk { result.shrunk ≡ NotDue }
{
    let Opened { journal, kept, .. } = opened;
    Node {
        book,
        kept,
        journal,
        effects: Vec::new(alloc),
        halted: false,
        role,
        shrunk: Shrunk::NotDue,
    }
}

/// Starts a node on its machine's files, whose texts may have at most so many bytes.
///
/// Where no file has a body, a file of version 2 is begun; one of version 1 is written anew in version 2. Then the Start of
/// the next incarnation is recorded. The base has at most 1,024 bytes, each in 33 to 126.
pub fn start<S: Site>(
    alloc: Global,
    site: &mut S,
    base: &Text,
    role: Role,
    limit: u32,
) -> Result<Node, StartFault>
    ensures starts { Starts result base.now role limit (S.told site.old) (S.told site.new) }
    ensures node { IfOk result (λ n. IsNode (seen n)) }
    ensures shrunk { IfOk result (λ n. n.shrunk ≡ NotDue) }
{
    grows_by_one();
    ids_rise();
    promises_stay();
    records_are_well_formed();
    shrinks_the_same();
    let mut opened = match open(alloc, site, limit) {
        Ok(opened) => opened,
        Err(fault) => return Err(fault),
    };
    let incarnation = match opened.next(limit) {
        Ok(incarnation) => incarnation,
        Err(fault) => return Err(fault),
    };
    let book = match recover(alloc, base, &opened.kept, incarnation) {
        Ok(book) => book,
        Err(_) => return Err(StartFault::NoMemory),
    };
    match opened.begin(alloc, site, incarnation) {
        Ok(()) => Ok(node_of(alloc, book, opened, role)),
        Err(fault) => Err(fault),
    }
}
