//! What is asked of a node is done by it on its machine, and read off that.

ghost use Rattle.std.specs.Prelude.{◌≡◌, IfOk, map};
ghost use Rattle.memory_net.specs.Calls.{IsServing};
ghost use Rattle.memory_net.specs.Mails.{mail_of};
ghost use Rattle.mirrored_nets.specs.Took.{AnswersSo, EndsSo, HasRoom};
ghost use Rattle.node_at.specs.declared.local.Locally.TheVariants as answers;
ghost use Rattle.node_at.specs.declared.turn.Turned.TheVariants as turneds;
ghost use Rattle.read_calls.specs.IsRead.{fates_of};
ghost use Rattle.reading_laws.specs.RequestsAreRead.{IsRequestHere};
ghost use Rattle.reading_laws.specs.TurnsAreRead.{IsTurnHere};
ghost use Rattle.asked_nets.specs.Behind.{goes_anew};
ghost use Rattle.asked_nets.specs.DidRequest.{DidRequest, ReadRequest};
ghost use Rattle.asked_nets.specs.DidTurn.{DidTurn, ReadTurn};
ghost use Rattle.asked_nets.specs.Halts.{halts, halts_locally};
ghost use Rattle.asked_nets.specs.Unmet.{IsntApart};

use crate::fault::Undone;
use crate::left::{came_to, kept_of, left};
use crate::made::{counts_of, made_since, told};
use at_base::event::Local;
use memory_net::host::Host;
use memory_net::letter::{Letter, gather};
use memory_net::machine::{ask, turn};
use mirrored_nets::armed::Armed;
use mirrored_nets::came::Came;
use node_at::local::Locally;
use node_at::node::Node;
use node_at::turn::Turned;
use read_calls::reading::{Reading, read};
use reading_laws::laws::{requests_are_read, turns_are_read};
use site_memory::machine::MemSite;
use std::alloc::Global;

/// A host behind what it did, as what its calls are read, and how many there are.
#[derive(Drop)]
pub(crate) struct Did {
    pub(crate) host: Host,
    pub(crate) reading: Reading,
    pub(crate) calls: usize,
}

/// Whether a turn halted.
fn halts(turned: Turned) -> bool
    ensures { result ≡ halts turned }
{
    match turned {
        Turned::Halted => true,
        _ => false,
    }
}

/// Whether a turn ended as that says.
fn ends(came: Came, turned: Turned) -> Result<(), Undone>
    ensures ends { IfOk result (λ _. EndsSo came turned) }
    ensures whole { EndsSo came turned → IsntApart result }
{
    match (came, turned) {
        (Came::Halts, Turned::Halted) => Ok(()),
        (Came::Stays | Came::Falls { .. }, Turned::Ticked) => Ok(()),
        (Came::Stays | Came::Falls { .. }, Turned::Served { status }) => {
            if status == 0 {
                Err(Undone::Apart)
            } else {
                Ok(())
            }
        }
        _ => Err(Undone::Apart),
    }
}

/// Whether there was memory for a request.
fn had_room(locally: &Locally) -> Result<(), Undone>
    ensures room { IfOk result (λ _. locally.now ≡ answers.NoRoom → ⊥) }
    ensures memory { IsntApart result }
{
    match locally {
        Locally::NoRoom => Err(Undone::NoMemory),
        _ => Ok(()),
    }
}

/// Whether a request halted.
fn halts_locally(locally: Locally) -> bool
    ensures { result ≡ halts_locally locally }
{
    match locally {
        Locally::Halted => true,
        _ => false,
    }
}

/// Whether a request ended as that says.
fn answers(came: Came, locally: Locally) -> Result<(), Undone>
    ensures answers { IfOk result (λ _. AnswersSo came locally) }
    ensures whole { AnswersSo came locally → IsntApart result }
{
    match (came, locally) {
        (Came::Halts, Locally::Halted) => Ok(()),
        (Came::Stays | Came::Falls { .. }, Locally::Done { .. } | Locally::Refused { .. }) => Ok(
            (),
        ),
        _ => Err(Undone::Apart),
    }
}

/// The turn of a connection that brings these bytes, before whose first step so many calls come, with that call armed. Its posts are put behind the
/// letters.
pub(crate) fn take(
    alloc: Global,
    node: Node,
    site: MemSite,
    number: u8,
    count: u8,
    lines: usize,
    bytes: &[u8],
    armed: Armed,
    letters: &mut Vec<Letter>,
) -> Result<Did, Undone>
    requires serving { IsServing node }
    requires room { HasRoom site }
    ensures did { IfOk result (λ d. DidTurn number count lines bytes.now node site d.host (map mail_of letters.old.items) (map mail_of letters.new.items) (goes_anew d.reading.became) d.calls) }
    ensures read { IsTurnHere number count lines bytes.now node site armed
        → IfOk result (λ d. ReadTurn armed number count lines bytes.now node site d.host (map mail_of letters.old.items) (map mail_of letters.new.items) (fates_of d.reading.fates) d.reading.until (goes_anew d.reading.became) d.calls) }
    ensures there { IsTurnHere number count lines bytes.now node site armed → IsntApart result }
{
    turns_are_read();
    let mut after = node;
    let mut machine = site;
    let before = counts_of(&machine);
    let Ok(turned) = turn(alloc, &mut after, &mut machine, bytes) else {
        return Err(Undone::NoMemory);
    };
    let calls = told(lines, &before, turned, &after, &machine)?;
    let many = calls.len();
    let reading = read(lines, calls, armed, halts(turned));
    let came = came_to(reading.became);
    ends(came, turned)?;
    let Ok(()) = gather(alloc, number, count, kept_of(came, calls), letters) else {
        return Err(Undone::NoMemory);
    };
    let host = left(came, after, machine, before.calls)?;
    Ok(Did {
        host,
        reading,
        calls: many,
    })
}

/// A request of its own program, with that call armed.
pub(crate) fn request(
    alloc: Global,
    node: Node,
    site: MemSite,
    number: u8,
    count: u8,
    local: &Local,
    armed: Armed,
    letters: &mut Vec<Letter>,
) -> Result<Did, Undone>
    requires serving { IsServing node }
    requires room { HasRoom site }
    ensures did { IfOk result (λ d. DidRequest number count local.now node site d.host (map mail_of letters.old.items) (map mail_of letters.new.items) d.calls) }
    ensures read { IsRequestHere number count local.now node site armed
        → IfOk result (λ d. ReadRequest armed number count local.now node site d.host (map mail_of letters.old.items) (map mail_of letters.new.items) (fates_of d.reading.fates) d.reading.until d.calls) }
    ensures there { IsRequestHere number count local.now node site armed → IsntApart result }
{
    requests_are_read();
    let mut after = node;
    let mut machine = site;
    let before = counts_of(&machine);
    let locally = ask(alloc, &mut after, &mut machine, local);
    let calls = made_since(&before, &machine)?;
    let many = calls.len();
    had_room(&locally)?;
    let reading = read(0, calls, armed, halts_locally(locally));
    let came = came_to(reading.became);
    answers(came, locally)?;
    let Ok(()) = gather(alloc, number, count, kept_of(came, calls), letters) else {
        return Err(Undone::NoMemory);
    };
    let host = left(came, after, machine, before.calls)?;
    Ok(Did {
        host,
        reading,
        calls: many,
    })
}
