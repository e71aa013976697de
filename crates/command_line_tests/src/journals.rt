//! What the journals that the nodes of a schedule have at its end say together.

use crate::top_call::{printed, text_of};
use journal_page::hex_line::hex_line;
use memory_net::host::Host;
use net_plays::play_error::PlayError;
use net_plays::replay::{Replayed, replay};
use replay_cmd::laws::{what_is_read_is_replayable, what_is_read_is_within};
use replay_cmd::options::Options;
use schedules::line::ScheduleError;
use schedules::reader::read_schedule;
use std::alloc::{AllocError, Global};

/// The report of a schedule, and its nodes. None where the text is none.
fn replayed(alloc: Global, text: &[u8]) -> Result<Option<Replayed>, AllocError> {
    what_is_read_is_replayable();
    what_is_read_is_within();
    let schedule = match read_schedule(alloc, text) {
        Ok(schedule) => schedule,
        Err(ScheduleError::Bad(_)) => return Ok(None),
        Err(ScheduleError::OutOfMemory) => return Err(AllocError),
    };
    let options = Options {
        settle: false,
        bytes: false,
    };
    match replay(alloc, &schedule, options) {
        Ok(replayed) => Ok(Some(replayed)),
        Err(PlayError::NoMemory) => Err(AllocError),
        Err(_) => Ok(None),
    }
}

/// The journals of these nodes, as an audit reads them.
fn journals_of(alloc: Global, hosts: &[Host]) -> Result<String, AllocError> {
    let mut journals = String::new(alloc);
    for place in 0..hosts.len() {
        let site = hosts[place].site();
        let node = place.saturating_add(1);
        let base = format!(in alloc; "http://n{node}.example")?;
        let line = hex_line(alloc, base.as_str(), site.file(0), site.file(1))?;
        journals.push_str(line.as_str())?;
    }
    Ok(journals)
}

/// Whether the journals of the schedule's nodes agree, as `audit` finds.
pub fn agreed(alloc: Global, text: &[u8]) -> Result<bool, AllocError> {
    let Some(replayed) = replayed(alloc, text)? else {
        return Ok(false);
    };
    let journals = journals_of(alloc, replayed.net.hosts())?;
    let verdict = printed(alloc, "audit", journals.as_str().as_bytes())?;
    Ok(text_of(verdict.as_slice()).starts_with("agreed "))
}
