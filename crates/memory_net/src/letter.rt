//! Letters.

ghost use Rattle.std.specs.Prelude.{◌≡◌, ◌++◌, IfOk, OnOk, bytes_eq, map, option_map};
ghost use Rattle.site_model.specs.Told.{sent_by, sent_if};
ghost use Rattle.site_memory.specs.Entries.{call_of, mades};
ghost use Rattle.memory_net.specs.Mails.{example_host, listed, mail_of, mails_in, number_at};

use site_memory::entry::{Deed, Entry};
use std::alloc::{AllocError, Global};

/// A message as it left its sender: the numbers of the sender and of the receiver, which is 0 where no node of the net has its
/// address, and its bytes.
#[derive(Debug)]
pub struct Letter {
    pub sender: u8,
    pub receiver: u8,
    pub bytes: Vec<u8>,
}

impl Drop for Letter {
    fn drop(self) {
        let Letter {
            sender: _sender,
            receiver: _receiver,
            bytes: _bytes,
        } = self;
    }
}

/// Whether this is the host of that node.
fn is_host(alloc: Global, number: u8, host: &[u8]) -> Result<bool, AllocError>
    ensures { IfOk result (λ is. is ≡ bytes_eq host.now (example_host number)) }
{
    let name = format!(in alloc; "n{number}.example")?;
    Ok(host == name.as_bytes())
}

/// The number of the node that has this host, among so many, or 0.
#[tactic(auto, using(crate::proofs::MailLists::number_step))]
fn number_of(alloc: Global, count: u8, host: &[u8]) -> Result<u8, AllocError>
    ensures { IfOk result (λ n. n ≡ number_at count host.now) }
{
    let mut number = count;
    while number > 0 {
        if is_host(alloc, number, host)? {
            return Ok(number);
        }
        number -= 1;
    }
    Ok(0)
}

/// A post of a node.
fn posted(
    alloc: Global,
    sender: u8,
    count: u8,
    host: &[u8],
    bytes: &[u8],
) -> Result<Letter, AllocError>
    ensures { IfOk result (λ l. mail_of l ≡ record { sender = sender; receiver = number_at count host.now; bytes = bytes.now }) }
{
    Ok(Letter {
        sender,
        receiver: number_of(alloc, count, host)?,
        bytes: Vec::from_slice(alloc, bytes)?,
    })
}

/// The letter of a call, where it is a post that was done.
fn letter_of(
    alloc: Global,
    sender: u8,
    count: u8,
    entry: &Entry,
) -> Result<Option<Letter>, AllocError>
    ensures { IfOk result (λ l. listed (option_map mail_of l) ≡ mails_in sender count (sent_if entry.now.done (call_of entry.now.deed))) }
{
    match &entry.deed {
        Deed::Post {
            host,
            port: _,
            bytes,
        } => {
            if !entry.done {
                return Ok(None);
            }
            Ok(Some(posted(alloc, sender, count, host.as_slice(), bytes.as_slice())?))
        }
        _ => Ok(None),
    }
}

/// Puts the posts among these calls behind the letters.
#[tactic(auto, using(crate::proofs::MailLists::gathered))]
pub fn gather(
    alloc: Global,
    sender: u8,
    count: u8,
    calls: &[Entry],
    letters: &mut Vec<Letter>,
) -> Result<(), AllocError>
    ensures { OnOk result (map mail_of letters.new.items ≡ map mail_of letters.old.items ++ mails_in sender count (sent_by (mades calls.now))) }
{
    for entry in calls {
        if let Some(letter) = letter_of(alloc, sender, count, entry)? {
            letters.push(letter)?;
        }
    }
    Ok(())
}
