use crate::shared::{epr, optional, part};
use arrivals::book_arrival::arrived;
use at_base::epr::{Epr, Reply};
use at_base::event::Arrived;
use at_base::message::{Message, Register};
use at_base::target::Target;
use at_base::text::Text;
use std::alloc::{AllocError, Global};
use std::test::Fail;
use wire_msgs::decode::Arrival;

/// A Register of this participant, and other messages where it is empty.
fn message(alloc: Global, participant: &str) -> Result<Message, AllocError> {
    if participant.is_empty() {
        return Ok(Message::WorkDone);
    }
    let protocol = Text::copied(alloc, "urn:p")?;
    let participant = epr(alloc, participant)?;
    Ok(Message::Register(Register {
        protocol,
        participant,
    }))
}

/// The From, ReplyTo and FaultTo of an arrival.
struct Ends {
    from: Option<Epr>,
    reply: Option<Epr>,
    fault: Option<Epr>,
}

impl Drop for Ends {
    fn drop(self) {
        let Ends {
            from: _from,
            reply: _reply,
            fault: _fault,
        } = self;
    }
}

fn ends_of(alloc: Global, from: &str, reply: &str, fault: &str) -> Result<Ends, AllocError> {
    let from = optional(alloc, from)?;
    let reply = optional(alloc, reply)?;
    let fault = optional(alloc, fault)?;
    Ok(Ends { from, reply, fault })
}

impl Ends {
    fn arrival(self, message: Message) -> Arrival {
        let Ends { from, reply, fault } = self;
        Arrival {
            message,
            target: Target::Activation,
            to: None,
            id: None,
            relates: None,
            from,
            reply,
            fault,
        }
    }
}

/// What reaches the book of the addresses of From, ReplyTo, FaultTo and of a participant.
fn came(alloc: Global, row: &[&str; 5]) -> Result<Arrived, AllocError> {
    let message = message(alloc, row[3])?;
    let ends = ends_of(alloc, row[0], row[1], row[2])?;
    arrived(alloc, ends.arrival(message))
}

fn reply_word(reply: &Reply) -> &str {
    match reply {
        Reply::Anonymous => "anonymous",
        Reply::Nobody => "nobody",
        Reply::At(epr) => epr.address.as_str(),
    }
}

fn from_word(from: &Option<Epr>) -> &str {
    match from {
        Some(epr) => epr.address.as_str(),
        None => "absent",
    }
}

fn postable_word(postable: bool) -> &'static str {
    if postable { "postable" } else { "unpostable" }
}

fn is_arrived(came: &Arrived, words: &str) -> bool {
    from_word(&came.from) == part(words, ' ', 0)
        && reply_word(&came.reply) == part(words, ' ', 1)
        && reply_word(&came.fault) == part(words, ' ', 2)
        && postable_word(came.postable) == part(words, ' ', 3)
}

fn is_right(alloc: Global, row: &[&str; 5]) -> Result<bool, AllocError> {
    let came = came(alloc, row)?;
    Ok(is_arrived(&came, row[4]))
}

const ANONYMOUS: &str = "http://www.w3.org/2005/08/addressing/anonymous";

const NONE: &str = "http://www.w3.org/2005/08/addressing/none";

/// The addresses of From, ReplyTo, FaultTo and of the participant of a Register, each empty where it isn't there, and what
/// reaches the book.
const ARRIVALS: &[[&str; 5]] = &[
    ["", "", "", "", "absent anonymous anonymous postable"],
    [
        "http://a/",
        "",
        "",
        "",
        "http://a/ anonymous anonymous postable",
    ],
    [
        "https://a/",
        "",
        "",
        "",
        "absent anonymous anonymous postable",
    ],
    ["urn:a", "", "", "", "absent anonymous anonymous postable"],
    ["", ANONYMOUS, "", "", "absent anonymous anonymous postable"],
    ["", NONE, "", "", "absent nobody nobody postable"],
    [
        "",
        "http://r/",
        "",
        "",
        "absent http://r/ http://r/ postable",
    ],
    [
        "",
        "http://r/",
        NONE,
        "",
        "absent http://r/ nobody postable",
    ],
    [
        "",
        "http://r/",
        ANONYMOUS,
        "",
        "absent http://r/ anonymous postable",
    ],
    [
        "",
        "",
        "http://f/",
        "",
        "absent anonymous http://f/ postable",
    ],
    [
        "",
        "",
        "",
        "http://p/",
        "absent anonymous anonymous postable",
    ],
    [
        "",
        "",
        "",
        "https://p/",
        "absent anonymous anonymous unpostable",
    ],
    ["", "", "", "urn:p", "absent anonymous anonymous unpostable"],
];

#[test]
fn arrivals_reach_the_book(rt: HostRuntime) -> Result<(), Fail> {
    for row in ARRIVALS {
        let right = is_right(rt.alloc(), row)?;
        assert!(rt; right, "from {} reply {} fault {}", row[0], row[1], row[2]);
    }
    Ok(())
}
