//! The lines of a report.

ghost use Rattle.std.specs.Prelude.{ℕ, ◌≡◌, ◌++◌, [], OnOk, codes};
ghost use Rattle.at_base.specs.declared.outs.Effect.TheVariants as effects;
ghost use Rattle.at_model.specs.Views.{behind_slash, line_of, message_name, path_in, receiver_number};
ghost use Rattle.replay_cmd.specs.Lines.{bytes_line, deliver_line, down_line, effect_line, end_line, forged_line, inject_line, item_line, leaf_words, message_line, message_start, no_message_line, refused_line, summary_line, tick_line, up_already_line, up_line};

use at_base::epr::Epr;
use at_base::id::Id;
use at_base::message::Message;
use at_base::notice::{Kind, Notice};
use at_base::outs::{Effect, Ending};
use effect_words::{ending_word, told_word};
use std::alloc::{AllocError, Global};
use std::marker::Model;
use world_laws::posts::Posted;

/// How a start came out.
#[derive(Clone, Copy, Debug, PartialEq, Eq)]
pub enum Started {
    /// The node is up in this incarnation.
    Up { incarnation: u32 },
    /// It stopped in it.
    Stopped,
    /// It stayed down.
    Failed,
}

/// How a turn came out.
#[derive(Clone, Copy, Debug, PartialEq, Eq)]
pub enum Outcome {
    /// It answered with this HTTP status.
    Answered { status: u16 },
    /// The node stopped in it.
    Stopped,
    /// The node halted, since a record may stand or not.
    Halted,
    /// The node was down.
    Down,
}

/// What was printed, byte by byte.
#[derive(Debug, Drop)]
pub struct Lines {
    bytes: Vec<u8>,
}

impl Model for Lines {
    ghost use Rattle.std.specs.Prelude.{ℕ, List};

    ghost Value = { List ℕ };

    ghost view = { λ l. l.bytes.items };
}

/// The local name of a message's body; of a fault, that of its code.
fn message_name(message: &Message) -> &str
    ensures { result.now ≡ message_name message.entry.now }
{
    match message {
        Message::Create(_) => "CreateCoordinationContext",
        Message::CreateResponse(_) => "CreateCoordinationContextResponse",
        Message::Register(_) => "Register",
        Message::RegisterResponse(_) => "RegisterResponse",
        Message::Notice(notice) => notice.name(),
        Message::Work(_) => "Work",
        Message::WorkDone => "WorkDone",
        Message::WorkRefused => "WorkRefused",
        Message::Fault { name } => name.as_str(),
    }
}

/// The number of a message's receiver; 0 where it has none.
fn receiver_number(receiver: Option<u8>) -> u8
    ensures { result ≡ receiver_number receiver }
{
    match receiver {
        Some(receiver) => receiver,
        None => 0,
    }
}

/// What stands from the first slash on.
fn behind_slash(bytes: &[u8]) -> &[u8]
    ensures { result.now ≡ behind_slash bytes.entry.now }
{
    for place in 0..bytes.len() {
        if bytes[place] == b'/' {
            return &bytes[place..];
        }
    }
    &[]
}

/// What stands behind the host of an http address.
fn path_in(to: &Option<Epr>) -> &[u8]
    ensures { result.now ≡ path_in to.entry.now }
{
    match to {
        Some(epr) => match epr.address.as_str().as_bytes().get(7..) {
            Some(bytes) => behind_slash(bytes),
            None => &[],
        },
        None => &[],
    }
}

impl Lines {
    /// Nothing yet.
    pub fn new(alloc: Global) -> Lines
        ensures { result ≡ [] }
    {
        Lines {
            bytes: Vec::new(alloc),
        }
    }

    /// The bytes as a slice.
    pub fn as_slice(&self) -> &[u8]
        ensures { result.now ≡ self.now }
    {
        self.bytes.as_slice()
    }

    /// The bytes.
    pub fn into_vec(self) -> Vec<u8>
        ensures { result.items ≡ self }
    {
        self.bytes
    }

    fn push(&mut self, text: &str) -> Result<(), AllocError>
        ensures { OnOk result (self.new ≡ self.old ++ text.now) }
    {
        self.bytes.extend_from_slice(text.as_bytes())
    }

    fn push_bytes(&mut self, bytes: &[u8]) -> Result<(), AllocError>
        ensures { OnOk result (self.new ≡ self.old ++ bytes.now) }
    {
        self.bytes.extend_from_slice(bytes)
    }

    /// A line, with its line feed.
    pub fn push_line(&mut self, line: &[u8]) -> Result<(), AllocError>
        ensures { OnOk result (self.new ≡ self.old ++ (line.now ++ codes "\n")) }
    {
        self.push_bytes(line)?;
        self.push("\n")
    }

    /// The bytes of a message, in hexadecimal.
    #[tactic(auto, unfolding(crate::specs::Lines::bytes_line))]
    pub fn push_hex(&mut self, alloc: Global, bytes: &[u8]) -> Result<(), AllocError>
        ensures { OnOk result (self.new ≡ self.old ++ bytes_line bytes.now) }
    {
        let digits = hex::encode(alloc, bytes)?;
        let line = format!(in alloc; "bytes {}\n", digits)?;
        self.push(line.as_str())
    }

    /// How a node's start came out.
    #[tactic(auto, unfolding(crate::specs::Lines::up_line))]
    pub fn push_up(&mut self, alloc: Global, node: u8, started: Started) -> Result<(), AllocError>
        ensures { OnOk result (self.new ≡ self.old ++ up_line node started) }
    {
        let line = match started {
            Started::Up { incarnation } => format!(in alloc; "up {} {}\n", node, incarnation)?,
            Started::Stopped => format!(in alloc; "up {} stopped\n", node)?,
            Started::Failed => format!(in alloc; "up {} failed\n", node)?,
        };
        self.push(line.as_str())
    }

    /// A node was up, and stayed so.
    #[tactic(auto, unfolding(crate::specs::Lines::up_already_line))]
    pub fn push_up_already(&mut self, alloc: Global, node: u8) -> Result<(), AllocError>
        ensures { OnOk result (self.new ≡ self.old ++ up_already_line node) }
    {
        let line = format!(in alloc; "up {} already\n", node)?;
        self.push(line.as_str())
    }

    /// A node that was up in this incarnation went down; one that wasn't stayed down.
    #[tactic(auto, unfolding(crate::specs::Lines::down_line))]
    pub fn push_down(
        &mut self,
        alloc: Global,
        node: u8,
        before: Option<u32>,
    ) -> Result<(), AllocError>
        ensures { OnOk result (self.new ≡ self.old ++ down_line node before) }
    {
        let line = match before {
            Some(_) => format!(in alloc; "down {}\n", node)?,
            None => format!(in alloc; "down {} already\n", node)?,
        };
        self.push(line.as_str())
    }

    /// A message went to a node, whose turn came out so.
    #[tactic(auto, unfolding(crate::specs::Lines::deliver_line))]
    pub fn push_deliver(
        &mut self,
        alloc: Global,
        number: u64,
        node: u8,
        outcome: Outcome,
    ) -> Result<(), AllocError>
        ensures { OnOk result (self.new ≡ self.old ++ deliver_line number node outcome) }
    {
        let line = match outcome {
            Outcome::Answered { status } => {
                format!(in alloc; "deliver {} {} {}\n", number, node, status)?
            }
            Outcome::Stopped => format!(in alloc; "deliver {} {} stopped\n", number, node)?,
            Outcome::Halted => format!(in alloc; "deliver {} {} halted\n", number, node)?,
            Outcome::Down => format!(in alloc; "deliver {} {} down\n", number, node)?,
        };
        self.push(line.as_str())
    }

    /// There is no message of this number, or no node has its address.
    #[tactic(auto, unfolding(crate::specs::Lines::no_message_line))]
    pub fn push_no_message(&mut self, alloc: Global, number: u64) -> Result<(), AllocError>
        ensures { OnOk result (self.new ≡ self.old ++ no_message_line number) }
    {
        let line = format!(in alloc; "deliver {} none\n", number)?;
        self.push(line.as_str())
    }

    /// The clock of a node came to this, in milliseconds, and its turn came out so.
    #[tactic(auto, unfolding(crate::specs::Lines::tick_line))]
    pub fn push_tick(
        &mut self,
        alloc: Global,
        node: u8,
        clock: u64,
        outcome: Outcome,
    ) -> Result<(), AllocError>
        ensures { OnOk result (self.new ≡ self.old ++ tick_line node clock outcome) }
    {
        let line = match outcome {
            Outcome::Answered { status } => {
                format!(in alloc; "tick {} {} {}\n", node, clock, status)?
            }
            Outcome::Stopped => format!(in alloc; "tick {} {} stopped\n", node, clock)?,
            Outcome::Halted => format!(in alloc; "tick {} {} halted\n", node, clock)?,
            Outcome::Down => format!(in alloc; "tick {} {} down\n", node, clock)?,
        };
        self.push(line.as_str())
    }

    /// Raw bytes came to a node, whose turn came out so.
    #[tactic(auto, unfolding(crate::specs::Lines::inject_line))]
    pub fn push_inject(
        &mut self,
        alloc: Global,
        node: u8,
        outcome: Outcome,
    ) -> Result<(), AllocError>
        ensures { OnOk result (self.new ≡ self.old ++ inject_line node outcome) }
    {
        let line = match outcome {
            Outcome::Answered { status } => format!(in alloc; "inject {} {}\n", node, status)?,
            Outcome::Stopped => format!(in alloc; "inject {} stopped\n", node)?,
            Outcome::Halted => format!(in alloc; "inject {} halted\n", node)?,
            Outcome::Down => format!(in alloc; "inject {} down\n", node)?,
        };
        self.push(line.as_str())
    }

    /// Bytes that are a message, or ask for what is due, aren't handed to a node.
    #[tactic(auto, unfolding(crate::specs::Lines::forged_line))]
    pub fn push_forged(&mut self, alloc: Global, node: u8) -> Result<(), AllocError>
        ensures { OnOk result (self.new ≡ self.old ++ forged_line node) }
    {
        let line = format!(in alloc; "inject {} forged\n", node)?;
        self.push(line.as_str())
    }

    /// A local request is refused.
    #[tactic(auto, unfolding(crate::specs::Lines::refused_line))]
    pub fn push_refused(&mut self, alloc: Global, word: &str) -> Result<(), AllocError>
        ensures { OnOk result (self.new ≡ self.old ++ refused_line word.now) }
    {
        let line = format!(in alloc; "refused {}\n", word)?;
        self.push(line.as_str())
    }

    #[tactic(auto, unfolding(crate::specs::Lines::item_line))]
    fn push_item(
        &mut self,
        alloc: Global,
        item: &str,
        node: u8,
        id: Id,
        words: &str,
    ) -> Result<(), AllocError>
        ensures { OnOk result (self.new ≡ self.old ++ item_line item.now node id words.now) }
    {
        let line = format!(in alloc; "{} {} {} {}\n", item, node, id, words)?;
        self.push(line.as_str())
    }

    #[tactic(auto, unfolding(crate::specs::Lines::leaf_words))]
    fn push_leaf(
        &mut self,
        alloc: Global,
        node: u8,
        id: Id,
        kind: Kind,
        what: Ending,
    ) -> Result<(), AllocError>
        ensures { OnOk result (self.new ≡ self.old ++ effect_line node (effects.Leaf id kind what)) }
    {
        let words = format!(in alloc; "{} {}", kind.letter(), ending_word(what))?;
        self.push_item(alloc, "leaf", node, id, words.as_str())
    }

    /// What happened for good on a node.
    pub fn push_effect(
        &mut self,
        alloc: Global,
        node: u8,
        effect: &Effect,
    ) -> Result<(), AllocError>
        ensures { OnOk result (self.new ≡ self.old ++ effect_line node effect.now) }
    {
        match effect {
            Effect::Root { id, what } => self.push_item(
                alloc,
                "root",
                node,
                *id,
                ending_word(*what),
            ),
            Effect::Sub { id, what } => self.push_item(alloc, "sub", node, *id, ending_word(*what)),
            Effect::Leaf { id, kind, what } => self.push_leaf(alloc, node, *id, *kind, *what),
            Effect::Told { id, what } => self.push_item(alloc, "told", node, *id, told_word(*what)),
        }
    }

    #[tactic(auto, unfolding(crate::specs::Lines::message_start))]
    fn push_start(
        &mut self,
        alloc: Global,
        number: usize,
        sender: u8,
        receiver: u8,
        name: &str,
    ) -> Result<(), AllocError>
        ensures { OnOk result (self.new ≡ self.old ++ message_start number sender receiver name.now) }
    {
        let start = format!(in alloc; "msg {} {}>{} {} ", number, sender, receiver, name)?;
        self.push(start.as_str())
    }

    fn push_path(&mut self, path: &[u8]) -> Result<(), AllocError>
        ensures { OnOk result (self.new ≡ self.old ++ (path.now ++ codes "\n")) }
    {
        self.push_bytes(path)?;
        self.push("\n")
    }

    /// A message that was posted, by its number.
    pub fn push_message(
        &mut self,
        alloc: Global,
        number: usize,
        posted: &Posted,
    ) -> Result<(), AllocError>
        ensures { OnOk result (self.new ≡ self.old ++ message_line number (line_of posted.now)) }
    {
        let receiver = receiver_number(posted.receiver);
        let name = message_name(&posted.content.message);
        let path = path_in(&posted.content.to);
        self.push_start(alloc, number, posted.sender, receiver, name)?;
        self.push_path(path)
    }

    /// How many messages were posted, and how many subordinates and durable leaves ended in each way.
    #[tactic(auto, unfolding(crate::specs::Lines::end_line))]
    pub fn push_end(
        &mut self,
        alloc: Global,
        messages: usize,
        committed: usize,
        aborted: usize,
        lost: usize,
    ) -> Result<(), AllocError>
        ensures { OnOk result (self.new ≡ self.old ++ end_line messages committed aborted lost) }
    {
        let line = format!(in alloc;
            "end messages {} committed {} aborted {} lost {}\n",
            messages, committed, aborted, lost
        )?;
        self.push(line.as_str())
    }

    /// The same of a world of so many lines that were made of a seed.
    #[tactic(auto, unfolding(crate::specs::Lines::summary_line))]
    pub fn push_summary(
        &mut self,
        alloc: Global,
        steps: u16,
        messages: usize,
        committed: usize,
        aborted: usize,
        lost: usize,
    ) -> Result<(), AllocError>
        ensures { OnOk result (self.new ≡ self.old ++ summary_line steps messages committed aborted lost) }
    {
        let line = format!(in alloc;
            "steps {} messages {} committed {} aborted {} lost {}\n",
            steps, messages, committed, aborted, lost
        )?;
        self.push(line.as_str())
    }
}
