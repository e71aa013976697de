//! Nodes whose posts are carried by hand.

use crate::lines::{effect_line, post_line, receiver, record_line, refusal_name};
use crate::words::{base_of, local_in, number, span, target_in, word};
use at_base::epr::Reply;
use at_base::event::{Arrived, Event, Item, Local};
use at_base::message::Message;
use at_base::outs::{Effects, Out, OutList, Outs, Post};
use at_base::record::Record;
use at_base::target::Target;
use interposition::book::Book;
use std::alloc::{AllocError, Global};
use std::mem::replace;

/// A node: its book, and its clock in milliseconds.
struct Node {
    book: Book,
    clock: u64,
}

impl Drop for Node {
    fn drop(self) {
        let Node {
            book: _book,
            clock: _clock,
        } = self;
    }
}

/// Nodes at http://n1.example, http://n2.example and so on, what they posted, and what happened, a line each.
pub struct Net {
    nodes: Vec<Node>,
    posts: Vec<Post>,
    /// How many messages, from the first one on, were delivered or passed over.
    carried: usize,
    /// Whether the next record is refused by the disk.
    fails: bool,
    log: String,
}

impl Drop for Net {
    fn drop(self) {
        let Net {
            nodes: _nodes,
            posts: _posts,
            carried: _carried,
            fails: _fails,
            log: _log,
        } = self;
    }
}

/// What a step recorded and sent.
struct Stepped {
    entry: String,
    outs: Outs,
}

impl Drop for Stepped {
    fn drop(self) {
        let Stepped {
            entry: _entry,
            outs: _outs,
        } = self;
    }
}

/// A message as it reaches a node.
struct Arrival {
    node: usize,
    event: Event,
}

impl Drop for Arrival {
    fn drop(self) {
        let Arrival {
            node: _node,
            event: _event,
        } = self;
    }
}

/// No FaultTo is written, so faults go where replies go.
fn arrived(mut post: Post, fault: Reply) -> Arrived {
    let target = target_of(&post);
    Arrived {
        target,
        id: post.id.take(),
        relates: post.relates.take(),
        from: post.from.take(),
        reply: post.reply.take().unwrap_or(Reply::Anonymous),
        fault,
        postable: true,
        message: replace(&mut post.message, Message::WorkDone),
    }
}

fn target_of(post: &Post) -> Target {
    target_in(receiver(post).1)
}

fn reply_of(post: &Post) -> Result<Reply, AllocError> {
    match &post.reply {
        Some(reply) => reply.clone(),
        None => Ok(Reply::Anonymous),
    }
}

fn arrival_of(post: &Post) -> Result<Arrival, AllocError> {
    let fault = reply_of(post)?;
    let copy = post.clone()?;
    Ok(Arrival {
        node: number(receiver(post).0, 0),
        event: Event::Arrived(arrived(copy, fault)),
    })
}

/// The record of a plan, and whether it landed.
fn entry_line(
    alloc: Global,
    node: usize,
    entry: Option<&Record>,
    fails: bool,
) -> Result<String, AllocError> {
    match entry {
        Some(entry) => {
            let line = record_line(alloc, entry)?;
            let word = if fails { "absent" } else { "record" };
            format!(in alloc; "{word} {node} {line}\n")
        }
        None => Ok(String::new(alloc)),
    }
}

/// What a book records at an event.
fn recorded(
    alloc: Global,
    node: usize,
    at: &Node,
    event: &Event,
    fails: bool,
) -> Result<String, AllocError> {
    let plan = at.book.plan(alloc, event, at.clock)?;
    entry_line(alloc, node, plan.entry(), fails)
}

/// What a book sends at an event.
fn done(alloc: Global, at: &mut Node, event: &Event, fails: bool) -> Result<Outs, AllocError> {
    let plan = at.book.plan(alloc, event, at.clock)?;
    Ok(at.book.apply(plan, !fails))
}

fn both(
    alloc: Global,
    node: usize,
    at: &mut Node,
    event: &Event,
    fails: bool,
) -> Result<Stepped, AllocError> {
    let entry = recorded(alloc, node, at, event, fails)?;
    let outs = done(alloc, at, event, fails)?;
    Ok(Stepped { entry, outs })
}

fn new_book(alloc: Global, node: &str, incarnation: u32) -> Result<Book, AllocError> {
    let base = base_of(alloc, node)?;
    Book::recover(alloc, &base, &[], &[], incarnation.max(1))
}

fn new_nodes(alloc: Global) -> Result<Vec<Node>, AllocError> {
    let mut nodes = Vec::new(alloc);
    for node in "1 2 3 4 5".split(' ') {
        let book = new_book(alloc, node, 1)?;
        nodes.push(Node { book, clock: 0 })?;
    }
    Ok(nodes)
}

/// No answer, and no node.
fn nothing(alloc: Global) -> Stepped {
    Stepped {
        entry: String::new(alloc),
        outs: Outs {
            outs: OutList::from_vec(Vec::new(alloc)),
            effects: Effects::from_vec(Vec::new(alloc)),
        },
    }
}

fn status_of(outs: &Outs) -> u16 {
    match outs.outs.as_slice().first() {
        Some(Out::Answer { status, .. }) => *status,
        _ => 0,
    }
}

impl Net {
    /// Five nodes, each for the first time.
    fn new(alloc: Global) -> Result<Net, AllocError> {
        let nodes = new_nodes(alloc)?;
        Ok(Net {
            nodes,
            posts: Vec::new(alloc),
            carried: 0,
            fails: false,
            log: String::new(alloc),
        })
    }

    fn note(&mut self, line: &str) -> Result<(), AllocError> {
        self.log.push_str(line)?;
        self.log.push_str("\n")
    }

    fn keep(&mut self, post: &Post) -> Result<(), AllocError> {
        let copy = post.clone()?;
        self.posts.push(copy)?;
        Ok(())
    }

    fn post(&mut self, alloc: Global, sender: usize, post: &Post) -> Result<(), AllocError> {
        let number = self.posts.len().saturating_add(1);
        let line = post_line(alloc, number, sender, post)?;
        self.note(line.as_str())?;
        self.keep(post)
    }

    /// An answer on the connection isn't carried.
    fn send(&mut self, alloc: Global, sender: usize, out: &Out) -> Result<(), AllocError> {
        match out {
            Out::Post(post) => self.post(alloc, sender, post),
            Out::Answer { .. } => Ok(()),
        }
    }

    fn send_all(&mut self, alloc: Global, sender: usize, outs: &[Out]) -> Result<(), AllocError> {
        for out in outs {
            self.send(alloc, sender, out)?;
        }
        Ok(())
    }

    fn note_effects(
        &mut self,
        alloc: Global,
        node: usize,
        effects: &Effects,
    ) -> Result<(), AllocError> {
        for effect in effects.as_slice() {
            let line = effect_line(alloc, node, effect)?;
            self.note(line.as_str())?;
        }
        Ok(())
    }

    fn step(&mut self, alloc: Global, node: usize, event: &Event) -> Result<Stepped, AllocError> {
        let fails = self.fails;
        match self.nodes.get_mut(node.saturating_sub(1)) {
            Some(at) => both(alloc, node, at, event, fails),
            None => Ok(nothing(alloc)),
        }
    }

    /// What a step recorded, brought about and sent.
    fn follow(&mut self, alloc: Global, node: usize, stepped: &Stepped) -> Result<(), AllocError> {
        if !stepped.entry.is_empty() {
            self.fails = false;
        }
        self.log.push_str(stepped.entry.as_str())?;
        self.note_effects(alloc, node, &stepped.outs.effects)?;
        self.send_all(alloc, node, stepped.outs.outs.as_slice())
    }

    fn turn(&mut self, alloc: Global, node: usize, event: &Event) -> Result<(), AllocError> {
        let stepped = self.step(alloc, node, event)?;
        self.follow(alloc, node, &stepped)
    }

    fn note_delivery(
        &mut self,
        alloc: Global,
        number: usize,
        node: usize,
        status: u16,
    ) -> Result<(), AllocError> {
        self.carried = self.carried.max(number);
        let line = format!(in alloc; "deliver {number} {node} {status}")?;
        self.note(line.as_str())
    }

    fn arrive(
        &mut self,
        alloc: Global,
        number: usize,
        arrival: &Arrival,
    ) -> Result<(), AllocError> {
        let stepped = self.step(alloc, arrival.node, &arrival.event)?;
        let status = status_of(&stepped.outs);
        self.note_delivery(alloc, number, arrival.node, status)?;
        self.follow(alloc, arrival.node, &stepped)
    }

    fn arrival(&self, number: usize) -> Result<Option<Arrival>, AllocError> {
        match self.posts.get(number.saturating_sub(1)) {
            Some(post) => Ok(Some(arrival_of(post)?)),
            None => Ok(None),
        }
    }

    /// The message of this number reaches its node, for the first time or again.
    fn deliver(&mut self, alloc: Global, number: usize) -> Result<(), AllocError> {
        match self.arrival(number)? {
            Some(arrival) => self.arrive(alloc, number, &arrival),
            None => Ok(()),
        }
    }

    /// Every message that wasn't delivered yet, in order.
    fn flush(&mut self, alloc: Global) -> Result<(), AllocError> {
        for _ in 0..99 {
            let number = self.carried.saturating_add(1);
            self.deliver(alloc, number)?;
        }
        Ok(())
    }

    fn pass(&mut self, node: usize, ms: u32) {
        if let Some(at) = self.nodes.get_mut(node.saturating_sub(1)) {
            at.clock = at.clock.saturating_add(u64::from(ms));
        }
    }

    fn next_due(&mut self, node: usize, after: Option<Item>) -> Option<Item> {
        match self.nodes.get_mut(node.saturating_sub(1)) {
            Some(at) => at.book.next_due(after, at.clock),
            None => None,
        }
    }

    fn due(&mut self, alloc: Global, node: usize, item: &Item) -> Result<(), AllocError> {
        self.turn(alloc, node, &Event::Due(*item))
    }

    /// Every item of a node that is due.
    fn due_all(&mut self, alloc: Global, node: usize) -> Result<(), AllocError> {
        let mut after = None;
        for _ in 0..20 {
            let Some(item) = self.next_due(node, after) else {
                return Ok(());
            };
            self.due(alloc, node, &item)?;
            after = Some(item);
        }
        Ok(())
    }

    /// `tick NODE MS`
    fn tick(&mut self, alloc: Global, line: &str) -> Result<(), AllocError> {
        self.pass(number(line, 1), span(line, 2));
        self.note(line)?;
        self.due_all(alloc, number(line, 1))
    }

    fn refusal(&self, node: usize, local: &Local) -> &'static str {
        match self.nodes.get(node.saturating_sub(1)) {
            Some(at) => match at.book.refuses(local) {
                Some(refusal) => refusal_name(refusal),
                None => "",
            },
            None => "no node",
        }
    }

    fn note_refusal(
        &mut self,
        alloc: Global,
        node: usize,
        refusal: &str,
    ) -> Result<(), AllocError> {
        if refusal.is_empty() {
            return Ok(());
        }
        let line = format!(in alloc; "refused {node} {refusal}")?;
        self.note(line.as_str())
    }

    fn ask(&mut self, alloc: Global, node: usize, event: &Event) -> Result<(), AllocError> {
        if let Event::Local(local) = event {
            let refusal = self.refusal(node, local);
            self.note_refusal(alloc, node, refusal)?;
        }
        self.turn(alloc, node, event)
    }

    fn request(&mut self, alloc: Global, line: &str) -> Result<(), AllocError> {
        let event = Event::Local(local_in(alloc, line)?);
        self.ask(alloc, number(line, 1), &event)
    }

    /// `same POST POST`
    fn same(&mut self, line: &str) -> Result<(), AllocError> {
        let first = self.posts.get(number(line, 1).saturating_sub(1));
        let second = self.posts.get(number(line, 2).saturating_sub(1));
        if first == second {
            self.note(line)
        } else {
            self.note("others")
        }
    }

    /// `held NODE`
    fn held(&mut self, alloc: Global, line: &str) -> Result<(), AllocError> {
        let held = match self.nodes.get(number(line, 1).saturating_sub(1)) {
            Some(at) => at.book.held(),
            None => 0,
        };
        let line = format!(in alloc; "{line} {held}")?;
        self.note(line.as_str())
    }

    fn lost(&self, alloc: Global, node: usize) -> Result<Effects, AllocError> {
        match self.nodes.get(node.saturating_sub(1)) {
            Some(at) => at.book.lost(alloc),
            None => Ok(Effects::from_vec(Vec::new(alloc))),
        }
    }

    fn start(&mut self, node: usize, book: Book) {
        if let Some(at) = self.nodes.get_mut(node.saturating_sub(1)) {
            at.book = book;
        }
    }

    fn up(&mut self, alloc: Global, line: &str) -> Result<(), AllocError> {
        let book = new_book(alloc, word(line, 1), span(line, 2))?;
        self.start(number(line, 1), book);
        self.note(line)
    }

    /// `up NODE INCARNATION`: it goes down, and comes up again with nothing that it knew.
    fn restart(&mut self, alloc: Global, line: &str) -> Result<(), AllocError> {
        let lost = self.lost(alloc, number(line, 1))?;
        self.note_effects(alloc, number(line, 1), &lost)?;
        self.up(alloc, line)
    }

    fn act_at(&mut self, alloc: Global, line: &str) -> Result<(), AllocError> {
        match word(line, 0) {
            "tick" => self.tick(alloc, line),
            "up" => self.restart(alloc, line),
            "same" => self.same(line),
            "held" => self.held(alloc, line),
            _ => self.request(alloc, line),
        }
    }

    /// A line of a script. `mark` forgets the log; at the next record behind `fail` the disk fails.
    fn act(&mut self, alloc: Global, line: &str) -> Result<(), AllocError> {
        match word(line, 0) {
            "deliver" => self.deliver(alloc, number(line, 1)),
            "flush" => self.flush(alloc),
            "mark" => {
                self.log.clear();
                Ok(())
            }
            "fail" => {
                self.fails = true;
                Ok(())
            }
            _ => self.act_at(alloc, line),
        }
    }

    fn act_all(&mut self, alloc: Global, script: &str) -> Result<(), AllocError> {
        for line in script.lines() {
            self.act(alloc, line)?;
        }
        Ok(())
    }

    fn log(&self, alloc: Global) -> Result<String, AllocError> {
        String::from_str(alloc, self.log.as_str())
    }
}

/// What happens where these lines are done one after another.
pub fn run(alloc: Global, script: &str) -> Result<String, AllocError> {
    let mut net = Net::new(alloc)?;
    net.act_all(alloc, script)?;
    net.log(alloc)
}
