//! A net in memory of which events are asked.

ghost use Rattle.std.specs.Prelude.{ℕ, List, ◌≡◌, ◌≤◌, ◌<◌, ◌^◌, [], IfErr, IfOk, None, OnOk, Some, is_some, length, map, option_copied, false, true};
ghost use Rattle.at_model.specs.World.{World, Ask, Crash, Deliver, Raw, Turn, Up, example_base, example_hosts, node_of, nth, opening, put_nth};
ghost use Rattle.memory_net.specs.Mails.{mail_of};
ghost use Rattle.memory_net.specs.declared.host.Host.{Host};
ghost use Rattle.node_events.specs.NodeEvents.{struck};
ghost use Rattle.world_laws.specs.Events.{event_of, input_of};
ghost use Rattle.call_readings.specs.AskedEvents.{IsOf};
ghost use Rattle.mirrored_nets.specs.Goings.{IsBrought, IsTick, ms_of};
ghost use Rattle.mirrored_nets.specs.Mirrors.{Mirrors};
ghost use Rattle.mirrored_nets.specs.NetSteps.{IsGiven, IsUnstarted};
ghost use Rattle.mirrored_nets.specs.MayCome.{IsNumbered, MayCome};
ghost use Rattle.mirrored_nets.specs.Rooms.{HasRoomAt, IsFullAt};
ghost use Rattle.mirrored_nets.specs.declared.armed.Armed.{Armed as Call};
ghost use Rattle.read_calls.specs.IsRead.{fates_of};
ghost use Rattle.asked_nets.specs.ArmedCalls.{call_of};
ghost use Rattle.asked_nets.specs.Happened.{Happened, MayAsk, MirrorsAt};
ghost use Rattle.asked_nets.specs.ReadSteps.{MovesRead, NetStepRead};
ghost use Rattle.asked_nets.specs.Rests.{RestsBy};
ghost use Rattle.asked_nets.specs.Unmet.{IsntApart};
ghost use Rattle.asked_nets.specs.declared.fault.Fault.TheVariants.{Apart, Full, NoMemory};

use crate::armed_call::call_of;
use crate::fault::{Fault, Undone};
use crate::host::{request, take};
use crate::laws::{asked_happen, begun_are_marked};
use crate::left::goes_anew;
use crate::starts::{start, told_by};
use addressing::post_to::PostTo;
use armed_calls::fault::Armed as Known;
use at_base::event::Local;
use at_base::text::Text;
use carried_meanings::laws::bytes_mean_one_thing;
use http_post::laws::bytes_wait_or_not;
use http_post::writer::tick_bytes;
use memory_net::host::{Host, fresh};
use memory_net::laws::letters_are_short;
use memory_net::letter::Letter;
use mirrored_nets::armed::Armed;
use mirrored_nets::asks::names_examples;
use mirrored_nets::host::{go_down, has_room, set};
use mirrored_nets::laws::{down_can_begin, nets_mirror};
use node_at::node::Node;
use raw_requests::{Drawn, draw};
use read_calls::reading::Named;
use site_memory::laws::links_hold;
use site_memory::machine::MemSite;
use std::alloc::{AllocError, Global};
use std::marker::Model;
use std::mem::replace;
use world_laws::event::{Fates, Input, WorldEvent};

/// Up to eight nodes, each on a machine in memory, with their clocks, in milliseconds, and the letters that they posted.
#[derive(Drop)]
pub struct Net {
    hosts: Vec<Host>,
    clocks: Vec<u64>,
    letters: Vec<Letter>,
}

impl Model for Net {
    ghost use Rattle.mirrored_nets.specs.Mirrors.{AllServe};
    ghost use Rattle.mirrored_nets.specs.Seen.{Seen};

    ghost Value = { Seen };

    ghost view = { λ net. record {
      hosts = net.hosts.items;
      clocks = net.clocks.items;
      letters = net.letters.items;
    } };

    ghost invariant = { λ net. AllServe net.hosts.items };
}

/// What was asked for, as it happened.
#[derive(Drop)]
pub struct Taken {
    pub net: Net,
    /// What was asked for, with the fates that its calls had and the stop.
    pub event: WorldEvent,
    /// Whether its node went down behind its steps, as its journal was written anew.
    pub down: bool,
    /// How many calls its machine made; 0 where nothing was done.
    pub calls: usize,
}

/// What a connection brings to a node: its bytes, and how many calls come before the first step.
#[derive(Drop)]
struct Brought {
    bytes: Vec<u8>,
    lines: usize,
}

/// The base of a node.
fn base_of(alloc: Global, number: u8) -> Result<Text, AllocError>
    ensures { IfOk result (λ base. base ≡ example_base number) }
{
    Ok(Text::from_string(format!(in alloc; "http://n{number}.example")?))
}

/// The letter of that number.
fn letter_at(letters: &[Letter], number: u64) -> Option<&Letter>
    ensures { option_copied result ≡ nth number letters.now }
{
    if number == 0 {
        return None;
    }
    letters.get(number as usize - 1)
}

/// The letter of that number, where it goes to that node.
fn letter_to(alloc: Global, letters: &[Letter], node: u8, number: u64) -> Result<Brought, Undone>
    ensures brought { IfOk result (λ b. IsBrought (map mail_of letters.now) node (Deliver number) b.lines b.bytes.items) }
    ensures there { MayCome (map mail_of letters.now) node (Deliver number) [] → IsntApart result }
{
    let Some(letter) = letter_at(letters, number) else {
        return Err(Undone::Apart);
    };
    if letter.receiver != node || letter.bytes.len() > 65_536 {
        return Err(Undone::Apart);
    }
    let Ok(bytes) = Vec::from_slice(alloc, letter.bytes.as_slice()) else {
        return Err(Undone::NoMemory);
    };
    Ok(Brought { bytes, lines: 0 })
}

/// The bytes that ask for what is due.
fn tick(alloc: Global) -> Result<Brought, AllocError>
    ensures { IfOk result (λ b. IsTick b.bytes.items × (b.lines ≡ 0)) }
{
    let to = PostTo {
        host: Text::copied(alloc, "node")?,
        port: 80,
        path: Text::copied(alloc, "/tick")?,
    };
    Ok(Brought {
        bytes: tick_bytes(alloc, &to)?,
        lines: 0,
    })
}

/// Bytes that are refused.
fn refused(alloc: Global, raw: &[u8]) -> Result<Brought, Undone>
    ensures brought { IfOk result (λ b. IsBrought [] 0 Raw b.lines b.bytes.items) }
    ensures given { IfOk result (λ b. b.bytes.items ≡ raw.now) }
    ensures drawn { MayCome [] 0 Raw raw.now → IsntApart result }
{
    bytes_mean_one_thing();
    let Ok(drawn) = draw(alloc, raw) else {
        return Err(Undone::NoMemory);
    };
    let Drawn::Refused { waits, .. } = drawn else {
        return Err(Undone::Apart);
    };
    let Ok(bytes) = Vec::from_slice(alloc, raw) else {
        return Err(Undone::NoMemory);
    };
    Ok(Brought {
        bytes,
        lines: if waits { 1 } else { 0 },
    })
}

/// What an event brings to a node.
fn brought_by(
    alloc: Global,
    letters: &[Letter],
    node: u8,
    input: Input,
    raw: &[u8],
) -> Result<Brought, Undone>
    ensures brought { IfOk result (λ b. IsBrought (map mail_of letters.now) node (input_of input) b.lines b.bytes.items) }
    ensures given { IfOk result (λ b. IsGiven (input_of input) raw.now b.bytes.items) }
    ensures there { MayCome (map mail_of letters.now) node (input_of input) raw.now → IsntApart result }
{
    match input {
        Input::Deliver(number) => letter_to(alloc, letters, node, number),
        Input::Tick(_) => match tick(alloc) {
            Ok(brought) => Ok(brought),
            Err(_) => Err(Undone::NoMemory),
        },
        Input::Raw => refused(alloc, raw),
    }
}

/// How much time an event's input lets go by.
fn ms_of(input: Input) -> u32
    ensures { result ≡ ms_of (input_of input) }
{
    match input {
        Input::Tick(ms) => ms,
        Input::Deliver(_) | Input::Raw => 0,
    }
}

/// The host of a node.
fn host_of(hosts: &[Host], number: u8) -> Option<&Host>
    ensures { option_copied result ≡ nth number hosts.now }
{
    if number == 0 {
        return None;
    }
    hosts.get(number as usize - 1)
}

/// Whether a node is up.
fn is_up(hosts: &[Host], number: u8) -> Result<bool, Undone>
    ensures up { IfOk result (λ up. (h : Host) × (nth number hosts.now ≡ Some h) × (up ≡ is_some h.node)) }
    ensures there { 1 ≤ number → number ≤ length hosts.now → IsntApart result }
{
    match host_of(hosts, number) {
        Some(host) => Ok(host.node().is_some()),
        None => Err(Undone::Apart),
    }
}

/// The clock of a node.
fn clock_of(clocks: &[u64], number: u8) -> Result<u64, Undone>
    ensures clock { IfOk result (λ clock. nth number clocks.now ≡ Some clock) }
    ensures fits { IfOk result (λ clock. clock < 2 ^ 64) }
    ensures there { 1 ≤ number → number ≤ length clocks.now → IsntApart result }
{
    if number == 0 {
        return Err(Undone::Apart);
    }
    match clocks.get(number as usize - 1) {
        Some(clock) => Ok(*clock),
        None => Err(Undone::Apart),
    }
}

/// Takes the host of a node out of its place.
fn taken_out(alloc: Global, hosts: &mut Vec<Host>, number: u8) -> Result<Host, Undone>
    ensures here { IfOk result (λ h. nth number hosts.old.items ≡ Some h) }
    ensures place { OnOk result ((g : Host) → put_nth number g hosts.new.items ≡ put_nth number g hosts.old.items) }
    ensures many { length hosts.new.items ≡ length hosts.old.items }
    ensures there { 1 ≤ number → number ≤ length hosts.old.items → IsntApart result }
{
    if number == 0 || hosts.len() < number as usize {
        return Err(Undone::Apart);
    }
    Ok(replace(&mut hosts[number as usize - 1], fresh(alloc)))
}

/// Takes a node that is up out of its place, and its machine.
fn taken_up(alloc: Global, hosts: &mut Vec<Host>, number: u8) -> Result<(Node, MemSite), Undone>
    ensures here { IfOk result (λ p. (h : Host) × (nth number hosts.old.items ≡ Some h) × (h.node ≡ Some p.0) × (p.1 ≡ h.site)) }
    ensures place { OnOk result ((g : Host) → put_nth number g hosts.new.items ≡ put_nth number g hosts.old.items) }
    ensures many { length hosts.new.items ≡ length hosts.old.items }
    ensures there { 1 ≤ number → number ≤ length hosts.old.items → ((h : Host) → nth number hosts.old.items ≡ Some h → is_some h.node ≡ true) → IsntApart result }
{
    let (node, site) = taken_out(alloc, hosts, number)?.into_parts();
    match node {
        Some(node) => Ok((node, site)),
        None => Err(Undone::Apart),
    }
}

/// Puts a host into its place.
fn put_host(hosts: &mut Vec<Host>, number: u8, host: Host) -> Result<(), Undone>
    ensures put { OnOk result (hosts.new.items ≡ put_nth number host hosts.old.items) }
    ensures there { 1 ≤ number → number ≤ length hosts.old.items → IsntApart result }
{
    if number == 0 || hosts.len() < number as usize {
        return Err(Undone::Apart);
    }
    let _empty = replace(&mut hosts[number as usize - 1], host);
    Ok(())
}

/// Puts a clock into its place.
fn put_clock(clocks: &mut Vec<u64>, number: u8, clock: u64) -> Result<(), Undone>
    ensures put { OnOk result (clocks.new.items ≡ put_nth number clock clocks.old.items) }
    ensures there { 1 ≤ number → number ≤ length clocks.old.items → IsntApart result }
{
    if number == 0 || clocks.len() < number as usize {
        return Err(Undone::Apart);
    }
    clocks[number as usize - 1] = clock;
    Ok(())
}

/// How many there are.
fn count_of(hosts: &[Host]) -> Result<u8, Undone>
    ensures count { IfOk result (λ count. count ≡ length hosts.now) }
    ensures few { length hosts.now ≤ 8 → IsntApart result }
{
    match u8::try_from(hosts.len()) {
        Ok(count) => Ok(count),
        Err(_) => Err(Undone::Apart),
    }
}

/// So many fates that are yes, and then this one.
fn struck(alloc: Global, before: usize, last: bool) -> Result<Vec<bool>, AllocError>
    ensures { IfOk result (λ fates. fates.items ≡ struck before last) }
{
    let mut fates = Vec::new(alloc);
    for _place in 0..before {
        fates.push(true)?;
    }
    fates.push(last)?;
    Ok(fates)
}

/// The fates that are named.
fn fates_of(alloc: Global, named: Named) -> Result<Fates, Undone>
    ensures fates { IfOk result (λ fates. fates ≡ fates_of named) }
    ensures memory { IsntApart result }
{
    match named {
        Named::None => Ok(Fates::from_vec(Vec::new(alloc))),
        Named::Struck { before, last } => match struck(alloc, before, last) {
            Ok(fates) => Ok(Fates::from_vec(fates)),
            Err(_) => Err(Undone::NoMemory),
        },
    }
}

impl Net {
    /// Nodes that haven't started, on empty machines.
    #[tactic(auto, using(mirrored_nets::proofs::OpenedNets::unstarted))]
    pub fn opening(alloc: Global, count: u8) -> Result<Net, AllocError>
        requires { (1 ≤ count) × (count ≤ 8) }
        ensures unstarted { IfOk result (IsUnstarted count) }
        ensures mirrors { IfOk result (λ net. Mirrors count net.hosts net.clocks (map mail_of net.letters) (opening (example_hosts count))) }
    {
        nets_mirror();
        let mut hosts = Vec::new(alloc);
        let mut clocks = Vec::new(alloc);
        for _place in 0..count {
            hosts.push(fresh(alloc))?;
            clocks.push(0)?;
        }
        Ok(Net {
            hosts,
            clocks,
            letters: Vec::new(alloc),
        })
    }

    /// The letters, in order.
    pub fn letters(&self) -> &[Letter]
        ensures { result.now ≡ self.now.letters }
    {
        self.letters.as_slice()
    }

    /// The nodes, each on its machine, from node 1 on.
    pub fn hosts(&self) -> &[Host]
        ensures { result.now ≡ self.now.hosts }
    {
        self.hosts.as_slice()
    }

    /// Whether the journal of a node has room for another record.
    fn has_room(&self, number: u8) -> bool
        ensures room { result ≡ true → HasRoomAt number self.now.hosts }
        ensures full { result ≡ false → IsFullAt number self.now.hosts }
    {
        match host_of(self.hosts.as_slice(), number) {
            Some(host) => has_room(host.site()),
            None => true,
        }
    }

    /// Whether nothing is done at the node of an event: it is down, or up where it is to start.
    fn rests(&self, asked: &WorldEvent) -> Result<bool, Undone>
        ensures rests { IfOk result (λ rests. (h : Host) × (nth (node_of (event_of asked.now)) self.now.hosts ≡ Some h) × RestsBy (event_of asked.now) (is_some h.node) rests) }
        ensures there { IsNumbered self.now (node_of (event_of asked.now)) → IsntApart result }
    {
        let up = is_up(self.hosts.as_slice(), asked.node())?;
        match asked {
            WorldEvent::Up { .. } => Ok(up),
            WorldEvent::Turn { .. } => Ok(!up),
            WorldEvent::Ask { .. } => Ok(!up),
            WorldEvent::Crash { .. } => Ok(!up),
        }
    }

    /// A turn at a node that is up.
    fn turn(
        self,
        alloc: Global,
        number: u8,
        input: Input,
        armed: Armed,
        raw: &[u8],
    ) -> Result<Taken, Undone>
        requires room { HasRoomAt number self.hosts }
        requires up { (h : Host) → nth number self.hosts ≡ Some h → is_some h.node ≡ true }
        ensures of { IfOk result (λ t. IsOf (Turn number (input_of input) [] None) (event_of t.event)) }
        ensures step { (count : ℕ) (w : World) → count ≤ 8 → MirrorsAt count self w → IfOk result (λ t. MovesRead armed t.down (event_of t.event) raw.now t.calls self t.net) }
        ensures may { (count : ℕ) (w : World) → count ≤ 8 → MirrorsAt count self w → MayAsk count w (Turn number (input_of input) [] None) raw.now self → IsntApart result }
    {
        links_hold();
        letters_are_short();
        bytes_wait_or_not();
        let Net {
            mut hosts,
            mut clocks,
            mut letters,
        } = self;
        let count = count_of(hosts.as_slice())?;
        let clock = clock_of(clocks.as_slice(), number)?;
        let (node, site) = taken_up(alloc, &mut hosts, number)?;
        let Some(now) = clock.checked_add(ms_of(input) as u64) else {
            return Err(Undone::Apart);
        };
        let brought = brought_by(alloc, letters.as_slice(), number, input, raw)?;
        let did = take(
            alloc,
            node,
            set(site, armed, now),
            number,
            count,
            brought.lines,
            brought.bytes.as_slice(),
            armed,
            &mut letters,
        )?;
        let fates = fates_of(alloc, did.reading.fates)?;
        put_host(&mut hosts, number, did.host)?;
        put_clock(&mut clocks, number, now)?;
        Ok(Taken {
            net: Net {
                hosts,
                clocks,
                letters,
            },
            event: WorldEvent::Turn {
                node: number,
                input,
                fates,
                until: did.reading.until,
            },
            down: goes_anew(did.reading.became),
            calls: did.calls,
        })
    }

    /// A request at a node that is up.
    fn ask(self, alloc: Global, number: u8, local: &Local, armed: Armed) -> Result<Taken, Undone>
        requires room { HasRoomAt number self.hosts }
        requires up { (h : Host) → nth number self.hosts ≡ Some h → is_some h.node ≡ true }
        ensures of { IfOk result (λ t. IsOf (Ask number local.now [] None) (event_of t.event)) }
        ensures step { (count : ℕ) (w : World) (raw : List ℕ) → count ≤ 8 → MirrorsAt count self w → IfOk result (λ t. MovesRead armed t.down (event_of t.event) raw t.calls self t.net) }
        ensures may { (count : ℕ) (w : World) (raw : List ℕ) → count ≤ 8 → MirrorsAt count self w → MayAsk count w (Ask number local.now [] None) raw self → IsntApart result }
    {
        links_hold();
        let Ok(named) = names_examples(alloc, local) else {
            return Err(Undone::NoMemory);
        };
        if !named {
            return Err(Undone::Apart);
        }
        let Ok(copy) = local.clone() else {
            return Err(Undone::NoMemory);
        };
        let Net {
            mut hosts,
            clocks,
            mut letters,
        } = self;
        let count = count_of(hosts.as_slice())?;
        let clock = clock_of(clocks.as_slice(), number)?;
        let (node, site) = taken_up(alloc, &mut hosts, number)?;
        let did = request(
            alloc,
            node,
            set(site, armed, clock),
            number,
            count,
            local,
            armed,
            &mut letters,
        )?;
        let fates = fates_of(alloc, did.reading.fates)?;
        put_host(&mut hosts, number, did.host)?;
        Ok(Taken {
            net: Net {
                hosts,
                clocks,
                letters,
            },
            event: WorldEvent::Ask {
                node: number,
                local: copy,
                fates,
                until: did.reading.until,
            },
            down: false,
            calls: did.calls,
        })
    }

    /// A crash of a node that is up.
    fn crash(self, alloc: Global, number: u8) -> Result<Taken, Undone>
        requires up { (h : Host) → nth number self.hosts ≡ Some h → is_some h.node ≡ true }
        ensures of { IfOk result (λ t. IsOf (Crash number) (event_of t.event)) }
        ensures step { (armed : Call) (raw : List ℕ) → IfOk result (λ t. MovesRead armed t.down (event_of t.event) raw t.calls self t.net) }
        ensures there { IsNumbered self number → IsntApart result }
    {
        let Net {
            mut hosts,
            clocks,
            letters,
        } = self;
        let (_node, site) = taken_out(alloc, &mut hosts, number)?.into_parts();
        put_host(&mut hosts, number, go_down(site))?;
        Ok(Taken {
            net: Net {
                hosts,
                clocks,
                letters,
            },
            event: WorldEvent::Crash { node: number },
            down: false,
            calls: 0,
        })
    }

    /// A start of a node that is down.
    fn start(self, alloc: Global, number: u8, armed: Armed) -> Result<Taken, Undone>
        requires room { HasRoomAt number self.hosts }
        requires down { (h : Host) → nth number self.hosts ≡ Some h → h.node ≡ None }
        ensures of { IfOk result (λ t. IsOf (Up number true false) (event_of t.event)) }
        ensures step { (count : ℕ) (w : World) (raw : List ℕ) → count ≤ 8 → MirrorsAt count self w → IfOk result (λ t. MovesRead armed t.down (event_of t.event) raw t.calls self t.net) }
        ensures may { (count : ℕ) (w : World) (raw : List ℕ) → count ≤ 8 → MirrorsAt count self w → MayAsk count w (Up number true false) raw self → IsntApart result }
    {
        links_hold();
        begun_are_marked();
        down_can_begin();
        let Net {
            mut hosts,
            clocks,
            letters,
        } = self;
        let clock = clock_of(clocks.as_slice(), number)?;
        let (_node, site) = taken_out(alloc, &mut hosts, number)?.into_parts();
        let Ok(base) = base_of(alloc, number) else {
            return Err(Undone::NoMemory);
        };
        let told = told_by(alloc, &site, armed)?;
        let begun = start(alloc, set(site, told, clock), &base, told)?;
        put_host(&mut hosts, number, begun.host)?;
        Ok(Taken {
            net: Net {
                hosts,
                clocks,
                letters,
            },
            event: WorldEvent::Up {
                node: number,
                landed: begun.landed,
                stop: begun.stop,
            },
            down: false,
            calls: begun.calls,
        })
    }

    /// What is asked of its node is done, where that has something to do.
    fn done(
        self,
        alloc: Global,
        asked: &WorldEvent,
        armed: Armed,
        raw: &[u8],
    ) -> Result<Taken, Undone>
        requires { HasRoomAt (node_of (event_of asked.now)) self.hosts }
        ensures of { IfOk result (λ t. IsOf (event_of asked.now) (event_of t.event)) }
        ensures step { (count : ℕ) (w : World) → count ≤ 8 → MirrorsAt count self w → IfOk result (λ t. NetStepRead armed (event_of asked.now) (event_of t.event) t.down raw.now t.calls self t.net) }
        ensures may { (count : ℕ) (w : World) → count ≤ 8 → MirrorsAt count self w → MayAsk count w (event_of asked.now) raw.now self → IsntApart result }
    {
        if self.rests(asked)? {
            let Ok(event) = asked.clone() else {
                return Err(Undone::NoMemory);
            };
            return Ok(Taken {
                net: self,
                event,
                down: false,
                calls: 0,
            });
        }
        match asked {
            WorldEvent::Turn { node, input, .. } => self.turn(alloc, *node, *input, armed, raw),
            WorldEvent::Ask { node, local, .. } => self.ask(alloc, *node, local, armed),
            WorldEvent::Crash { node } => self.crash(alloc, *node),
            WorldEvent::Up { node, .. } => self.start(alloc, *node, armed),
        }
    }

    /// An event is asked for: its node does it, in one call on its machine, of whose calls that one is armed. The bytes are those that it brings where
    /// they are no message. It is read off the machine which event of a world that was.
    pub fn take(
        self,
        alloc: Global,
        asked: &WorldEvent,
        armed: Option<Known>,
        raw: &[u8],
    ) -> Result<Taken, Fault>
        ensures happened { (count : ℕ) (w : World) → count ≤ 8 → MirrorsAt count self w
            → IfOk result (λ t. Happened count w (call_of armed) (event_of asked.now) raw.now self t.net (event_of t.event) t.down t.calls) }
        ensures full { IfErr result (λ f. f ≡ Full → IsFullAt (node_of (event_of asked.now)) self.hosts) }
        ensures room { IfErr result (λ f. f ≡ NoMemory → HasRoomAt (node_of (event_of asked.now)) self.hosts) }
        ensures may { (count : ℕ) (w : World) → count ≤ 8 → MirrorsAt count self w → MayAsk count w (event_of asked.now) raw.now self → IfErr result (λ f. f ≡ Apart → ⊥) }
    {
        asked_happen();
        if !self.has_room(asked.node()) {
            return Err(Fault::Full);
        }
        match self.done(alloc, asked, call_of(armed), raw) {
            Ok(taken) => Ok(taken),
            Err(Undone::NoMemory) => Err(Fault::NoMemory),
            Err(Undone::Apart) => Err(Fault::Apart),
        }
    }
}
