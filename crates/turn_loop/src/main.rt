//! Takes one request many times at a node on a machine in memory, so that a run's time is that of its turns.
//!
//! `turn_loop COUNT LIVE` starts a node, has it create LIVE transactions, and gives it the request that is read from standard
//! input COUNT times.
#![tactic(auto)]

ghost use Rattle.std.specs.Prelude.{IfSome};
ghost use Rattle.node_at.specs.State.{IsNode, seen};

use at_base::text::Text;
use node_at::node::Node;
use node_at::role::Role;
use node_at::start::start;
use node_at::turn::Turned;
use site_memory::machine::MemSite;
use std::alloc::{AllocError, Global};
use std::env;
use std::io::Read;

/// The most bytes of the journal.
const LIMIT: u32 = 1_000_000_000;

/// A CreateCoordinationContext whose reply comes on the connection. What it creates never expires.
const CREATE: &[u8] =
    b"POST /activation HTTP/1.0\r\nContent-Length: 613\r\n\r\n<s:Envelope xmlns:s='http://schemas.xmlsoap.org/soap/envelope/' xmlns:a='http://www.w3.org/2005/08/addressing'><s:Header><a:Action>http://docs.oasis-open.org/ws-tx/wscoor/2006/06/CreateCoordinationContext</a:Action><a:MessageID>urn:uuid:6a2e2d54-6f6c-5c6a-9d6e-1b1f0f3c2a11</a:MessageID><a:ReplyTo><a:Address>http://www.w3.org/2005/08/addressing/anonymous</a:Address></a:ReplyTo></s:Header><s:Body><CreateCoordinationContext xmlns='http://docs.oasis-open.org/ws-tx/wscoor/2006/06'><CoordinationType>http://docs.oasis-open.org/ws-tx/wsat/2006/06</CoordinationType></CreateCoordinationContext></s:Body></s:Envelope>";

/// How often the request is taken, and how many transactions are live.
#[derive(Clone, Copy, Debug, PartialEq, Eq)]
struct Rounds {
    count: u32,
    live: u32,
}

/// The rounds that the words name. None where they name none.
fn rounds_of(words: &[String]) -> Option<Rounds> {
    match words {
        [count, live] => {
            let count = count.as_str().parse().ok()?;
            let live = live.as_str().parse().ok()?;
            Some(Rounds { count, live })
        }
        _ => None,
    }
}

/// A node of all roles at n2.example.
fn up(alloc: Global, site: &mut MemSite) -> Option<Node>
    ensures { IfSome result (λ n. IsNode (seen n)) }
{
    let base = Text::copied(alloc, "http://n2.example").ok()?;
    match start(alloc, site, &base, Role::All, LIMIT) {
        Ok(node) => Some(node),
        Err(_) => None,
    }
}

/// Whether a turn takes the request that a connection brings.
fn is_taken(
    alloc: Global,
    node: &mut Node,
    site: &mut MemSite,
    bytes: &[u8],
) -> Result<bool, AllocError>
    requires { IsNode (seen node.old) }
    ensures { IsNode (seen node.new) }
{
    site.connect(bytes)?;
    match node.turn(alloc, site) {
        Turned::Served { status } => Ok(status == 200 || status == 202),
        Turned::Ticked => Ok(true),
        _ => Ok(false),
    }
}

/// How many of so many requests are taken.
fn take_again(
    alloc: Global,
    node: &mut Node,
    site: &mut MemSite,
    bytes: &[u8],
    count: u32,
) -> Result<u32, AllocError>
    requires { IsNode (seen node.old) }
    ensures { IsNode (seen node.new) }
{
    let mut taken: u32 = 0;
    for _ in 0..count {
        if is_taken(alloc, node, site, bytes)? {
            taken = taken.saturating_add(1);
        }
    }
    Ok(taken)
}

/// How many transactions were created, and how many of the requests were taken.
fn run_rounds(alloc: Global, bytes: &[u8], rounds: Rounds) -> Result<(u32, u32), AllocError> {
    let mut site = MemSite::new(alloc);
    let Some(mut node) = up(alloc, &mut site) else {
        return Err(AllocError);
    };
    let live = take_again(alloc, &mut node, &mut site, CREATE, rounds.live)?;
    let taken = take_again(alloc, &mut node, &mut site, bytes, rounds.count)?;
    Ok((live, taken))
}

fn main(rt: HostRuntime) -> anyhow::Result<()> {
    let alloc = rt.alloc();
    let mut words = Vec::new(alloc);
    for word in env::args(&rt)?.skip(1) {
        words.push(word)?;
    }
    let Some(rounds) = rounds_of(words.as_slice()) else {
        println!(rt; "turn_loop COUNT LIVE")?;
        return Ok(());
    };
    let mut input = Vec::new(alloc);
    rt.stdin().read_to_end(&mut input)?;
    let (live, taken) = run_rounds(alloc, input.as_slice(), rounds)?;
    println!(rt; "live {live}, taken {taken} of {}", rounds.count)?;
    Ok(())
}
