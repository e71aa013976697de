//! Peers over the loopback: the same process connects, and then takes what it sent.

use atx_sites::node_site::NodeSite;
use real_system::real_system::RealSystem;
use site_model::site::{AttachFailed, Site, Taken};
use site_model::source::Failed;
use std::io::{ErrorKind, Read, Write};
use std::net::{Shutdown, TcpListener, TcpStream};
use std::path::PathBuf;
use std::test::Fail;
use std::{env, fs, io, process};

/// A Prepared of a participant, in a post to its coordinator.
const POST: &[u8] =
    b"POST /c/d/1-1/1 HTTP/1.1\r\nHost: 127.0.0.1\r\nContent-Type: text/xml; charset=utf-8\r\nContent-Length: 435\r\n\r\n\
<s:Envelope xmlns:s=\"http://schemas.xmlsoap.org/soap/envelope/\" xmlns:wsa=\"http://www.w3.org/2005/08/addressing\" \
xmlns:wsat=\"http://docs.oasis-open.org/ws-tx/wsat/2006/06\"><s:Header><wsa:To>http://127.0.0.1/c/d/1-1/1</wsa:To>\
<wsa:Action>http://docs.oasis-open.org/ws-tx/wsat/2006/06/Prepared</wsa:Action><wsa:From><wsa:Address>\
http://127.0.0.1:9/p/d/1-1</wsa:Address></wsa:From></s:Header><s:Body><wsat:Prepared/></s:Body></s:Envelope>";

const ANSWER: &[u8] = b"HTTP/1.1 202 Accepted\r\nContent-Length: 0\r\nConnection: close\r\n\r\n";

/// The name of a new file in the folder for temporary ones.
fn name_of(rt: &HostRuntime, test: &str) -> io::Result<PathBuf> {
    let id = process::id(rt.process());
    let name = format!(in rt.alloc(); "atx-{test}-{id}")?;
    Ok(env::temp_dir(rt)?.join(rt.alloc(), name.as_str())?)
}

fn remove(rt: &HostRuntime, name: &PathBuf) -> io::Result<()> {
    let second = format!(in rt.alloc(); "{}.1", name.as_str())?;
    fs::remove_file(rt, name.as_str())?;
    fs::remove_file(rt, second.as_str())
}

/// A port of the loopback at which nothing listens.
fn free_port(rt: &HostRuntime) -> io::Result<u16> {
    Ok(TcpListener::bind(rt, "127.0.0.1:0")?.local_addr()?.port())
}

fn address_of(rt: &HostRuntime, port: u16) -> io::Result<String> {
    Ok(format!(in rt.alloc(); "127.0.0.1:{port}")?)
}

/// A peer that has sent these bytes.
fn peer(rt: &HostRuntime, port: u16, bytes: &[u8]) -> io::Result<TcpStream> {
    let mut stream = TcpStream::connect(rt, ("127.0.0.1", port))?;
    stream.write_all(bytes)?;
    Ok(stream)
}

/// Whether what comes on the next connection begins with these bytes.
fn hears<S: Site>(site: &mut S, bytes: &[u8]) -> Result<bool, Failed> {
    if site.take()? != Taken::Opened {
        return Ok(false);
    }
    let mut rest = bytes;
    let mut buf = [0u8; 1024];
    for _ in 0..1024 {
        if rest.is_empty() {
            return Ok(true);
        }
        let n = site.receive(&mut buf)?;
        match rest.strip_prefix(&buf[..n.min(1024)]) {
            Some(more) if n > 0 => rest = more,
            _ => return Ok(false),
        }
    }
    Ok(false)
}

/// Whether all that a peer reads to the end are these bytes.
fn reads(stream: &mut TcpStream, bytes: &[u8]) -> io::Result<bool> {
    let mut rest = bytes;
    let mut buf = [0u8; 1024];
    for _ in 0..1024 {
        let n = stream.read(&mut buf)?;
        if n == 0 {
            return Ok(rest.is_empty());
        }
        match rest.strip_prefix(&buf[..n.min(1024)]) {
            Some(more) => rest = more,
            None => return Ok(false),
        }
    }
    Ok(false)
}

/// A post is taken, and its answer is read by the peer.
fn serves<S: Site>(rt: &HostRuntime, site: &mut S, port: u16) -> io::Result<bool> {
    let mut stream = peer(rt, port, POST)?;
    let heard = hears(site, POST) == Ok(true);
    let sent = site.send(ANSWER).is_ok();
    site.close();
    let shut = site.send(ANSWER).is_err() && site.receive(&mut [0u8; 1]).is_err();
    Ok(heard && sent && shut && reads(&mut stream, ANSWER)?)
}

/// A node posts to itself, and takes that. Nothing listens at the other port.
fn posts<S: Site>(rt: &HostRuntime, site: &mut S, port: u16) -> io::Result<bool> {
    let other = free_port(rt)?;
    let posted = site.post("127.0.0.1", port, POST).is_ok();
    let heard = hears(site, POST) == Ok(true);
    site.close();
    let refused = site.post("127.0.0.1", other, POST) == Err(Failed);
    Ok(posted && heard && refused)
}

/// One peer is silent, one ends its side in the middle of its request, one resets its connection, and one sends a byte and
/// nothing more until its time is over. Each time the next is served.
fn goes_on<S: Site>(rt: &HostRuntime, site: &mut S, port: u16) -> io::Result<bool> {
    let silent = peer(rt, port, b"")?;
    let slow = peer(rt, port, b"P")?;
    let behind_slow = serves(rt, site, port)?;
    let mut cut = peer(rt, port, b"POST / HT")?;
    cut.shutdown(Shutdown::Write)?;
    let heard_cut = hears(site, b"POST / HT") == Ok(true) && site.receive(&mut [0u8; 9]) == Ok(0);
    let sent = site.send(ANSWER).is_ok();
    site.close();
    let answered = reads(&mut cut, ANSWER)?;
    let behind_cut = serves(rt, site, port)?;
    let reset = peer(rt, port, POST)?;
    let heard_reset = hears(site, POST) == Ok(true) && site.send(ANSWER).is_ok();
    drop(reset);
    let lost = site.receive(&mut [0u8; 9]) == Err(Failed);
    let behind_reset = serves(rt, site, port)?;
    let heard_slow = hears(site, b"P") == Ok(true) && site.receive(&mut [0u8; 9]) == Err(Failed);
    drop(slow);
    drop(silent);
    Ok(
        behind_slow
            && heard_cut
            && sent
            && answered
            && behind_cut
            && heard_reset
            && lost
            && behind_reset
            && heard_slow,
    )
}

/// A request comes in two pieces, beside silent peers. The one that comes between them is served first.
fn waits_aside<S: Site>(rt: &HostRuntime, site: &mut S, port: u16) -> io::Result<bool> {
    let mut silent = Vec::new(rt.alloc());
    for _ in 0..20 {
        silent.push(peer(rt, port, b"")?)?;
    }
    let (front, back) = POST.split_at(POST.len().min(300));
    let mut half = peer(rt, port, front)?;
    let between = serves(rt, site, port)?;
    half.write_all(back)?;
    let heard = hears(site, POST) == Ok(true);
    let sent = site.send(ANSWER).is_ok();
    site.close();
    let answered = reads(&mut half, ANSWER)?;
    Ok(between && heard && sent && answered)
}

/// What can be read of a stream at once, and whether it ended.
fn drained(stream: &mut TcpStream) -> io::Result<(usize, bool)> {
    let mut buf = [0u8; 4096];
    let mut sum = 0usize;
    for _ in 0..u16::MAX {
        match stream.read(&mut buf) {
            Ok(0) => return Ok((sum, true)),
            Ok(n) => sum = sum.saturating_add(n),
            Err(fault) if fault.kind() == ErrorKind::WouldBlock => return Ok((sum, false)),
            Err(fault) => return Err(fault),
        }
    }
    Ok((sum, false))
}

/// A peer reads an answer of 8 MB so slowly that the system doesn't take it all at once. Others are served meanwhile.
fn answers_slowly<S: Site>(rt: &HostRuntime, site: &mut S, port: u16) -> io::Result<bool> {
    let mut slow = peer(rt, port, POST)?;
    let heard = hears(site, POST) == Ok(true);
    let answer = vec![in rt.alloc(); b'a'; 1_048_576]?;
    for _ in 0..8 {
        if site.send(answer.as_slice()).is_err() {
            return Ok(false);
        }
    }
    site.close();
    slow.set_nonblocking(true)?;
    let mut sum = 0usize;
    for _ in 0..10_000 {
        let served = serves(rt, site, port)?;
        let (n, ended) = drained(&mut slow)?;
        sum = sum.saturating_add(n);
        if !served || ended {
            return Ok(heard && served && sum == 8_388_608);
        }
    }
    Ok(false)
}

/// What a test does with a machine at a port.
#[derive(Clone, Copy)]
enum Act {
    Serve,
    Post,
    GoOn,
    WaitAside,
    AnswerSlowly,
}

fn attached(rt: &HostRuntime, test: &str, act: Act) -> io::Result<bool> {
    let name = name_of(rt, test)?;
    let port = free_port(rt)?;
    let address = address_of(rt, port)?;
    let mut site = NodeSite::new(rt.alloc(), RealSystem::new(rt));
    let shut = site.take().is_err();
    let opened = site.attach(name.as_str(), address.as_str()) == Ok(());
    let done = match act {
        Act::Serve => serves(rt, &mut site, port),
        Act::Post => posts(rt, &mut site, port),
        Act::GoOn => goes_on(rt, &mut site, port),
        Act::WaitAside => waits_aside(rt, &mut site, port),
        Act::AnswerSlowly => answers_slowly(rt, &mut site, port),
    };
    site.leave();
    remove(rt, &name)?;
    let lost = if matches!(act, Act::Post) { 1 } else { 0 };
    Ok(shut && opened && done? && site.lost() == lost)
}

#[test]
fn an_envelope_is_taken_and_answered(rt: HostRuntime) -> Result<(), Fail> {
    let served = attached(&rt, "serves", Act::Serve)?;
    assert!(rt; served, "served");
    Ok(())
}

#[test]
fn a_node_posts_to_itself(rt: HostRuntime) -> Result<(), Fail> {
    let posted = attached(&rt, "posts", Act::Post)?;
    assert!(rt; posted, "posted");
    Ok(())
}

#[test]
fn no_peer_holds_the_node(rt: HostRuntime) -> Result<(), Fail> {
    let goes_on = attached(&rt, "goes-on", Act::GoOn)?;
    assert!(rt; goes_on, "goes on");
    Ok(())
}

#[test]
fn a_half_sent_request_delays_nobody(rt: HostRuntime) -> Result<(), Fail> {
    let waits = attached(&rt, "aside", Act::WaitAside)?;
    assert!(rt; waits, "waits aside");
    Ok(())
}

#[test]
fn a_slow_reader_delays_nobody(rt: HostRuntime) -> Result<(), Fail> {
    let answers = attached(&rt, "slowly", Act::AnswerSlowly)?;
    assert!(rt; answers, "answers slowly");
    Ok(())
}

/// Two machines can't have one address; the second has its files by then, so the first didn't fail on them.
fn shuts_out(rt: &HostRuntime, name: &str, other_name: &str) -> io::Result<bool> {
    let port = free_port(rt)?;
    let address = address_of(rt, port)?;
    let mut site = NodeSite::new(rt.alloc(), RealSystem::new(rt));
    let mut other = NodeSite::new(rt.alloc(), RealSystem::new(rt));
    let first = site.attach(name, address.as_str());
    let same_files = other.attach(name, "127.0.0.1:0");
    let same_port = other.attach(other_name, address.as_str());
    let has_files = other.size(0) == Ok(0);
    Ok(
        first == Ok(())
            && same_files == Err(AttachFailed::Disk)
            && same_port == Err(AttachFailed::Link)
            && has_files,
    )
}

#[test]
fn one_machine_has_the_address(rt: HostRuntime) -> Result<(), Fail> {
    let name = name_of(&rt, "first")?;
    let other = name_of(&rt, "second")?;
    let alone = shuts_out(&rt, name.as_str(), other.as_str());
    remove(&rt, &name)?;
    remove(&rt, &other)?;
    let alone = alone?;
    assert!(rt; alone, "alone");
    Ok(())
}
