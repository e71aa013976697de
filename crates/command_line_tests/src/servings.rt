//! Commands that serve, through the top call.

use crate::top_call::{are_said, words_of};
use command_line::run::run;
use journal_cmd::memory_files::MemoryFiles;
use shown_pages::showing::Showing;
use site_memory::machine::MemSite;
use site_model::memory::{MemSink, MemSource};
use site_model::sink::Sink;
use site_model::site::Site;
use site_model::sure_site::SureSite;
use std::alloc::{AllocError, Global};
use std::test::Fail;

/// The status of a command over this input and machine, and whether it prints this.
fn serves<H: Showing>(
    alloc: Global,
    line: &str,
    input: &str,
    site: &mut H,
    printed: &str,
) -> Result<(u8, bool), AllocError> {
    let words = words_of(alloc, line)?;
    let mut source = MemSource::new(alloc, input.as_bytes())?;
    let mut sink = MemSink::new(alloc);
    let mut errors = MemSink::new(alloc);
    let status = run(
        alloc,
        words.as_slice(),
        &mut source,
        &mut sink,
        &mut errors,
        &mut MemoryFiles::new(alloc),
        site,
    );
    Ok((status, are_said(status, &sink, &errors, printed)))
}

const NO_SERVING: &str =
    "error: invalid value for '--listen <ADDR>', '--base <URL>' or '--turns <N>'\n  \
[ADDR: HOST:PORT of at most 1000 bytes, as http URLs are normalized, PORT 1 to 65535; URL: http:// and such an ADDR, not 0.0.0.0 or [::]; N: 0 to 4294967295]\n\n\
For more information, try '--help'.\n";

const NO_BASE: &str =
    "error: '--listen <ADDR>' is every address of this machine, at which no other node reaches it\n  \
[say by '--base <URL>' how others reach it, as http://h.example:9001]\n\n\
For more information, try '--help'.\n";

/// Words, the input, the status, and what is printed, on a machine to which nobody connects.
const ROWS: &[(&str, &str, u8, &str)] = &[
    (
        "coordinator --listen 127.0.0.1:9001 --journal j --turns 5",
        "",
        0,
        "up 1\n",
    ),
    (
        "participant --turns=4294967295 --journal j --listen localhost:9002",
        "commit",
        0,
        "up 1\n",
    ),
    (
        "initiator --listen 127.0.0.1:9003 --journal j --turns 0",
        "begin http://127.0.0.1:9001 0\ncommit 1\nwait\n",
        13,
        "up 1\nrefused state\n",
    ),
    (
        "initiator --listen 127.0.0.1:9003 --journal j --turns 0",
        "wait\ncommit 1\n",
        3,
        "line 2 cause 3\n",
    ),
    (
        "coordinator --listen 127.0.0.1:9001 --journal j --turns 05",
        "",
        2,
        NO_SERVING,
    ),
    (
        "coordinator --listen 127.0.0.1:9001 --journal j --turns 4294967296",
        "",
        2,
        NO_SERVING,
    ),
    // no end of connections
    (
        "coordinator --listen 127.0.0.1:9001 --journal j",
        "",
        0,
        "up 1\n",
    ),
    // another base than the address
    (
        "coordinator --listen 127.0.0.1:9001 --journal j --base http://h.example:80",
        "",
        0,
        "up 1\n",
    ),
    (
        "participant --base=http://[::1]:9 --listen 0.0.0.0:9001 --journal j",
        "",
        0,
        "up 1\n",
    ),
    (
        "coordinator --listen 0.0.0.0:9001 --journal j",
        "",
        2,
        NO_BASE,
    ),
    (
        "coordinator --listen [::]:1 --journal j --turns 05",
        "",
        2,
        NO_BASE,
    ),
    (
        "coordinator --listen 127.0.0.1:9001 --journal j --base http://h.example",
        "",
        2,
        NO_SERVING,
    ),
    (
        "coordinator --listen 127.0.0.1:9001 --journal j --base http://h.example:9001/",
        "",
        2,
        NO_SERVING,
    ),
    (
        "coordinator --listen 127.0.0.1:9001 --journal j --base http://h.example:9001/a",
        "",
        2,
        NO_SERVING,
    ),
    (
        "coordinator --listen 127.0.0.1:9001 --journal j --base http://h.example:9001?q",
        "",
        2,
        NO_SERVING,
    ),
    (
        "coordinator --listen 127.0.0.1:9001 --journal j --base https://h.example:9001",
        "",
        2,
        NO_SERVING,
    ),
    (
        "coordinator --listen 127.0.0.1:9001 --journal j --base h.example:9001",
        "",
        2,
        NO_SERVING,
    ),
    (
        "coordinator --listen [::]:1 --journal j --base http://h.example",
        "",
        2,
        NO_SERVING,
    ),
    (
        "coordinator --listen 0.0.0.0:9001 --journal j --base http://0.0.0.0:9001",
        "",
        2,
        NO_SERVING,
    ),
    (
        "coordinator --listen 127.0.0.1:9001 --journal j --base http://[::]:9001",
        "",
        2,
        NO_SERVING,
    ),
];

#[test]
fn who_serves_is_named_by_the_words(rt: HostRuntime) -> Result<(), Fail> {
    for (line, input, status, printed) in ROWS {
        let found = serves(rt.alloc(), line, input, &mut SureSite::new(), printed)?;
        assert!(rt; found == (*status, true), "{line}: {found:?}");
    }
    Ok(())
}

/// Addresses, and whether a node may listen there. What is refused stands behind a neighbour that is taken.
const ADDRESSES: &[(&str, bool)] = &[
    ("h.example:9001", true),
    ("h.example", false),
    ("h.example:", false),
    ("H.example:9001", false),
    ("h.example:9001/", false),
    ("h.example/:9001", false),
    ("h.example:9001?q", false),
    ("h.example:9001#f", false),
    ("u@h.example:9001", false),
    ("h.example\\:9001", false),
    ("h.exampl%65:9001", false),
    ("http://h.example:9001", false),
    ("h:80", true),
    ("h:080", false),
    ("h:+80", false),
    ("h:1", true),
    ("h:0", false),
    ("h:65535", true),
    ("h:65536", false),
    ("h:9001:9002", false),
    (":9001", false),
    ("127.0.0.1:9001", true),
    ("127.1:9001", false),
    ("127.0.0.256:9001", false),
    ("[::1]:9001", true),
    ("[::1]", false),
    ("::1:9001", false),
    ("[0::1]:9001", false),
];

/// Whether a node comes up at an address. None where it does neither that nor say what an address is.
fn comes_up_at(alloc: Global, listen: &str) -> Result<Option<bool>, AllocError> {
    let line = format!(in alloc; "coordinator --listen {listen} --journal j --turns 0")?;
    let up = serves(alloc, line.as_str(), "", &mut SureSite::new(), "up 1\n")?;
    if up == (0, true) {
        return Ok(Some(true));
    }
    let refused = serves(alloc, line.as_str(), "", &mut SureSite::new(), NO_SERVING)?;
    if refused == (2, true) {
        return Ok(Some(false));
    }
    Ok(None)
}

#[test]
fn an_address_is_a_host_and_a_port(rt: HostRuntime) -> Result<(), Fail> {
    for (listen, is_taken) in ADDRESSES {
        let found = comes_up_at(rt.alloc(), listen)?;
        assert!(rt; found == Some(*is_taken), "{listen}: {found:?}");
    }
    Ok(())
}

/// Whether a node comes up at a host of so many letters, with a port behind it.
fn comes_up_at_long(alloc: Global, count: usize) -> Result<Option<bool>, AllocError> {
    let host = "a".repeat(alloc, count)?;
    let listen = format!(in alloc; "{host}:9001")?;
    comes_up_at(alloc, listen.as_str())
}

/// Of 1,000 bytes, and of one more.
#[test]
fn an_address_has_1000_bytes(rt: HostRuntime) -> Result<(), Fail> {
    let longest = comes_up_at_long(rt.alloc(), 995)?;
    let longer = comes_up_at_long(rt.alloc(), 996)?;
    assert!(rt; longest == Some(true) && longer == Some(false));
    Ok(())
}

/// A machine of these names, with this in its first file.
fn machine(alloc: Global, journal: &[u8], listen: &[u8], file: &[u8]) -> Option<MemSite> {
    let mut site = MemSite::new(alloc);
    site.named(journal, listen).ok()?;
    site.write_at(0, 0, file).ok()?;
    site.sync(0).ok()?;
    Some(site)
}

/// The names of the machine's journal and address, its first file, the status, and what is printed.
const MACHINES: &[(&[u8], &[u8], &[u8], u8, &str)] = &[
    (b"j", b"127.0.0.1:9001", b"", 0, "up 1\n"),
    (b"k", b"127.0.0.1:9001", b"", 6, ""),
    (b"j", b"127.0.0.1:9002", b"", 8, ""),
    (
        b"j",
        b"127.0.0.1:9001",
        b"\x01\x00\x00\x00\x05\x01\x00",
        7,
        "bad journal at 0\n",
    ),
    (
        b"j",
        b"127.0.0.1:9001",
        b"notes of a day",
        7,
        "no journal\n",
    ),
    (
        b"j",
        b"127.0.0.1:9001",
        b"\x01\x00\x00\x00\x05\x0b\x00\x00\x00\x00\x01\x00\x00\x00\x05\x01\xff\xff\xff\xff\x00",
        11,
        "",
    ),
];

fn comes_up(
    alloc: Global,
    journal: &[u8],
    listen: &[u8],
    file: &[u8],
    printed: &str,
) -> Result<(u8, bool), AllocError> {
    match machine(alloc, journal, listen, file) {
        Some(mut site) => serves(
            alloc,
            "coordinator --listen 127.0.0.1:9001 --journal j --turns 1",
            "",
            &mut site,
            printed,
        ),
        None => Err(AllocError),
    }
}

#[test]
fn each_end_has_its_status(rt: HostRuntime) -> Result<(), Fail> {
    for (journal, listen, file, status, printed) in MACHINES {
        let found = comes_up(rt.alloc(), journal, listen, file, printed)?;
        assert!(rt; found == (*status, true), "{status}: {found:?}");
    }
    Ok(())
}
