//! Takes one request many times of a machine in memory, so that a run's time is that of taking it.
//!
//! `request_loop COUNT` takes the request that is read from standard input; with `request_loop COUNT MOST` at most MOST bytes
//! of it come at once.
#![tactic(auto)]

use http_post::refusal::HttpRefusal;
use http_post::request::take_request;
use site_memory::machine::MemSite;
use site_model::site::Site;
use std::alloc::{AllocError, Global};
use std::env;
use std::io::Read;

/// How often a request is taken, and how many of its bytes come at once: as many as there is room for where that is 0.
#[derive(Clone, Copy, Debug, PartialEq, Eq)]
struct Rounds {
    count: u32,
    most: usize,
}

/// The rounds that the words name. None where they name none.
fn rounds_of(words: &[String]) -> Option<Rounds> {
    match words {
        [count] => {
            let count = count.as_str().parse().ok()?;
            Some(Rounds { count, most: 0 })
        }
        [count, most] => {
            let count = count.as_str().parse().ok()?;
            let most = most.as_str().parse().ok()?;
            Some(Rounds { count, most })
        }
        _ => None,
    }
}

/// Whether a request is taken of a connection that brings these bytes.
fn is_taken(alloc: Global, site: &mut MemSite, bytes: &[u8]) -> Result<bool, AllocError> {
    site.connect(bytes)?;
    let _opened = site.take();
    match take_request(alloc, site) {
        Ok(_) => Ok(true),
        Err(HttpRefusal::NoMemory) => Err(AllocError),
        Err(_) => Ok(false),
    }
}

/// The number of requests that were taken.
fn take_again(alloc: Global, bytes: &[u8], rounds: Rounds) -> Result<u32, AllocError> {
    let mut site = MemSite::new(alloc);
    site.give_at_most(rounds.most);
    let mut taken: u32 = 0;
    for _ in 0..rounds.count {
        if is_taken(alloc, &mut site, bytes)? {
            taken = taken.saturating_add(1);
        }
    }
    Ok(taken)
}

fn main(rt: HostRuntime) -> anyhow::Result<()> {
    let alloc = rt.alloc();
    let mut words = Vec::new(alloc);
    for word in env::args(&rt)?.skip(1) {
        words.push(word)?;
    }
    let Some(rounds) = rounds_of(words.as_slice()) else {
        println!(rt; "request_loop COUNT [MOST]")?;
        return Ok(());
    };
    let mut input = Vec::new(alloc);
    rt.stdin().read_to_end(&mut input)?;
    let taken = take_again(alloc, input.as_slice(), rounds)?;
    println!(rt; "taken {taken} of {}", rounds.count)?;
    Ok(())
}
