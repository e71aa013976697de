//! Decodes one envelope many times, and encodes its message as often, so that a run's time is that of these alone.
//!
//! `message_loop COUNT` does both; `message_loop decode COUNT` and `message_loop encode COUNT` do one. The envelope is read
//! from standard input, as of a request at the path `/`.
#![tactic(auto)]

use addressing::endpoint::reply_to;
use at_base::epr::{Epr, Reply};
use at_base::message::cloned_option;
use at_base::outs::Post;
use at_base::text::Text;
use std::alloc::{AllocError, Global};
use std::env;
use std::io::Read;
use wire_msgs::decode::{Arrival, decode};
use wire_msgs::refusal::Refusal;
use wire_posts::encode::encode_post;

/// How often an envelope is decoded, and how often its message is encoded.
#[derive(Clone, Copy, Debug, PartialEq, Eq)]
struct Rounds {
    decoded: u32,
    encoded: u32,
}

/// The rounds that the words name. None where they name none.
fn rounds_of(words: &[String]) -> Option<Rounds> {
    match words {
        [count] => {
            let count = count.as_str().parse().ok()?;
            Some(Rounds {
                decoded: count,
                encoded: count,
            })
        }
        [what, count] => {
            let count = count.as_str().parse().ok()?;
            match what.as_str() {
                "decode" => Some(Rounds {
                    decoded: count,
                    encoded: 0,
                }),
                "encode" => Some(Rounds {
                    decoded: 0,
                    encoded: count,
                }),
                _ => None,
            }
        }
        _ => None,
    }
}

fn endpoint(alloc: Global, to: &Option<Text>) -> Result<Option<Epr>, AllocError> {
    match to {
        Some(to) => Ok(Some(Epr {
            address: to.clone()?,
            params: Text::copied(alloc, "")?,
        })),
        None => Ok(None),
    }
}

fn reply_of(reply: &Option<Epr>) -> Result<Option<Reply>, AllocError> {
    match reply {
        Some(_) => Ok(Some(reply_to(reply)?)),
        None => Ok(None),
    }
}

/// The message that arrived, to be sent on.
fn post_of(alloc: Global, arrival: &Arrival) -> Result<Post, AllocError> {
    let to = endpoint(alloc, &arrival.to)?;
    let id = cloned_option(&arrival.id)?;
    let relates = cloned_option(&arrival.relates)?;
    let from = cloned_option(&arrival.from)?;
    let reply = reply_of(&arrival.reply)?;
    let message = arrival.message.clone()?;
    Ok(Post {
        own: None,
        to,
        id,
        relates,
        from,
        reply,
        message,
    })
}

fn decode_again(alloc: Global, bytes: &[u8], count: u32) -> Result<(), Refusal> {
    for _ in 0..count {
        decode(alloc, bytes, "/")?;
    }
    Ok(())
}

/// The number of bytes that were written.
fn encode_again(alloc: Global, post: &Post, count: u32) -> Result<u64, AllocError> {
    let mut total: u64 = 0;
    for _ in 0..count {
        let bytes = encode_post(alloc, post)?;
        total = total.saturating_add(bytes.len() as u64);
    }
    Ok(total)
}

fn report(rt: &impl Print, alloc: Global, input: &[u8], rounds: Rounds) -> anyhow::Result<()> {
    let arrival = decode(alloc, input, "/")?;
    let post = post_of(alloc, &arrival)?;
    decode_again(alloc, input, rounds.decoded)?;
    let bytes = encode_again(alloc, &post, rounds.encoded)?;
    println!(rt;
        "decoded {} encoded {} bytes {bytes}",
        rounds.decoded, rounds.encoded
    )?;
    Ok(())
}

fn main(rt: HostRuntime) -> anyhow::Result<()> {
    let alloc = rt.alloc();
    let mut words = Vec::new(alloc);
    for word in env::args(&rt)?.skip(1) {
        words.push(word)?;
    }
    let Some(rounds) = rounds_of(words.as_slice()) else {
        println!(rt; "message_loop [decode | encode] COUNT")?;
        return Ok(());
    };
    let mut input = Vec::new(alloc);
    rt.stdin().read_to_end(&mut input)?;
    report(&rt, alloc, input.as_slice(), rounds)
}
