//! The meaning of a line's words, given the number of nodes.

ghost use Rattle.std.specs.Prelude.{◌≡◌, IfOk, map};
ghost use Rattle.schedules.specs.Meanings.{count_of, begin_line, interpose_line, work_line, task, commit_line, rollback_line, deliver_line, flush_line, tick_line, crash_line, up_line, stop_line, fail_line, inject_line, stop_so, stop_filled, meaning, plain_meaning};

use crate::line::{Cause, Leaves, Line};
use crate::values::{
    read_byte, read_call, read_hex, read_id, read_kind, read_leaves, read_node, read_number,
    read_small, read_vote,
};
use std::alloc::{AllocError, Global};

/// The greatest message that a line may name.
const MOST_MESSAGES: u32 = 1_000_000;
/// The greatest number of deliveries that one line may ask for.
const MOST_DELIVERIES: u16 = 10_000;

const MOST_NODES: u8 = 8;

/// How many nodes there are.
pub fn read_count(words: &[&str]) -> Result<u8, Cause>
    ensures { result ≡ count_of (map (λ w. w.now) words.now) }
{
    let [count] = words else {
        return Err(Cause::WordCount);
    };
    read_node(MOST_NODES, count)
}

fn read_begin(nodes: u8, words: &[&str]) -> Result<Line, Cause>
    ensures { result ≡ begin_line nodes (map (λ w. w.now) words.now) }
{
    let [node, coordinator, ms] = words else {
        return Err(Cause::WordCount);
    };
    let node = read_node(nodes, node)?;
    let coordinator = read_node(nodes, coordinator)?;
    let ms = read_number(ms, 0, u32::MAX)?;
    Ok(Line::Begin {
        node,
        coordinator,
        ms,
    })
}

fn read_interpose(nodes: u8, words: &[&str]) -> Result<Line, Cause>
    ensures { result ≡ interpose_line nodes (map (λ w. w.now) words.now) }
{
    let [node, activity, coordinator] = words else {
        return Err(Cause::WordCount);
    };
    let node = read_node(nodes, node)?;
    let coordinator = read_node(nodes, coordinator)?;
    let activity = read_id(activity)?;
    Ok(Line::Interpose {
        node,
        activity,
        coordinator,
    })
}

fn read_task(node: u8, service: u8, activity: &str, kind: &str, vote: &str) -> Result<Line, Cause>
    ensures { result ≡ task node service activity.now kind.now vote.now }
{
    let activity = read_id(activity)?;
    let kind = read_kind(kind)?;
    let vote = read_vote(vote)?;
    Ok(Line::Work {
        node,
        activity,
        service,
        kind,
        vote,
    })
}

fn read_work(nodes: u8, words: &[&str]) -> Result<Line, Cause>
    ensures { result ≡ work_line nodes (map (λ w. w.now) words.now) }
{
    let [node, activity, service, kind, vote] = words else {
        return Err(Cause::WordCount);
    };
    let node = read_node(nodes, node)?;
    let service = read_node(nodes, service)?;
    read_task(node, service, activity, kind, vote)
}

fn read_commit(nodes: u8, words: &[&str]) -> Result<Line, Cause>
    ensures { result ≡ commit_line nodes (map (λ w. w.now) words.now) }
{
    let [node, activity] = words else {
        return Err(Cause::WordCount);
    };
    let node = read_node(nodes, node)?;
    let activity = read_id(activity)?;
    Ok(Line::Commit { node, activity })
}

fn read_rollback(nodes: u8, words: &[&str]) -> Result<Line, Cause>
    ensures { result ≡ rollback_line nodes (map (λ w. w.now) words.now) }
{
    let [node, activity] = words else {
        return Err(Cause::WordCount);
    };
    let node = read_node(nodes, node)?;
    let activity = read_id(activity)?;
    Ok(Line::Rollback { node, activity })
}

fn read_deliver(words: &[&str]) -> Result<Line, Cause>
    ensures { result ≡ deliver_line (map (λ w. w.now) words.now) }
{
    let [message] = words else {
        return Err(Cause::WordCount);
    };
    let message = read_number(message, 1, MOST_MESSAGES)?;
    Ok(Line::Deliver { message })
}

fn read_flush(words: &[&str]) -> Result<Line, Cause>
    ensures { result ≡ flush_line (map (λ w. w.now) words.now) }
{
    let [most] = words else {
        return Err(Cause::WordCount);
    };
    let most = read_small(most, 0, MOST_DELIVERIES)?;
    Ok(Line::Flush { most })
}

fn read_tick(nodes: u8, words: &[&str]) -> Result<Line, Cause>
    ensures { result ≡ tick_line nodes (map (λ w. w.now) words.now) }
{
    let [node, ms] = words else {
        return Err(Cause::WordCount);
    };
    let node = read_node(nodes, node)?;
    let ms = read_number(ms, 0, u32::MAX)?;
    Ok(Line::Tick { node, ms })
}

fn read_crash(nodes: u8, words: &[&str]) -> Result<Line, Cause>
    ensures { result ≡ crash_line nodes (map (λ w. w.now) words.now) }
{
    let [node] = words else {
        return Err(Cause::WordCount);
    };
    let node = read_node(nodes, node)?;
    Ok(Line::Crash { node })
}

fn read_up(nodes: u8, words: &[&str]) -> Result<Line, Cause>
    ensures { result ≡ up_line nodes (map (λ w. w.now) words.now) }
{
    let [node] = words else {
        return Err(Cause::WordCount);
    };
    let node = read_node(nodes, node)?;
    Ok(Line::Up { node })
}

fn read_stop_so(nodes: u8, node: &str, call: &str, word: &str) -> Result<Line, Cause>
    ensures { result ≡ stop_so nodes node.now call.now word.now }
{
    if word == "fill" {
        return Err(Cause::WordCount);
    }
    let node = read_node(nodes, node)?;
    let call = read_call(call)?;
    let leaves = read_leaves(word)?;
    Ok(Line::Stop { node, call, leaves })
}

fn read_stop_filled(
    nodes: u8,
    node: &str,
    call: &str,
    word: &str,
    byte: &str,
) -> Result<Line, Cause>
    ensures { result ≡ stop_filled nodes node.now call.now word.now byte.now }
{
    if word == "keep" || word == "drop" {
        return Err(Cause::WordCount);
    }
    let node = read_node(nodes, node)?;
    let call = read_call(call)?;
    if word != "fill" {
        return Err(Cause::Keyword);
    }
    let byte = read_byte(byte)?;
    Ok(Line::Stop {
        node,
        call,
        leaves: Leaves::Fill { byte },
    })
}

fn read_stop(nodes: u8, words: &[&str]) -> Result<Line, Cause>
    ensures { result ≡ stop_line nodes (map (λ w. w.now) words.now) }
{
    match words {
        [node, call, word] => read_stop_so(nodes, node, call, word),
        [node, call, word, byte] => read_stop_filled(nodes, node, call, word, byte),
        _ => Err(Cause::WordCount),
    }
}

fn read_fail(nodes: u8, words: &[&str]) -> Result<Line, Cause>
    ensures { result ≡ fail_line nodes (map (λ w. w.now) words.now) }
{
    let [node, call] = words else {
        return Err(Cause::WordCount);
    };
    let node = read_node(nodes, node)?;
    let call = read_call(call)?;
    Ok(Line::Fail { node, call })
}

fn read_inject(alloc: Global, nodes: u8, words: &[&str]) -> Result<Result<Line, Cause>, AllocError>
    ensures { IfOk result (λ r. r ≡ inject_line nodes (map (λ w. w.now) words.now)) }
{
    let [node, digits] = words else {
        return Ok(Err(Cause::WordCount));
    };
    let node = match read_node(nodes, node) {
        Ok(node) => node,
        Err(cause) => return Ok(Err(cause)),
    };
    match read_hex(alloc, digits)? {
        Ok(digits) => Ok(Ok(Line::Inject { node, digits })),
        Err(cause) => Ok(Err(cause)),
    }
}

/// The line of this first word, which isn't `nodes`, and the words behind it.
pub fn read_meaning(
    alloc: Global,
    nodes: u8,
    word: &str,
    words: &[&str],
) -> Result<Result<Line, Cause>, AllocError>
    ensures { IfOk result (λ r. r ≡ meaning nodes word.now (map (λ w. w.now) words.now)) }
{
    match word {
        "inject" => read_inject(alloc, nodes, words),
        _ => Ok(read_plain_meaning(nodes, word, words)),
    }
}

/// The same of a line that takes no memory.
fn read_plain_meaning(nodes: u8, word: &str, words: &[&str]) -> Result<Line, Cause>
    ensures { result ≡ plain_meaning nodes word.now (map (λ w. w.now) words.now) }
{
    match word {
        "begin" => read_begin(nodes, words),
        "interpose" => read_interpose(nodes, words),
        "work" => read_work(nodes, words),
        "commit" => read_commit(nodes, words),
        "rollback" => read_rollback(nodes, words),
        "deliver" => read_deliver(words),
        "flush" => read_flush(words),
        "tick" => read_tick(nodes, words),
        "crash" => read_crash(nodes, words),
        "up" => read_up(nodes, words),
        "stop" => read_stop(nodes, words),
        "fail" => read_fail(nodes, words),
        _ => Err(Cause::UnknownWord),
    }
}
