//! The meaning of the words of an initiator's line, given how many activities the lines before it make.

ghost use Rattle.std.specs.Prelude.{◌≡◌, ◌∷◌, ◌&&◌, [], IfOk, map, ◌<◌};
ghost use Rattle.schedules.specs.InitiatorLines.{Finds, allowed, asked, asked_words, begin_line, commit_line, interpose_line, is_base, is_content, is_plain_http, rollback_line, task, wait_line, work_line};
ghost use Rattle.schedules.specs.Values.{kind_in, number_in, vote_in};
ghost use Rattle.schedules.specs.declared.initiator_line.InitiatorLine.TheVariants.{Begin, Interpose, Work};
ghost use Rattle.schedules.specs.declared.initiator_line.WordFault.TheVariants.{Wrong};

use crate::initiator_line::{InitiatorLine, WordFault};
use crate::line::Cause;
use crate::values::{read_kind, read_number, read_vote};
use at_base::limits::{MOST_BASE, MOST_FIELD};
use at_base::notice::{Kind, Vote};
use at_base::text::Text;
use std::alloc::{AllocError, Global};
use url::{ParseError, Url};

fn wrong(cause: Cause) -> WordFault
    ensures { result ≡ Wrong cause }
{
    WordFault::Wrong(cause)
}

fn number(word: &str, least: u32, most: u32) -> Result<u32, WordFault>
    ensures { Finds (number_in least most word.now) result }
{
    match read_number(word, least, most) {
        Ok(number) => Ok(number),
        Err(cause) => Err(wrong(cause)),
    }
}

fn kind(word: &str) -> Result<Kind, WordFault>
    ensures { Finds (kind_in word.now) result }
{
    match read_kind(word) {
        Ok(kind) => Ok(kind),
        Err(cause) => Err(wrong(cause)),
    }
}

fn vote(word: &str) -> Result<Vote, WordFault>
    ensures { Finds (vote_in word.now) result }
{
    match read_vote(word) {
        Ok(vote) => Ok(vote),
        Err(cause) => Err(wrong(cause)),
    }
}

fn allowed(is: bool) -> Result<(), WordFault>
    ensures { Finds (allowed is) result }
{
    if is {
        Ok(())
    } else {
        Err(wrong(Cause::Keyword))
    }
}

/// Whether a path may stand behind the URL.
fn is_plain_http(url: &Url) -> bool
    ensures { result ≡ is_plain_http url.now }
{
    url.scheme() == "http" && url.path() == "/" && url.query().is_none() && url.fragment().is_none()
}

/// Whether the word is the base URL of a node.
fn is_base(alloc: Global, word: &str) -> Result<bool, AllocError>
    ensures { IfOk result (λ is. is ≡ is_base word.now) }
{
    if word.len() > MOST_BASE {
        return Ok(false);
    }
    match Url::parse(alloc, word) {
        Ok(url) => Ok(is_plain_http(&url)),
        Err(ParseError::OutOfMemory | ParseError::Overflow) => Err(AllocError),
        Err(_) => Ok(false),
    }
}

fn base(alloc: Global, word: &str) -> Result<(), WordFault>
    ensures { Finds (allowed (is_base word.now)) result }
{
    match is_base(alloc, word) {
        Ok(is) => allowed(is),
        Err(AllocError) => Err(WordFault::OutOfMemory),
    }
}

/// A key, a value and a base URL.
fn parts(alloc: Global, key: &str, value: &str, url: &str) -> Result<(), WordFault>
    ensures { Finds (allowed (is_content key.now && is_content value.now && is_base url.now)) result }
{
    if key.len() > MOST_FIELD || value.len() > MOST_FIELD {
        return Err(wrong(Cause::Keyword));
    }
    base(alloc, url)
}

fn begins(alloc: Global, url: &str, ms: u32) -> Result<InitiatorLine, AllocError>
    ensures { IfOk result (λ line. line ≡ Begin url.now ms) }
{
    let coordinator = Text::copied(alloc, url)?;
    Ok(InitiatorLine::Begin { coordinator, ms })
}

fn interposes(alloc: Global, activity: u32, url: &str) -> Result<InitiatorLine, AllocError>
    ensures { IfOk result (λ line. line ≡ Interpose activity url.now) }
{
    let coordinator = Text::copied(alloc, url)?;
    Ok(InitiatorLine::Interpose {
        activity,
        coordinator,
    })
}

fn works(
    alloc: Global,
    activity: u32,
    url: &str,
    kind: Kind,
    vote: Vote,
    key: &str,
    value: &str,
) -> Result<InitiatorLine, AllocError>
    ensures { IfOk result (λ line. line ≡ Work activity url.now kind vote key.now value.now) }
{
    let service = Text::copied(alloc, url)?;
    let key = Text::copied(alloc, key)?;
    let value = Text::copied(alloc, value)?;
    Ok(InitiatorLine::Work {
        activity,
        service,
        kind,
        vote,
        key,
        value,
    })
}

fn read_begin(alloc: Global, words: &[&str]) -> Result<InitiatorLine, WordFault>
    ensures { Finds (begin_line (map (λ w. w.now) words.now)) result }
{
    let [url, ms] = words else {
        return Err(wrong(Cause::WordCount));
    };
    let ms = number(ms, 0, u32::MAX)?;
    base(alloc, url)?;
    Ok(begins(alloc, url, ms)?)
}

fn read_interpose(alloc: Global, made: u32, words: &[&str]) -> Result<InitiatorLine, WordFault>
    ensures { Finds (interpose_line made (map (λ w. w.now) words.now)) result }
{
    let [activity, url] = words else {
        return Err(wrong(Cause::WordCount));
    };
    let activity = number(activity, 1, made)?;
    base(alloc, url)?;
    Ok(interposes(alloc, activity, url)?)
}

fn read_task(
    alloc: Global,
    activity: u32,
    url: &str,
    kind_word: &str,
    vote_word: &str,
    key: &str,
    value: &str,
) -> Result<InitiatorLine, WordFault>
    ensures { Finds (task activity url.now kind_word.now vote_word.now key.now value.now) result }
{
    let kind = kind(kind_word)?;
    let vote = vote(vote_word)?;
    parts(alloc, key, value, url)?;
    Ok(works(alloc, activity, url, kind, vote, key, value)?)
}

fn read_work(alloc: Global, made: u32, words: &[&str]) -> Result<InitiatorLine, WordFault>
    ensures { Finds (work_line made (map (λ w. w.now) words.now)) result }
{
    let [activity, url, kind, vote, key, value] = words else {
        return Err(wrong(Cause::WordCount));
    };
    let activity = number(activity, 1, made)?;
    read_task(alloc, activity, url, kind, vote, key, value)
}

fn commits_anyway(made: u32, activity: &str, word: &str) -> Result<InitiatorLine, WordFault>
    ensures { Finds (commit_line made (activity.now ∷ word.now ∷ [])) result }
{
    let activity = number(activity, 1, made)?;
    allowed(word == "anyway")?;
    Ok(InitiatorLine::Commit {
        activity,
        anyway: true,
    })
}

fn read_commit(made: u32, words: &[&str]) -> Result<InitiatorLine, WordFault>
    ensures { Finds (commit_line made (map (λ w. w.now) words.now)) result }
{
    if let [activity, word] = words {
        return commits_anyway(made, activity, word);
    }
    let [activity] = words else {
        return Err(wrong(Cause::WordCount));
    };
    let activity = number(activity, 1, made)?;
    Ok(InitiatorLine::Commit {
        activity,
        anyway: false,
    })
}

fn read_rollback(made: u32, words: &[&str]) -> Result<InitiatorLine, WordFault>
    ensures { Finds (rollback_line made (map (λ w. w.now) words.now)) result }
{
    let [activity] = words else {
        return Err(wrong(Cause::WordCount));
    };
    let activity = number(activity, 1, made)?;
    Ok(InitiatorLine::Rollback { activity })
}

fn read_wait(words: &[&str]) -> Result<InitiatorLine, WordFault>
    ensures { Finds (wait_line (map (λ w. w.now) words.now)) result }
{
    if words.is_empty() {
        Ok(InitiatorLine::Wait)
    } else {
        Err(wrong(Cause::WordCount))
    }
}

fn read_asked(
    alloc: Global,
    made: u32,
    word: &str,
    words: &[&str],
) -> Result<InitiatorLine, WordFault>
    ensures { Finds (asked made word.now (map (λ w. w.now) words.now)) result }
{
    match word {
        "begin" => read_begin(alloc, words),
        "interpose" => read_interpose(alloc, made, words),
        "work" => read_work(alloc, made, words),
        "commit" => read_commit(made, words),
        "rollback" => read_rollback(made, words),
        "wait" => read_wait(words),
        _ => Err(wrong(Cause::UnknownWord)),
    }
}

/// The line of these words.
pub(crate) fn read_words(
    alloc: Global,
    made: u32,
    words: &[&str],
) -> Result<InitiatorLine, WordFault>
    ensures { Finds (asked_words made (map (λ w. w.now) words.now)) result }
{
    let Some((word, rest)) = words.split_first() else {
        return Err(wrong(Cause::UnknownWord));
    };
    read_asked(alloc, made, word, rest)
}
