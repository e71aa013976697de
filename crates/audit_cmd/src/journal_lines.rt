//! Reading the lines of an audit.

ghost use Rattle.std.specs.Prelude.{◌≡◌, ◌++◌, ◌∷◌, [], Ok, Err, IfOk, IfErr, OnOk, map};
ghost use Rattle.std.specs.Option.{option_map};
ghost use Rattle.schedules.specs.InitiatorLines.{is_base, is_plain_http};
ghost use Rattle.schedules.specs.Schedules.{Answers, IfBad, at_line};
ghost use Rattle.schedules.specs.Words.{lines_of};
ghost use Rattle.schedules.specs.declared.line.ScheduleError.TheVariants.{Bad};
ghost use Rattle.audit_cmd.specs.JournalLines.{ends_in_slash, fields, file_in, is_journal_base, is_taken, journal_line, journal_words, journals_of, lines_from, unless_taken};

use crate::journal_line::JournalLine;
use at_base::limits::MOST_BASE;
use at_base::text::Text;
use hex::FromHexError;
use schedules::line::{BadLine, Cause, ScheduleError};
use schedules::words::{first_line, plain_line, words_of};
use std::alloc::{AllocError, Global};
use url::{ParseError, Url};

/// The most nodes of an audit.
const MOST_JOURNALS: u32 = 8;

/// Whether a path may stand behind the URL.
fn is_plain_http(url: &Url) -> bool
    ensures { result ≡ is_plain_http url.now }
{
    url.scheme() == "http" && url.path() == "/" && url.query().is_none() && url.fragment().is_none()
}

/// Whether the word is the base URL of a node, with or without a slash at its end.
fn is_base(alloc: Global, word: &str) -> Result<bool, AllocError>
    ensures { IfOk result (λ is. is ≡ is_base word.now) }
{
    if word.len() > MOST_BASE {
        return Ok(false);
    }
    match Url::parse(alloc, word) {
        Ok(url) => Ok(is_plain_http(&url)),
        Err(ParseError::OutOfMemory | ParseError::Overflow) => Err(AllocError),
        Err(_) => Ok(false),
    }
}

fn ends_in_slash(base: &[u8]) -> bool
    ensures { result ≡ ends_in_slash base.now }
{
    if base.is_empty() {
        return false;
    }
    base[base.len() - 1] == b'/'
}

fn is_journal_base(alloc: Global, word: &str) -> Result<bool, AllocError>
    ensures { IfOk result (λ is. is ≡ is_journal_base word.now) }
{
    let is_base = is_base(alloc, word)?;
    Ok(is_base && !ends_in_slash(word.as_bytes()))
}

/// The bytes of a file. None where the word says none.
fn file_in(alloc: Global, word: &str) -> Result<Option<Vec<u8>>, AllocError>
    ensures { IfOk result (λ file. option_map (λ bytes. bytes.items) file ≡ file_in word.now) }
{
    if word == "-" {
        return Ok(Some(Vec::new(alloc)));
    }
    match hex::decode(alloc, word) {
        Ok(bytes) => Ok(Some(bytes)),
        Err(FromHexError::OutOfMemory) => Err(AllocError),
        Err(_fault) => Ok(None),
    }
}

fn is_taken(lines: &[JournalLine], base: &str) -> bool
    ensures { result ≡ is_taken lines.now base.now }
{
    for line in lines {
        if line.base().as_str() == base {
            return true;
        }
    }
    false
}

/// A journal that has its base and its files.
fn line_of(
    lines: &[JournalLine],
    base: Text,
    first: Vec<u8>,
    second: Vec<u8>,
) -> Result<JournalLine, Cause>
    ensures { result ≡ unless_taken lines.now (record { base = base; files = record { first = first.items; second = second.items } }) }
{
    if is_taken(lines, base.as_str()) {
        return Err(Cause::Nodes);
    }
    Ok(JournalLine::new(base, first, second))
}

fn fields(
    alloc: Global,
    lines: &[JournalLine],
    words: &[&str],
) -> Result<Result<JournalLine, Cause>, AllocError>
    ensures { IfOk result (λ line. line ≡ fields lines.now (map (λ w. w.now) words.now)) }
{
    let [base, first, second] = words else {
        return Ok(Err(Cause::WordCount));
    };
    if !is_journal_base(alloc, base)? {
        return Ok(Err(Cause::Keyword));
    }
    let Some(first) = file_in(alloc, first)? else {
        return Ok(Err(Cause::Hexadecimal));
    };
    let Some(second) = file_in(alloc, second)? else {
        return Ok(Err(Cause::Hexadecimal));
    };
    let base = Text::copied(alloc, base)?;
    Ok(line_of(lines, base, first, second))
}

fn journal_words(
    alloc: Global,
    lines: &[JournalLine],
    words: &[&str],
) -> Result<Result<JournalLine, Cause>, AllocError>
    ensures { IfOk result (λ line. line ≡ journal_words lines.now (map (λ w. w.now) words.now)) }
{
    match words.split_first() {
        Some((word, rest)) if *word == "journal" => fields(alloc, lines, rest),
        _ => Ok(Err(Cause::UnknownWord)),
    }
}

fn bad(line: u32, cause: Cause) -> ScheduleError
    ensures { result ≡ Bad (record { line = line; cause = cause }) }
{
    ScheduleError::Bad(BadLine { line, cause })
}

fn read_line(
    alloc: Global,
    lines: &[JournalLine],
    number: u32,
    line: &[u8],
) -> Result<JournalLine, ScheduleError>
    ensures { Answers (at_line number (journal_line lines.now number line.now)) result }
{
    let Some(plain) = plain_line(line) else {
        return Err(bad(number, Cause::Unprintable));
    };
    if number > MOST_JOURNALS {
        return Err(bad(number, Cause::TooManyLines));
    }
    let words = words_of(alloc, plain)?;
    match journal_words(alloc, lines, words.as_slice())? {
        Ok(line) => Ok(line),
        Err(cause) => Err(bad(number, cause)),
    }
}

fn keep(lines: &mut Vec<JournalLine>, line: JournalLine) -> Result<(), AllocError>
    ensures { OnOk result (lines.new.items ≡ lines.old.items ++ line ∷ []) }
{
    lines.push(line)?;
    Ok(())
}

/// The lines of a text that has some.
#[tactic(auto, using(crate::proofs::JournalTexts::goes_on, crate::proofs::JournalTexts::within))]
fn read_all(alloc: Global, text: &[u8]) -> Result<Vec<JournalLine>, ScheduleError>
    ensures ok { IfOk result (λ lines. lines_from [] 1 (lines_of text.now) ≡ Ok lines.items) }
    ensures err { IfErr result (λ e. IfBad e (λ b. lines_from [] 1 (lines_of text.now) ≡ Err b)) }
{
    let mut lines = Vec::new(alloc);
    let mut rest = text;
    let mut number = 1;
    while let Some((line, behind)) = first_line(rest) {
        let line = read_line(alloc, lines.as_slice(), number, line)?;
        keep(&mut lines, line)?;
        rest = behind;
        number += 1;
    }
    Ok(lines)
}

/// The journals that a text says, a line each, or its first bad line with the first cause that holds of it.
///
/// Each line ends in LF, which the last may lack, and its words are separated by one space. There are 1 to 8.
pub fn read_journals(alloc: Global, text: &[u8]) -> Result<Vec<JournalLine>, ScheduleError>
    ensures ok { IfOk result (λ lines. journals_of text.now ≡ Ok lines.items) }
    ensures err { IfErr result (λ e. IfBad e (λ b. journals_of text.now ≡ Err b)) }
{
    if first_line(text).is_none() {
        return Err(bad(1, Cause::Nodes));
    }
    read_all(alloc, text)
}
