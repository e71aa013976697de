//! The reader of schedules.

ghost use Rattle.std.specs.Prelude.{◌≡◌, ◌++◌, ◌∷◌, [], Ok, Err, OnOk, IfOk, IfErr, map};
ghost use Rattle.schedules.specs.Schedules.{Answers, IfBad, at_line, first_line, first_words, lines_from, next_line, next_words, onto, schedule_of};
ghost use Rattle.schedules.specs.Words.{lines_of};
ghost use Rattle.schedules.specs.LineTexts.{IsSchedule};
ghost use Rattle.schedules.specs.declared.line.ScheduleError.TheVariants.{Bad};

use crate::line::{BadLine, Cause, Line, Schedule, ScheduleError};
use crate::meaning::{read_count, read_meaning};
use crate::words::{first_line, plain_line, words_of};
use std::alloc::{AllocError, Global};

const MOST_LINES: u32 = 10_000;

pub(crate) fn bad(line: u32, cause: Cause) -> ScheduleError
    ensures { result ≡ Bad (record { line = line; cause = cause }) }
{
    ScheduleError::Bad(BadLine { line, cause })
}

fn first_words(words: &[&str]) -> Result<u8, Cause>
    ensures { result ≡ first_words (map (λ w. w.now) words.now) }
{
    match words.split_first() {
        Some((word, rest)) if *word == "nodes" => read_count(rest),
        _ => Err(Cause::Nodes),
    }
}

fn next_words(alloc: Global, nodes: u8, words: &[&str]) -> Result<Result<Line, Cause>, AllocError>
    ensures { IfOk result (λ r. r ≡ next_words nodes (map (λ w. w.now) words.now)) }
{
    let Some((word, rest)) = words.split_first() else {
        return Ok(Err(Cause::UnknownWord));
    };
    if *word == "nodes" {
        return Ok(Err(Cause::Nodes));
    }
    read_meaning(alloc, nodes, word, rest)
}

fn read_first(alloc: Global, line: &[u8]) -> Result<u8, ScheduleError>
    ensures { Answers (at_line 1 (first_line line.now)) result }
{
    let Some(plain) = plain_line(line) else {
        return Err(bad(1, Cause::Unprintable));
    };
    let words = words_of(alloc, plain)?;
    match first_words(words.as_slice()) {
        Ok(count) => Ok(count),
        Err(cause) => Err(bad(1, cause)),
    }
}

fn read_next(alloc: Global, nodes: u8, number: u32, line: &[u8]) -> Result<Line, ScheduleError>
    ensures { Answers (at_line number (next_line nodes number line.now)) result }
{
    let Some(plain) = plain_line(line) else {
        return Err(bad(number, Cause::Unprintable));
    };
    if number > MOST_LINES {
        return Err(bad(number, Cause::TooManyLines));
    }
    let words = words_of(alloc, plain)?;
    match next_words(alloc, nodes, words.as_slice())? {
        Ok(line) => Ok(line),
        Err(cause) => Err(bad(number, cause)),
    }
}

fn keep(lines: &mut Vec<Line>, line: Line) -> Result<(), AllocError>
    ensures { OnOk result (lines.new.items ≡ lines.old.items ++ line ∷ []) }
{
    lines.push(line)?;
    Ok(())
}

/// The lines behind the first, put behind those that are there.
fn read_rest(
    alloc: Global,
    nodes: u8,
    text: &[u8],
    mut lines: Vec<Line>,
) -> Result<Schedule, ScheduleError>
    ensures { Answers (onto lines.items (lines_from nodes 2 (lines_of text.now))) result }
{
    let mut rest = text;
    let mut number = 2;
    while let Some((line, behind)) = first_line(rest) {
        let line = read_next(alloc, nodes, number, line)?;
        keep(&mut lines, line)?;
        rest = behind;
        number += 1;
    }
    Ok(Schedule::from_vec(lines))
}

fn read_lines(alloc: Global, text: &[u8]) -> Result<Schedule, ScheduleError>
    ensures ok { IfOk result (λ lines. schedule_of text.now ≡ Ok lines) }
    ensures err { IfErr result (λ e. IfBad e (λ b. schedule_of text.now ≡ Err b)) }
{
    let Some((first, rest)) = first_line(text) else {
        return Err(bad(1, Cause::Nodes));
    };
    let count = read_first(alloc, first)?;
    let mut lines = Vec::new(alloc);
    keep(&mut lines, Line::Nodes { count })?;
    read_rest(alloc, count, rest, lines)
}

/// The schedule of a text, or its first bad line with the first cause that holds of it.
///
/// Each line ends in LF, which the last may lack, and its words are separated by one space. The first line is
/// `nodes N`, and no other is. Takes time in proportion to the text.
pub fn read_schedule(alloc: Global, text: &[u8]) -> Result<Schedule, ScheduleError>
    ensures ok { IfOk result (λ lines. schedule_of text.now ≡ Ok lines) }
    ensures err { IfErr result (λ e. IfBad e (λ b. schedule_of text.now ≡ Err b)) }
    ensures bounds { IfOk result IsSchedule }
{
    read_lines(alloc, text)
}
