//! Reading the lines of an initiator.

ghost use Rattle.std.specs.Prelude.{◌≡◌, ◌≤◌, ◌++◌, ◌∷◌, [], Ok, Err, OnOk, IfOk, IfErr, length};
ghost use Rattle.schedules.specs.InitiatorLines.{asked_line, initiator_lines_of};
ghost use Rattle.schedules.specs.InitiatorLineTexts.{AreAsked};
ghost use Rattle.schedules.specs.Schedules.{Answers, IfBad, at_line};

use crate::initiator_line::{InitiatorLine, InitiatorLines, WordFault};
use crate::initiator_words::read_words;
use crate::line::{Cause, ScheduleError};
use crate::reader::bad;
use crate::words::{first_line, plain_line, words_of};
use std::alloc::{AllocError, Global};

fn read_line(
    alloc: Global,
    made: u32,
    number: u32,
    line: &[u8],
) -> Result<InitiatorLine, ScheduleError>
    ensures { Answers (at_line number (asked_line made line.now)) result }
{
    let Some(plain) = plain_line(line) else {
        return Err(bad(number, Cause::Unprintable));
    };
    let words = words_of(alloc, plain)?;
    match read_words(alloc, made, words.as_slice()) {
        Ok(line) => Ok(line),
        Err(WordFault::Wrong(cause)) => Err(bad(number, cause)),
        Err(WordFault::OutOfMemory) => Err(ScheduleError::OutOfMemory),
    }
}

fn keep(lines: &mut Vec<InitiatorLine>, line: InitiatorLine) -> Result<(), AllocError>
    ensures { OnOk result (lines.new.items ≡ lines.old.items ++ line ∷ []) }
{
    lines.push(line)?;
    Ok(())
}

fn read_all(alloc: Global, text: &[u8]) -> Result<InitiatorLines, ScheduleError>
    requires { length text.now ≤ 1048576 }
    ensures { Answers (initiator_lines_of text.now) result }
{
    let mut lines = Vec::new(alloc);
    let mut rest = text;
    let mut number = 1;
    let mut made = 0;
    while let Some((line, behind)) = first_line(rest) {
        let line = read_line(alloc, made, number, line)?;
        made = line.made(made);
        keep(&mut lines, line)?;
        rest = behind;
        number += 1;
    }
    Ok(InitiatorLines::from_vec(lines))
}

/// The lines of an initiator, or the first bad line with the first cause that holds of it. The text has at most 1,048,576
/// bytes, as a source gives at most.
///
/// Each line ends in LF, which the last may lack, and its words are separated by one space. A text without a line is read
/// too. Takes time in proportion to the text.
pub fn read_initiator_lines(alloc: Global, text: &[u8]) -> Result<InitiatorLines, ScheduleError>
    requires { length text.now ≤ 1048576 }
    ensures ok { IfOk result (λ lines. initiator_lines_of text.now ≡ Ok lines) }
    ensures err { IfErr result (λ e. IfBad e (λ b. initiator_lines_of text.now ≡ Err b)) }
    ensures bounds { IfOk result (AreAsked 0) }
{
    read_all(alloc, text)
}
