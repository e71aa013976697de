//! A report with the bytes of its messages.

ghost use Rattle.std.specs.Prelude.{◌≡◌, ◌++◌, IfOk, OnOk, map};
ghost use Rattle.memory_net.specs.Mails.{mail_of};
ghost use Rattle.net_plays.specs.MessageBytes.{is_message, left_by, line_with, shown, with_bytes};
ghost use Rattle.schedules.specs.Words.{lines_of};

use memory_net::letter::Letter;
use replay_cmd::lines::Lines;
use schedules::words::first_line;
use std::alloc::{AllocError, Global};

/// Whether a line of a report is that of a message.
fn is_message(line: &[u8]) -> bool
    ensures { result ≡ is_message line.now }
{
    line.starts_with(b"msg ")
}

/// Adds a line of a report, and behind that of a message the bytes of the first of these letters; gives the letters that are left.
fn push_with<'a>(
    alloc: Global,
    lines: &mut Lines,
    line: &[u8],
    letters: &'a [Letter],
) -> Result<&'a [Letter], AllocError>
    ensures line { OnOk result (lines.new ≡ lines.old ++ line_with (is_message line.now) (map mail_of letters.now) line.now) }
    ensures left { IfOk result (λ left. map mail_of left.now ≡ left_by (is_message line.now) (map mail_of letters.now)) }
{
    lines.push_line(line)?;
    if !is_message(line) {
        return Ok(letters);
    }
    match letters.split_first() {
        Some((letter, left)) => {
            lines.push_hex(alloc, letter.bytes.as_slice())?;
            Ok(left)
        }
        None => Ok(letters),
    }
}

/// A report, with the bytes of these letters behind the lines of its messages.
fn with_bytes(alloc: Global, report: &[u8], letters: &[Letter]) -> Result<Lines, AllocError>
    ensures { IfOk result (λ lines. lines ≡ with_bytes (map mail_of letters.now) (lines_of report.now)) }
{
    let mut lines = Lines::new(alloc);
    let mut rest = report;
    let mut left = letters;
    while let Some((line, behind)) = first_line(rest) {
        left = push_with(alloc, &mut lines, line, left)?;
        rest = behind;
    }
    Ok(lines)
}

/// A report, with the bytes of these letters where they are asked for.
pub fn shown(
    alloc: Global,
    report: Lines,
    letters: &[Letter],
    bytes: bool,
) -> Result<Lines, AllocError>
    ensures { IfOk result (λ lines. lines ≡ shown bytes (map mail_of letters.now) report) }
{
    if bytes {
        with_bytes(alloc, report.as_slice(), letters)
    } else {
        Ok(report)
    }
}
