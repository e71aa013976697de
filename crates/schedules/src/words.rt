//! The lines of a text, and the words of a line.

ghost use Rattle.std.specs.Prelude.{◌≡◌, ◌==◌, ◌<◌, ◌≤◌, ◌∷◌, [], IfOk, length, map, MatchOption, false, true};
ghost use Rattle.std.specs.List.{position_or_len};
ghost use Rattle.schedules.specs.Words.{is_plain, is_printable, lines_of, words_of};

use std::alloc::{AllocError, Global};

/// The first line, without its line feed, and what is behind it.
pub fn first_line(text: &[u8]) -> Option<(&[u8], &[u8])>
    ensures { MatchOption result (lines_of text.now ≡ []) (λ p. (lines_of text.now ≡ p.0.now ∷ lines_of p.1.now) × (length p.1.now < length text.now)) }
{
    if text.is_empty() {
        return None;
    }
    let n = line_len(text);
    if n < text.len() {
        return Some((&text[..n], &text[n + 1..]));
    }
    Some((text, &text[n..]))
}

fn line_len(text: &[u8]) -> usize
    ensures within { result ≤ length text.now }
    ensures value { result ≡ position_or_len (λ b. b == 10) text.now }
{
    let mut n = 0;
    while n < text.len() && text[n] != b'\n' {
        n += 1;
    }
    n
}

fn is_printable(byte: u8) -> bool
    ensures { result ≡ is_printable byte }
{
    32 <= byte && byte <= 126
}

fn is_plain(line: &[u8]) -> bool
    ensures { result ≡ is_plain line.now }
{
    for byte in line {
        if !is_printable(*byte) {
            return false;
        }
    }
    true
}

/// The line as a text, where all its bytes are 32 to 126.
pub fn plain_line(line: &[u8]) -> Option<&str>
    ensures { MatchOption result (is_plain line.now ≡ false) (λ s. (is_plain line.now ≡ true) × (s.now ≡ line.now)) }
{
    if !is_plain(line) {
        return None;
    }
    str::from_utf8(line).ok()
}

/// The words of a line: between two spaces stands an empty one.
pub fn words_of<'a>(alloc: Global, line: &'a str) -> Result<Vec<&'a str>, AllocError>
    ensures { IfOk result (λ v. map (λ w. w.now) v.items ≡ words_of line.entry.now) }
{
    line.split(' ').collect(alloc)
}
