//! The byte order mark and the XML declaration (XML 1.0, sections 2.8 and 4.3.3).

ghost use Rattle.std.specs.Prelude.{◌≡◌, [], ◌∷◌, option_map, codes, map};
ghost use Rattle.std.specs.List.{list_all};
ghost use Rattle.xml_grammar.specs.Characters.{same, is_digit, strip_at};
ghost use Rattle.xml_grammar.specs.Spells.{quoted_at, written_at, lower, is_version, is_utf_8, is_yes_or_no, setting_at, optional, declaration_at, body};

use crate::lexer::{begins_white, is_quote, read_until, skip_white, strip};

fn read_quotes(cs: &[char]) -> Option<(&[char], &[char])>
    ensures { option_map (λ p. (p.0.now, p.1.now)) result ≡ quoted_at cs.now }
{
    let (quote, inside) = cs.split_first()?;
    if *quote == '"' {
        return read_until(inside, b"\"");
    }
    if *quote == '\'' {
        return read_until(inside, b"'");
    }
    None
}

/// White space, a word, `=` and a value in quotes: the value, and what is behind it.
fn read_written<'a>(cs: &'a [char], word: &[u8]) -> Option<(&'a [char], &'a [char])>
    ensures { option_map (λ p. (p.0.now, p.1.now)) result ≡ written_at word.now cs.now }
{
    if !begins_white(cs) {
        return None;
    }
    let behind = strip(skip_white(cs), word)?;
    let value = strip(skip_white(behind), b"=")?;
    read_quotes(skip_white(value))
}

fn is_digit(c: char) -> bool
    ensures { result ≡ is_digit c }
{
    matches!(c, '0'..='9')
}

fn all_digits(cs: &[char]) -> bool
    ensures { result ≡ list_all is_digit cs.now }
{
    for c in cs {
        if !is_digit(*c) {
            return false;
        }
    }
    true
}

fn lower(c: char) -> char
    ensures { result ≡ lower c }
{
    c.to_ascii_lowercase()
}

fn is_end(cs: &[char]) -> bool
    ensures { result ≡ same cs.now [] }
{
    match cs.first() {
        Some(_) => false,
        None => true,
    }
}

/// Whether the text is the word of ASCII characters.
pub fn is_word(cs: &[char], word: &[u8]) -> bool
    ensures { result ≡ same cs.now word.now }
{
    let mut rest = cs;
    for w in word {
        match rest.split_first() {
            Some((c, more)) => {
                if *c != char::from(*w) {
                    return false;
                }
                rest = more;
            }
            None => return false,
        }
    }
    is_end(rest)
}

/// Whether the text is the word in any letter case. The word's letters are small.
fn is_word_in_any_case(cs: &[char], word: &[u8]) -> bool
    ensures { result ≡ same (map lower cs.now) word.now }
{
    let mut rest = cs;
    for w in word {
        match rest.split_first() {
            Some((c, more)) => {
                if lower(*c) != char::from(*w) {
                    return false;
                }
                rest = more;
            }
            None => return false,
        }
    }
    is_end(rest)
}

fn is_version(cs: &[char]) -> bool
    ensures { result ≡ is_version cs.now }
{
    match strip(cs, b"1.") {
        Some(digits) => !is_word(digits, b"") && all_digits(digits),
        None => false,
    }
}

fn is_utf_8(cs: &[char]) -> bool
    ensures { result ≡ is_utf_8 cs.now }
{
    is_word_in_any_case(cs, b"utf-8")
}

fn is_yes_or_no(cs: &[char]) -> bool
    ensures { result ≡ is_yes_or_no cs.now }
{
    is_word(cs, b"yes") || is_word(cs, b"no")
}

fn behind_encoding(cs: &[char]) -> &[char]
    ensures { result.now ≡ optional (setting_at (codes "encoding") is_utf_8 cs.now) cs.now }
{
    match read_written(cs, b"encoding") {
        Some((value, rest)) => {
            if is_utf_8(value) {
                return rest;
            }
            cs
        }
        None => cs,
    }
}

fn behind_standalone(cs: &[char]) -> &[char]
    ensures { result.now ≡ optional (setting_at (codes "standalone") is_yes_or_no cs.now) cs.now }
{
    match read_written(cs, b"standalone") {
        Some((value, rest)) => {
            if is_yes_or_no(value) {
                return rest;
            }
            cs
        }
        None => cs,
    }
}

fn behind_version(cs: &[char]) -> Option<&[char]>
    ensures { option_map (λ r. r.now) result ≡ setting_at (codes "version") is_version cs.now }
{
    let (value, rest) = read_written(cs, b"version")?;
    if is_version(value) { Some(rest) } else { None }
}

/// What is behind an XML declaration.
#[tactic(auto, unfolding(crate::specs::Spells::declaration_at))]
fn read_declaration(cs: &[char]) -> Option<&[char]>
    ensures { option_map (λ r. r.now) result ≡ declaration_at cs.now }
{
    let inside = strip(cs, b"<?xml")?;
    let version = behind_version(inside)?;
    let standalone = behind_standalone(behind_encoding(version));
    strip(skip_white(standalone), b"?>")
}

fn behind_mark(cs: &[char]) -> &[char]
    ensures { result.now ≡ optional (strip_at (0xFEFF ∷ []) cs.now) cs.now }
{
    match cs.split_first() {
        Some((c, rest)) => {
            if *c == '\u{feff}' {
                return rest;
            }
            cs
        }
        None => cs,
    }
}

/// The document behind a byte order mark and an XML declaration, where they stand.
#[tactic(auto, unfolding(crate::specs::Spells::body))]
pub fn read_body(cs: &[char]) -> &[char]
    ensures { result.now ≡ body cs.now }
{
    let unmarked = behind_mark(cs);
    match read_declaration(unmarked) {
        Some(rest) => rest,
        None => unmarked,
    }
}
