//! Words, white space, names and references: what begins at a place of a text whose line ends are read.

ghost use Rattle.std.specs.Prelude.{◌≡◌, Option, option_map, encode_utf8, not, nat_eq, length, ◌≤◌, ◌<◌, IfSome, false};
ghost use Rattle.xml_grammar.specs.Code.Views.{parts_of};
ghost use Rattle.std.specs.List.{prefix_len};
ghost use Rattle.xml_grammar.specs.Characters.{same, is_white, begins_part, continues_part, is_name_char, is_quote, strip_at, behind_white, begins_white, until, is_part, parts, name_at};
ghost use Rattle.std.specs.List.{list_all};
ghost use Rattle.xml_grammar.specs.Tokens.{is_plain, spaced, hexadecimal, decimal_digit, reference_at, numbered};
ghost use Rattle.xml_grammar.specs.Code.Digits.{digit_in, add_digit, capped_from};
ghost use Rattle.xml_grammar.specs.Code.Reading.{piece_at};

use at_base::well_formed::is_xml_char;

/// White space (XML 1.0, section 2.3).
pub fn is_white(c: char) -> bool
    ensures { result ≡ is_white c }
{
    matches!(c, ' ' | '\t' | '\n' | '\r')
}

fn begins_part(c: char) -> bool
    ensures { result ≡ begins_part c }
{
    matches!(c, 'A'..='Z' | 'a'..='z' | '_' | '\u{80}'..)
}

fn continues_part(c: char) -> bool
    ensures { result ≡ continues_part c }
{
    begins_part(c) || matches!(c, '0'..='9' | '-' | '.')
}

fn is_name_char(c: char) -> bool
    ensures { result ≡ is_name_char c }
{
    continues_part(c) || c == ':'
}

pub fn is_plain(c: char) -> bool
    ensures { result ≡ is_plain c }
{
    c != '<' && c != '&'
}

pub fn is_quote(c: char) -> bool
    ensures { result ≡ is_quote c }
{
    c == '"' || c == '\''
}

fn spaced(c: char) -> char
    ensures { result ≡ spaced c }
{
    if is_white(c) { ' ' } else { c }
}

/// What is behind a word of ASCII characters, where the text begins with it.
pub fn strip<'a>(cs: &'a [char], word: &[u8]) -> Option<&'a [char]>
    ensures { option_map (λ r. r.now) result ≡ strip_at word.now cs.now }
{
    let mut rest = cs;
    for w in word {
        match rest.split_first() {
            Some((c, more)) => {
                if char::from(*w) != *c {
                    return None;
                }
                rest = more;
            }
            None => return None,
        }
    }
    Some(rest)
}

/// Whether two names are spelled alike.
pub fn is_same(a: &[char], b: &[char]) -> bool
    ensures { result ≡ same a.now b.now }
{
    a == b
}

/// Whether two texts are the same.
#[tactic(auto, using(crate::proofs::MeaningLaws::bytes_same))]
pub fn is_same_text(a: &str, b: &str) -> bool
    ensures { result ≡ same a.now b.now }
{
    a == b
}

/// What is behind white space.
pub fn skip_white(cs: &[char]) -> &[char]
    ensures { result.now ≡ behind_white cs.now }
{
    let mut n = 0;
    while n < cs.len() && is_white(cs[n]) {
        n += 1;
    }
    &cs[n..]
}

/// Whether white space stands next.
pub fn begins_white(cs: &[char]) -> bool
    ensures { result ≡ begins_white cs.now }
{
    match cs.first() {
        Some(c) => is_white(*c),
        None => false,
    }
}

fn name_len(cs: &[char]) -> usize
    ensures value { result ≡ prefix_len is_name_char cs.now }
    ensures within { result ≤ length cs.now }
{
    let mut n = 0;
    while n < cs.len() && is_name_char(cs[n]) {
        n += 1;
    }
    n
}

/// A spelled name taken apart. An empty prefix is none.
#[derive(Clone, Copy, Debug)]
pub struct Parts<'a> {
    pub prefix: &'a [char],
    pub local: &'a [char],
}

fn all_continue(cs: &[char]) -> bool
    ensures { result ≡ list_all continues_part cs.now }
{
    for c in cs {
        if !continues_part(*c) {
            return false;
        }
    }
    true
}

fn is_part(cs: &[char]) -> bool
    ensures { result ≡ is_part cs.now }
{
    match cs.split_first() {
        Some((first, rest)) => begins_part(*first) && all_continue(rest),
        None => false,
    }
}

fn prefix_len(cs: &[char]) -> usize
    ensures value { result ≡ prefix_len (λ c. not (nat_eq c 58)) cs.now }
    ensures within { result ≤ length cs.now }
{
    let mut n = 0;
    while n < cs.len() && cs[n] != ':' {
        n += 1;
    }
    n
}

/// The prefix and the local part of a spelled name (Namespaces in XML 1.0, section 4). None where it is no name.
pub fn split_name(name: &[char]) -> Option<Parts<'_>>
    ensures { option_map parts_of result ≡ parts name.now }
{
    let n = prefix_len(name);
    let first = &name[..n];
    match name[n..].split_first() {
        None => {
            if is_part(first) {
                return Some(Parts {
                    prefix: &[],
                    local: first,
                });
            }
            None
        }
        Some((_, second)) => {
            if is_part(first) && is_part(second) {
                return Some(Parts {
                    prefix: first,
                    local: second,
                });
            }
            None
        }
    }
}

/// The name that stands next, and what is behind it.
pub fn read_name(cs: &[char]) -> Option<(&[char], &[char])>
    ensures { option_map (λ p. (p.0.now, p.1.now)) result ≡ name_at cs.now }
{
    let n = name_len(cs);
    let name = &cs[..n];
    match split_name(name) {
        Some(_) => Some((name, &cs[n..])),
        None => None,
    }
}

fn decimal_digit(c: char) -> Option<u32>
    ensures value { result ≡ decimal_digit c }
    ensures low { IfSome result (λ d. d < 16) }
{
    match c {
        '0'..='9' => Some(c as u32 - 48),
        _ => None,
    }
}

fn hexadecimal(c: char) -> Option<u32>
    ensures value { result ≡ hexadecimal c }
    ensures low { IfSome result (λ d. d < 16) }
{
    match c {
        '0'..='9' => Some(c as u32 - 48),
        'a'..='f' => Some(c as u32 - 87),
        'A'..='F' => Some(c as u32 - 55),
        _ => None,
    }
}

fn digit_in(is_hexadecimal: bool, c: char) -> Option<u32>
    ensures value { result ≡ digit_in is_hexadecimal c }
    ensures low { IfSome result (λ d. d < 16) }
{
    if is_hexadecimal {
        hexadecimal(c)
    } else {
        decimal_digit(c)
    }
}

/// The number with one more digit, no higher than 1,114,112: no character has a number that high.
fn add_digit(is_hexadecimal: bool, number: u32, digit: u32) -> u32
    requires number { number ≤ 1114112 }
    requires digit { digit < 16 }
    ensures value { result ≡ add_digit is_hexadecimal number digit }
    ensures most { result ≤ 1114112 }
{
    let sum = if is_hexadecimal {
        number * 16 + digit
    } else {
        number * 10 + digit
    };
    sum.min(1_114_112)
}

/// Digits as long as they go, and a `;`: the number, and what is behind.
fn read_number(cs: &[char], is_hexadecimal: bool) -> Option<(u32, &[char])>
    ensures { option_map (λ p. (p.0, p.1.now)) result ≡ capped_from is_hexadecimal false 0 cs.now }
{
    let mut number = 0;
    let mut any = false;
    let mut rest = cs;
    for _ in 0..cs.len() {
        let (c, more) = rest.split_first()?;
        match digit_in(is_hexadecimal, *c) {
            Some(digit) => {
                number = add_digit(is_hexadecimal, number, digit);
                any = true;
                rest = more;
            }
            None => {
                if any && *c == ';' {
                    return Some((number, more));
                }
                return None;
            }
        }
    }
    None
}

fn read_numbered(cs: &[char], is_hexadecimal: bool) -> Option<(char, &[char])>
    ensures { option_map (λ p. (p.0, p.1.now)) result ≡ numbered (capped_from is_hexadecimal false 0 cs.now) }
{
    let (number, rest) = read_number(cs, is_hexadecimal)?;
    let c = char::from_u32(number)?;
    if is_xml_char(c) {
        Some((c, rest))
    } else {
        None
    }
}

/// A reference: the character that it stands for, and what is behind it (XML 1.0, sections 4.1 and 4.6).
#[tactic(auto, using(crate::proofs::DigitLaws::hexadecimal_same, crate::proofs::DigitLaws::decimal_same))]
pub fn read_reference(cs: &[char]) -> Option<(char, &[char])>
    ensures { option_map (λ p. (p.0, p.1.now)) result ≡ reference_at cs.now }
{
    if let Some(rest) = strip(cs, b"&amp;") {
        return Some(('&', rest));
    }
    if let Some(rest) = strip(cs, b"&lt;") {
        return Some(('<', rest));
    }
    if let Some(rest) = strip(cs, b"&gt;") {
        return Some(('>', rest));
    }
    if let Some(rest) = strip(cs, b"&apos;") {
        return Some(('\'', rest));
    }
    if let Some(rest) = strip(cs, b"&quot;") {
        return Some(('"', rest));
    }
    if let Some(rest) = strip(cs, b"&#x") {
        return read_numbered(rest, true);
    }
    let rest = strip(cs, b"&#")?;
    read_numbered(rest, false)
}

/// The closing quote, or else the character that the next piece of a value is read as; and what is behind it.
pub fn read_piece(cs: &[char], quote: char) -> Option<(Option<char>, &[char])>
    ensures { option_map (λ p. (option_map encode_utf8 p.0, p.1.now)) result ≡ piece_at quote cs.now }
{
    let (c, rest) = cs.split_first()?;
    if *c == quote {
        return Some((None, rest));
    }
    if is_plain(*c) {
        return Some((Some(spaced(*c)), rest));
    }
    let (meant, rest) = read_reference(cs)?;
    Some((Some(meant), rest))
}

/// What stands before the first place where the word stands, and what is behind the word.
pub fn read_until<'a>(cs: &'a [char], word: &[u8]) -> Option<(&'a [char], &'a [char])>
    ensures { option_map (λ p. (p.0.now, p.1.now)) result ≡ until word.now cs.now }
{
    let mut n = 0;
    while n < cs.len() {
        if let Some(rest) = strip(&cs[n..], word) {
            return Some((&cs[..n], rest));
        }
        n += 1;
    }
    None
}
