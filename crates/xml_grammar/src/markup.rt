//! Attribute values, tags and the other tokens of a text whose line ends are read.

ghost use Rattle.std.specs.Prelude.{◌≡◌, ◌+◌, length, IfOk, option_map, encode_utf8_all};
ghost use Rattle.xml_grammar.specs.Tokens.{end_at, section_at, comment_at, reference_at};
ghost use Rattle.xml_grammar.specs.Code.Reading.{value_at, value_in, pair_at, pairs_at, start_at, markup_at, section_token, reference_token, next_at};
ghost use Rattle.xml_grammar.specs.Code.Views.{pair_of, ending_of, token_of};

use crate::lexer::{
    begins_white, is_quote, read_name, read_piece, read_reference, read_until, skip_white, strip,
};
use at_base::text::Text;
use std::alloc::{AllocError, Global};

/// An attribute or a declaration of a namespace as it is spelled, its value as it is read.
#[derive(Drop)]
pub struct Pair<'a> {
    pub name: &'a [char],
    pub value: Text,
}

/// A start tag or an empty tag (XML 1.0, section 3.1).
#[derive(Drop)]
pub struct Tag<'a> {
    pub name: &'a [char],
    pub pairs: Vec<Pair<'a>>,
    pub is_empty: bool,
}

/// What may stand at a place.
#[derive(Drop)]
pub enum Token<'a> {
    /// A character that stands for itself.
    Plain(char),
    /// A reference or a CDATA section: what it is read as.
    Meant(Text),
    Comment,
    Start(Tag<'a>),
    End(&'a [char]),
}

fn read_value<'a>(
    alloc: Global,
    cs: &'a [char],
    quote: char,
) -> Result<Option<(Text, &'a [char])>, AllocError>
    ensures { IfOk result (λ o. option_map (λ p. (p.0, p.1.now)) o ≡ value_at (length cs.now + 1) quote cs.now) }
{
    let mut out = String::new(alloc);
    let mut rest = cs;
    let mut left = cs.len() + 1;
    while left > 0 {
        left -= 1;
        let Some((piece, more)) = read_piece(rest, quote) else {
            return Ok(None);
        };
        match piece {
            Some(c) => out.push(c)?,
            None => return Ok(Some((Text::from_string(out), more))),
        }
        rest = more;
    }
    Ok(None)
}

/// A value in quotes (XML 1.0, sections 2.3 and 3.3.3).
fn read_quoted<'a>(alloc: Global, cs: &'a [char]) -> Result<Option<(Text, &'a [char])>, AllocError>
    ensures { IfOk result (λ o. option_map (λ p. (p.0, p.1.now)) o ≡ value_in cs.now) }
{
    match cs.split_first() {
        Some((quote, inside)) => {
            if is_quote(*quote) {
                return read_value(alloc, inside, *quote);
            }
            Ok(None)
        }
        None => Ok(None),
    }
}

/// An attribute or a declaration (XML 1.0, section 3.1).
#[tactic(auto, unfolding(crate::specs::Code::Reading::pair_at))]
fn read_pair<'a>(
    alloc: Global,
    cs: &'a [char],
) -> Result<Option<(Pair<'a>, &'a [char])>, AllocError>
    ensures { IfOk result (λ o. option_map (λ p. (pair_of p.0, p.1.now)) o ≡ pair_at cs.now) }
{
    let Some((name, rest)) = read_name(cs) else {
        return Ok(None);
    };
    let Some(rest) = strip(skip_white(rest), b"=") else {
        return Ok(None);
    };
    let Some((value, rest)) = read_quoted(alloc, skip_white(rest))? else {
        return Ok(None);
    };
    Ok(Some((Pair { name, value }, rest)))
}

/// The pairs and the end of a tag: whether it is an empty tag, and what is behind it.
#[derive(Drop)]
struct Ending<'a> {
    pairs: Vec<Pair<'a>>,
    is_empty: bool,
    rest: &'a [char],
}

fn read_pairs<'a>(alloc: Global, cs: &'a [char]) -> Result<Option<Ending<'a>>, AllocError>
    ensures { IfOk result (λ o. option_map ending_of o ≡ pairs_at (length cs.now + 1) cs.now) }
{
    let mut pairs = Vec::new(alloc);
    let mut rest = cs;
    let mut left = cs.len() + 1;
    while left > 0 {
        left -= 1;
        let behind = skip_white(rest);
        if let Some(rest) = strip(behind, b">") {
            return Ok(Some(Ending {
                pairs,
                is_empty: false,
                rest,
            }));
        }
        if let Some(rest) = strip(behind, b"/>") {
            return Ok(Some(Ending {
                pairs,
                is_empty: true,
                rest,
            }));
        }
        if !begins_white(rest) {
            return Ok(None);
        }
        let Some((pair, more)) = read_pair(alloc, behind)? else {
            return Ok(None);
        };
        pairs.push(pair)?;
        rest = more;
    }
    Ok(None)
}

#[tactic(auto, unfolding(crate::specs::Code::Reading::start_at))]
fn read_start<'a>(
    alloc: Global,
    cs: &'a [char],
) -> Result<Option<(Token<'a>, &'a [char])>, AllocError>
    ensures { IfOk result (λ o. option_map (λ p. (token_of p.0, p.1.now)) o ≡ start_at cs.now) }
{
    let Some(inside) = strip(cs, b"<") else {
        return Ok(None);
    };
    let Some((name, rest)) = read_name(inside) else {
        return Ok(None);
    };
    let Some(ending) = read_pairs(alloc, rest)? else {
        return Ok(None);
    };
    let tag = Tag {
        name,
        pairs: ending.pairs,
        is_empty: ending.is_empty,
    };
    Ok(Some((Token::Start(tag), ending.rest)))
}

/// The name of an end tag, and what is behind the tag (XML 1.0, section 3.1).
fn read_end(cs: &[char]) -> Option<(&[char], &[char])>
    ensures { option_map (λ p. (p.0.now, p.1.now)) result ≡ end_at cs.now }
{
    let inside = strip(cs, b"</")?;
    let (name, rest) = read_name(inside)?;
    let rest = strip(skip_white(rest), b">")?;
    Some((name, rest))
}

/// The content of a CDATA section, and what is behind the section (XML 1.0, section 2.7).
fn read_section(cs: &[char]) -> Option<(&[char], &[char])>
    ensures { option_map (λ p. (p.0.now, p.1.now)) result ≡ section_at cs.now }
{
    read_until(strip(cs, b"<![CDATA[")?, b"]]>")
}

/// What is behind a comment (XML 1.0, section 2.5).
fn read_comment(cs: &[char]) -> Option<&[char]>
    ensures { option_map (λ r. r.now) result ≡ comment_at cs.now }
{
    let inside = strip(cs, b"<!--")?;
    let (_, closing) = read_until(inside, b"--")?;
    strip(closing, b">")
}

/// The characters in UTF-8.
pub fn utf8(alloc: Global, cs: &[char]) -> Result<Text, AllocError>
    ensures { IfOk result (λ t. t ≡ encode_utf8_all cs.now) }
{
    let mut out = String::new(alloc);
    for c in cs {
        out.push(*c)?;
    }
    Ok(Text::from_string(out))
}

fn read_reference_token<'a>(
    alloc: Global,
    cs: &'a [char],
) -> Result<Option<(Token<'a>, &'a [char])>, AllocError>
    ensures { IfOk result (λ o. option_map (λ p. (token_of p.0, p.1.now)) o ≡ reference_token (reference_at cs.now)) }
{
    let Some((c, rest)) = read_reference(cs) else {
        return Ok(None);
    };
    let mut meant = String::new(alloc);
    meant.push(c)?;
    Ok(Some((Token::Meant(Text::from_string(meant)), rest)))
}

fn read_section_token<'a>(
    alloc: Global,
    cs: &'a [char],
) -> Result<Option<(Token<'a>, &'a [char])>, AllocError>
    ensures { IfOk result (λ o. option_map (λ p. (token_of p.0, p.1.now)) o ≡ section_token (section_at cs.now)) }
{
    let Some((inside, rest)) = read_section(cs) else {
        return Ok(None);
    };
    let text = utf8(alloc, inside)?;
    Ok(Some((Token::Meant(text), rest)))
}

/// What begins with `<`.
#[tactic(auto, unfolding(crate::specs::Code::Reading::markup_at))]
fn read_markup<'a>(
    alloc: Global,
    cs: &'a [char],
) -> Result<Option<(Token<'a>, &'a [char])>, AllocError>
    ensures { IfOk result (λ o. option_map (λ p. (token_of p.0, p.1.now)) o ≡ markup_at cs.now) }
{
    if strip(cs, b"</").is_some() {
        let Some((name, rest)) = read_end(cs) else {
            return Ok(None);
        };
        return Ok(Some((Token::End(name), rest)));
    }
    if strip(cs, b"<!--").is_some() {
        let Some(rest) = read_comment(cs) else {
            return Ok(None);
        };
        return Ok(Some((Token::Comment, rest)));
    }
    if strip(cs, b"<![CDATA[").is_some() {
        return read_section_token(alloc, cs);
    }
    read_start(alloc, cs)
}

/// The token that begins at a place, and what is behind it. None where none begins.
pub fn read_token<'a>(
    alloc: Global,
    cs: &'a [char],
) -> Result<Option<(Token<'a>, &'a [char])>, AllocError>
    ensures { IfOk result (λ o. option_map (λ p. (token_of p.0, p.1.now)) o ≡ next_at cs.now) }
{
    let Some((c, rest)) = cs.split_first() else {
        return Ok(None);
    };
    if *c == '<' {
        return read_markup(alloc, cs);
    }
    if *c == '&' {
        return read_reference_token(alloc, cs);
    }
    if strip(cs, b"]]>").is_some() {
        return Ok(None);
    }
    Ok(Some((Token::Plain(*c), rest)))
}
