//! The open elements of a document while its tokens are read. What is below the last level that is kept is counted and
//! dropped, so that no tree grows deeper than it may.

ghost use Rattle.std.specs.Prelude.{◌≡◌, [], string_bytes, IfOk, OnOk};
ghost use Rattle.xml_grammar.specs.Code.Machine.{flushed, opening, state};
ghost use Rattle.xml_grammar.specs.Code.Found.{finish};
ghost use Rattle.xml_grammar.specs.Code.Shallow.{entered_by, flushed_in, flushed_reading, kept_tree, shut, reading, read_with};
ghost use Rattle.xml_grammar.specs.Tokens.Token.{Plain, Meant, Start, End};
ghost use Rattle.xml_grammar.specs.Code.Views.{tag_of, token_of};
ghost use Rattle.xml_grammar.specs.Code.Open.{bindings_of, frame_of, frames_of, reading_of, going};

use crate::lexer::{is_same, is_white};
use crate::markup::{Tag, Token};
use crate::meaning::read_meaning;
use crate::scope::Scope;
use at_base::text::Text;
use std::alloc::{AllocError, Global};
use std::mem;
use xml_profile::name::{Attributes, QName};
use xml_profile::tree::{Child, Children, Tree};

/// The most levels of elements that are kept.
pub const LEVELS: usize = 32;

/// An open element.
#[derive(Drop)]
pub struct Frame<'a> {
    pub spelled: &'a [char],
    pub name: QName,
    pub attributes: Attributes,
    pub kids: Vec<Child>,
    /// The number of bindings outside it.
    pub outside: usize,
}

/// What has been read so far: the bindings in force, the open elements, the text that is not yet a child, and the root
/// once it has ended.
#[derive(Drop)]
pub struct Machine<'a> {
    pub alloc: Global,
    pub scope: Scope<'a>,
    pub frames: Vec<Frame<'a>>,
    pub pending: String,
    pub ended: Option<Tree>,
    /// The most elements that stood open.
    pub deepest: usize,
}

/// A document that was read: its root down to the last level that is kept, and how many levels it has.
#[derive(Drop)]
pub struct Found {
    pub tree: Tree,
    pub levels: usize,
}

/// An open element with a text behind its children, where there is one.
#[tactic(auto, using(crate::proofs::FrameLaws::text_pushed, crate::proofs::FrameLaws::no_text_pushed))]
fn with_text<'a>(frame: Frame<'a>, text: String) -> Result<Frame<'a>, AllocError>
    ensures { IfOk result (λ f. frame_of f ≡ flushed (frame_of frame.entry) (string_bytes text)) }
{
    if text.as_str().is_empty() {
        return Ok(frame);
    }
    let mut frame = frame;
    frame.kids.push(Child::Text(Text::from_string(text)))?;
    Ok(frame)
}

/// An open element with an element behind its children, unless that is too deep.
#[tactic(auto, using(crate::proofs::FrameLaws::element_pushed))]
fn with_element<'a>(frame: Frame<'a>, around: usize, tree: Tree) -> Result<Frame<'a>, AllocError>
    ensures { IfOk result (λ f. frame_of f ≡ kept_tree around (frame_of frame.entry) tree) }
{
    if around >= LEVELS - 1 {
        return Ok(frame);
    }
    let mut frame = frame;
    frame.kids.push(Child::Element(tree))?;
    Ok(frame)
}

/// A text that has ended becomes a child of the innermost open element.
#[tactic(auto, using(crate::proofs::FrameLaws::frames_pushed))]
fn flush<'a>(frames: &mut Vec<Frame<'a>>, pending: String) -> Result<(), AllocError>
    ensures { OnOk result (frames_of frames.new.items ≡ flushed_in (frames_of frames.old.items) (string_bytes pending)) }
{
    if let Some(frame) = frames.pop() {
        frames.push(with_text(frame, pending)?)?;
    }
    Ok(())
}

/// An element that has ended becomes a child of the innermost open one, or else is the root that is answered.
#[tactic(auto, using(crate::proofs::FrameLaws::frames_pushed))]
fn shut<'a>(
    scope: &mut Scope<'a>,
    frames: &mut Vec<Frame<'a>>,
    frame: Frame<'a>,
) -> Result<Option<Tree>, AllocError>
    ensures { IfOk result (λ root. state (bindings_of scope.new) (frames_of frames.new.items) [] root ≡ shut (bindings_of scope.old) (frame_of frame.entry) (frames_of frames.old.items)) }
{
    scope.leave(frame.outside);
    let tree = Tree {
        name: frame.name,
        attributes: frame.attributes,
        children: Children::from_vec(frame.kids),
    };
    let Some(outer) = frames.pop() else {
        return Ok(Some(tree));
    };
    let around = frames.len();
    frames.push(with_element(outer, around, tree)?)?;
    Ok(None)
}

impl<'a> Machine<'a> {
    pub fn new(alloc: Global) -> Result<Machine<'a>, AllocError>
        ensures { IfOk result (λ m. reading_of m ≡ reading 0 opening) }
    {
        Ok(Machine {
            alloc,
            scope: Scope::new(alloc)?,
            frames: Vec::new(alloc),
            pending: String::new(alloc),
            ended: None,
            deepest: 0,
        })
    }

    fn flush(&mut self) -> Result<(), AllocError>
        ensures { OnOk result (reading_of self.new ≡ flushed_reading (reading_of self.old)) }
    {
        let pending = mem::replace(&mut self.pending, String::new(self.alloc));
        flush(&mut self.frames, pending)
    }

    fn plain(&mut self, c: char) -> Result<bool, AllocError>
        ensures { IfOk result (λ goes. going goes (reading_of self.new) ≡ read_with (reading_of self.old) (Plain c)) }
    {
        if self.frames.is_empty() {
            return Ok(is_white(c));
        }
        self.pending.push(c)?;
        Ok(true)
    }

    fn meant(&mut self, text: &str) -> Result<bool, AllocError>
        ensures { IfOk result (λ goes. going goes (reading_of self.new) ≡ read_with (reading_of self.old) (Meant text.now)) }
    {
        if self.frames.is_empty() {
            return Ok(false);
        }
        self.pending.push_str(text)?;
        Ok(true)
    }

    fn start(&mut self, tag: Tag<'a>) -> Result<bool, AllocError>
        ensures { IfOk result (λ goes. going goes (reading_of self.new) ≡ read_with (reading_of self.old) (Start (tag_of tag.entry))) }
    {
        if self.frames.is_empty() && self.ended.is_some() {
            return Ok(false);
        }
        self.flush()?;
        let spelled = tag.name;
        let is_empty = tag.is_empty;
        let outside = self.scope.len();
        let Some(meaning) = read_meaning(self.alloc, &mut self.scope, tag)? else {
            return Ok(false);
        };
        self.deepest = self.deepest.max(self.frames.len() + 1);
        let frame = Frame {
            spelled,
            name: meaning.name,
            attributes: meaning.attributes,
            kids: Vec::new(self.alloc),
            outside,
        };
        self.ended = self.enter(is_empty, frame)?;
        Ok(true)
    }

    /// An element begins, and ends at once where its tag is empty.
    fn enter(&mut self, is_empty: bool, frame: Frame<'a>) -> Result<Option<Tree>, AllocError>
        ensures entered { IfOk result (λ root. state (bindings_of self.new.scope) (frames_of self.new.frames.items) [] root ≡ entered_by is_empty (bindings_of self.old.scope) (frame_of frame.entry) (frames_of self.old.frames.items)) }
        ensures pending { IfOk result (λ _. string_bytes self.new.pending ≡ string_bytes self.old.pending) }
        ensures deepest { IfOk result (λ _. self.new.deepest ≡ self.old.deepest) }
    {
        if is_empty {
            return shut(&mut self.scope, &mut self.frames, frame);
        }
        self.frames.push(frame)?;
        Ok(None)
    }

    fn end(&mut self, name: &[char]) -> Result<bool, AllocError>
        ensures { IfOk result (λ goes. going goes (reading_of self.new) ≡ read_with (reading_of self.old) (End name.now)) }
    {
        self.flush()?;
        let Some(frame) = self.frames.pop() else {
            return Ok(false);
        };
        if !is_same(frame.spelled, name) {
            return Ok(false);
        }
        self.ended = shut(&mut self.scope, &mut self.frames, frame)?;
        Ok(true)
    }

    /// Goes on by one token. False where no document has it there.
    pub fn step(&mut self, token: Token<'a>) -> Result<bool, AllocError>
        ensures { IfOk result (λ goes. going goes (reading_of self.new) ≡ read_with (reading_of self.old) (token_of token.entry)) }
    {
        match token {
            Token::Plain(c) => self.plain(c),
            Token::Meant(text) => self.meant(text.as_str()),
            Token::Comment => Ok(true),
            Token::Start(tag) => self.start(tag),
            Token::End(name) => self.end(name),
        }
    }

    /// The document, where it has ended.
    pub fn finish(self) -> Option<Found>
        ensures { result ≡ finish (reading_of self.entry) }
    {
        match (self.frames.is_empty(), self.ended) {
            (true, Some(tree)) => Some(Found {
                tree,
                levels: self.deepest,
            }),
            _ => None,
        }
    }
}
