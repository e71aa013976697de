//! Bindings of namespaces in force (Namespaces in XML 1.0, sections 3, 5 and 6).

ghost use Rattle.std.specs.Prelude.{◌≡◌, ℕ, List, ◌&&◌, ◌||◌, not, ◌++◌, ◌∷◌, ◌-◌, [], length, take, map, IsSome, IfOk, OnOk};
ghost use Rattle.std.specs.Option.{option_copied};
ghost use Rattle.std.specs.Map.{update};
ghost use Rattle.std.specs.Str.{bytes_eq};
ghost use Rattle.xml_grammar.specs.Namespaces.{defaulted, is_empty, lookup, may_bind, may_declare, space_of, xml_space};
ghost use Rattle.xml_grammar.specs.Code.Places.{Finds, HidesEach, binding_of, place_in};

use crate::declaration::is_word;
use crate::lexer::is_same_text;
use at_base::text::Text;
use std::alloc::{AllocError, Global};
use std::collections::{BTreeMap, BTreeSet};
use xml_profile::names::{XML, XMLNS};

/// A prefix and its namespace, whose copies share its bytes. The default namespace has the empty prefix, and none of it the
/// empty text.
#[derive(Drop)]
pub struct Binding<'a> {
    pub prefix: &'a [char],
    pub space: Text,
}

/// A binding in force, and the place of the one that it hides.
#[derive(Drop)]
pub struct Held<'a> {
    pub binding: Binding<'a>,
    pub hidden: Option<usize>,
}

/// The bindings in force, inner ones last.
#[derive(Drop)]
pub struct Scope<'a> {
    held: Vec<Held<'a>>,
    /// The place of the last binding of each prefix.
    latest: BTreeMap<&'a [char], usize>,
    /// The namespace of the prefix `xml`.
    xml: Text,
    ghost found: { Finds latest held.items },
    ghost hides: { HidesEach held.items },
    ghost named: { xml ≡ xml_space },
}

/// Puts back what a map of places had at a prefix that is there. It takes no memory.
fn restore<'a>(latest: &mut BTreeMap<&'a [char], usize>, prefix: &'a [char], hidden: Option<usize>)
    requires { IsSome (place_in latest.old prefix.now) }
    ensures { (q : List ℕ) → place_in latest.new q ≡ update bytes_eq (place_in latest.old) prefix.now hidden q }
{
    match hidden {
        Some(place) => {
            let _ = latest.insert(prefix, place);
        }
        None => {
            latest.remove(prefix);
        }
    }
}

impl<'a> Scope<'a> {
    ghost use Rattle.xml_grammar.specs.Code.Open.{bindings_of};

    pub fn new(alloc: Global) -> Result<Scope<'a>, AllocError>
        ensures { IfOk result (λ s. bindings_of s ≡ []) }
    {
        Ok(Scope {
            held: Vec::new(alloc),
            latest: BTreeMap::new(alloc),
            xml: Text::copied(alloc, XML)?.into_shared(alloc)?,
        })
    }

    /// The number of bindings.
    pub fn len(&self) -> usize
        ensures { result ≡ length (bindings_of self.now) }
    {
        self.held.len()
    }

    fn add(&mut self, binding: Binding<'a>) -> Result<(), AllocError>
        ensures { OnOk result (bindings_of self.new ≡ bindings_of self.old ++ binding_of binding.entry ∷ []) }
    {
        let place = self.held.len();
        self.held.reserve(1)?;
        let hidden = self.latest.insert(binding.prefix, place)?;
        self.held.push_reserved(Held { binding, hidden });
        Ok(())
    }

    /// Adds the declarations of a tag.
    pub fn enter(&mut self, declarations: Vec<Binding<'a>>) -> Result<(), AllocError>
        ensures { OnOk result (bindings_of self.new ≡ bindings_of self.old ++ map binding_of declarations.entry.items) }
    {
        for binding in declarations {
            self.add(binding)?;
        }
        Ok(())
    }

    /// Forgets the last binding, so that the one that it hides is in force again.
    fn forget(&mut self)
        ensures { bindings_of self.new ≡ take (length (bindings_of self.old) - 1) (bindings_of self.old) }
    {
        if let Some(last) = self.held.pop() {
            restore(&mut self.latest, last.binding.prefix, last.hidden);
        }
    }

    /// Forgets all but the first bindings, so many as are given.
    pub fn leave(&mut self, count: usize)
        ensures { bindings_of self.new ≡ take count (bindings_of self.old) }
    {
        while self.len() > count {
            self.forget();
        }
    }

    fn lookup(&self, prefix: &[char]) -> Option<&Text>
        ensures { option_copied result ≡ lookup prefix.now (bindings_of self.now) }
    {
        let place = self.latest.get(prefix)?;
        let held = self.held.get(*place)?;
        Some(&held.binding.space)
    }

    /// The namespace that a prefix is bound to (section 3). None where it is unbound.
    pub fn space_of(&self, prefix: &[char]) -> Option<&Text>
        ensures { option_copied result ≡ space_of (bindings_of self.now) prefix.now }
    {
        if is_word(prefix, b"xml") {
            return Some(&self.xml);
        }
        self.lookup(prefix)
    }

    /// The default namespace. None where there is none (section 6.2).
    pub fn default_space(&self) -> Option<&Text>
        ensures { option_copied result ≡ defaulted (lookup [] (bindings_of self.now)) }
    {
        let space = self.lookup(&[])?;
        if space.as_str().is_empty() {
            return None;
        }
        Some(space)
    }
}

fn may_bind(binding: &Binding<'_>) -> bool
    ensures { result ≡ may_bind (binding_of binding.now) }
{
    let space = binding.space.as_str();
    if is_word(binding.prefix, b"xmlns") {
        return false;
    }
    if is_word(binding.prefix, b"xml") {
        return is_same_text(space, XML);
    }
    !is_same_text(space, XML) && !is_same_text(space, XMLNS) && may_undeclare(binding.prefix, space)
}

/// No prefix but that of the default namespace is bound to none.
fn may_undeclare(prefix: &[char], space: &str) -> bool
    ensures { result ≡ (is_empty prefix.now || not (is_empty space.now)) }
{
    prefix.is_empty() || !space.is_empty()
}

/// Whether a tag may declare all this: nothing that is reserved, and no prefix twice (sections 3 and 5).
pub fn may_declare(alloc: Global, bindings: &[Binding<'_>]) -> Result<bool, AllocError>
    ensures { IfOk result (λ b. b ≡ may_declare (map binding_of bindings.now)) }
{
    let mut behind = BTreeSet::new(alloc);
    let mut left = bindings.len();
    while left > 0 {
        left -= 1;
        let binding = &bindings[left];
        if !may_bind(binding) {
            return Ok(false);
        }
        if !behind.insert(binding.prefix)? {
            return Ok(false);
        }
    }
    Ok(true)
}
