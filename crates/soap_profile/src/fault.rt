//! Faults (SOAP 1.1, section 4.4).

ghost use Rattle.std.specs.Prelude.{◌≡◌, ◌∷◌, [], false, IfOk, Ok, Some};
ghost use Rattle.std.specs.Option.{option_copied, option_map};
ghost use Rattle.std.specs.Result.{result_map_both};
ghost use Rattle.soap_profile.specs.BuiltElements.{children_of, element, text_children, unqualified};
ghost use Rattle.soap_profile.specs.Values.{text_value, trim};
ghost use Rattle.soap_profile.specs.Faults.{Answers, code_text, detail_of, fault_code, fault_detail, fault_of, fault_text, fault_tree, has_colon, is_fault, local_part, optional, part_name, part_of, required};

use crate::build::{children_of, element, qualified, text_children, unqualified};
use crate::elements::child;
use crate::value::{is_named, text_value};
use at_base::text::Text;
use std::alloc::{AllocError, Global};
use thiserror::Error;
use xml_profile::name::QName;
use xml_profile::names::{SOAP, fixed_prefix};
use xml_profile::tree::{Children, Tree};

/// A child of a fault.
#[derive(Debug, Clone, Copy, PartialEq, Eq)]
pub enum FaultPart {
    Code,
    Text,
    Actor,
    Detail,
}

impl FaultPart {
    /// The local name of its element, which is in no namespace.
    pub fn local_name(self) -> &'static str
        ensures { result.now ≡ part_name self }
    {
        match self {
            FaultPart::Code => "faultcode",
            FaultPart::Text => "faultstring",
            FaultPart::Actor => "faultactor",
            FaultPart::Detail => "detail",
        }
    }
}

/// Why a fault can't be read.
#[derive(Debug, PartialEq, Eq, Drop, Error)]
pub enum FaultRefusal {
    /// A child that is missing or repeated.
    #[error("unreadable fault")]
    Unreadable { part: FaultPart },
    #[error("out of memory")]
    NoMemory,
}

impl From<AllocError> for FaultRefusal {
    ghost use Rattle.std.specs.Prelude.{◌≡◌};
    ghost use Rattle.soap_profile.specs.declared.fault.FaultRefusal.TheVariants.{NoMemory};

    ghost from_gives = { λ _ e. e ≡ NoMemory };

    fn from(_error: AllocError) -> FaultRefusal {
        FaultRefusal::NoMemory
    }
}

/// Whether the element in a body is a fault.
pub fn is_fault(name: &QName) -> bool
    ensures { result ≡ is_fault name.now }
{
    is_named(name, SOAP, "Fault")
}

/// The local name of the code of a fault. It may be empty.
pub fn read_fault(alloc: Global, fault: &Tree) -> Result<Text, FaultRefusal>
    ensures { Answers (fault_of fault.now) result }
{
    let code = required(fault, FaultPart::Code)?;
    required(fault, FaultPart::Text)?;
    optional(fault, FaultPart::Actor)?;
    optional(fault, FaultPart::Detail)?;
    let text = text_value(alloc, code)?;
    Ok(Text::copied(alloc, local_part(text.as_str()))?)
}

fn required(fault: &Tree, part: FaultPart) -> Result<&Tree, FaultRefusal>
    ensures { result_map_both (λ t. t.now) (λ refusal. refusal) result ≡ required part (part_of fault.now part) }
{
    match child(fault, None, part.local_name()) {
        Some(Some(child)) => Ok(child),
        Some(None) | None => Err(FaultRefusal::Unreadable { part }),
    }
}

fn optional(fault: &Tree, part: FaultPart) -> Result<Option<&Tree>, FaultRefusal>
    ensures { result_map_both option_copied (λ refusal. refusal) result ≡ optional part (part_of fault.now part) }
{
    match child(fault, None, part.local_name()) {
        Some(child) => Ok(child),
        None => Err(FaultRefusal::Unreadable { part }),
    }
}

fn local_part(name: &str) -> &str
    ensures { result.now ≡ local_part name.now }
{
    match name.rsplit_once(':') {
        Some((_, local)) => local,
        None => name,
    }
}

/// The element of a fault: its code, of this namespace and this local name; its text; and one empty element as its detail,
/// or no detail. It is read as the local name of its code.
#[tactic(auto, using(crate::proofs::Faults::code_said, crate::proofs::Faults::text_said, crate::proofs::Faults::detail_said, crate::proofs::Faults::reads_back))]
pub fn fault_tree(
    alloc: Global,
    space: &str,
    local: &str,
    text: &str,
    detail: Option<&QName>,
) -> Result<Tree, AllocError>
    ensures tree { IfOk result (λ t. t ≡ fault_tree space.now local.now text.now (option_map (λ name. name.now) detail.entry)) }
    ensures code { IfOk result (λ t. fault_code t ≡ Some (trim (code_text space.now local.now))) }
    ensures text { IfOk result (λ t. fault_text t ≡ Some (trim text.now)) }
    ensures detail { IfOk result (λ t. fault_detail t ≡ option_map (λ name. name.now ∷ []) detail.entry) }
    ensures reads { IfOk result (λ t. fault_of t ≡ Ok (local_part (trim (code_text space.now local.now)))) }
    ensures names { IfOk result (λ t. has_colon local.now ≡ false → trim local.now ≡ local.now → fault_of t ≡ Ok local.now) }
{
    let tree = written(alloc, space, local, text, detail)?;
    Ok(tree)
}

fn written(
    alloc: Global,
    space: &str,
    local: &str,
    text: &str,
    detail: Option<&QName>,
) -> Result<Tree, AllocError>
    ensures { IfOk result (λ t. t ≡ fault_tree space.now local.now text.now (option_map (λ name. name.now) detail.entry)) }
{
    let code = code_text(alloc, space, local)?;
    let mut parts = Vec::with_capacity(alloc, 3)?;
    parts.push(text_part(alloc, FaultPart::Code, code.as_str())?)?;
    parts.push(text_part(alloc, FaultPart::Text, text)?)?;
    if let Some(name) = detail {
        parts.push(detail_part(alloc, name)?)?;
    }
    let name = qualified(alloc, SOAP, "Fault")?;
    let children = children_of(alloc, parts)?;
    Ok(element(alloc, name, children))
}

/// A local name behind the prefix that its namespace has in canonical texts.
fn code_text(alloc: Global, space: &str, local: &str) -> Result<Text, AllocError>
    ensures { IfOk result (λ text. text ≡ code_text space.now local.now) }
{
    let Some(prefix) = fixed_prefix(space) else {
        return Text::copied(alloc, local);
    };
    let mut text = Text::copied(alloc, prefix)?;
    text.push_str(":")?;
    text.push_str(local)?;
    Ok(text)
}

fn text_part(alloc: Global, part: FaultPart, text: &str) -> Result<Tree, AllocError>
    ensures { IfOk result (λ t. t ≡ element (unqualified (part_name part)) (text_children text.now)) }
{
    let name = unqualified(alloc, part.local_name())?;
    let children = text_children(alloc, text)?;
    Ok(element(alloc, name, children))
}

fn detail_part(alloc: Global, name: &QName) -> Result<Tree, AllocError>
    ensures { IfOk result (λ t. t ∷ [] ≡ detail_of (Some name.now)) }
{
    let inner = element(alloc, name.clone()?, Children::new(alloc));
    let children = children_of(alloc, vec![in alloc; inner]?)?;
    let name = unqualified(alloc, "detail")?;
    Ok(element(alloc, name, children))
}
