//! The addresses of a node's endpoints (this project's profile), and the ids of the requests that they send.

ghost use Rattle.std.specs.Prelude.{◌≡◌, ◌++◌, IfOk, codes};
ghost use Rattle.std.specs.Fmt.{decimal};
ghost use Rattle.endpoints.specs.Addresses.{endpoint_of, path_of, create_id, register_id, work_id};

use at_base::epr::Epr;
use at_base::message_id::message_id;
use at_base::target::Target;
use at_base::text::Text;
use std::alloc::{AllocError, Global};

/// The path of a target.
fn path_of(alloc: Global, target: &Target) -> Result<Text, AllocError>
    ensures { IfOk result (λ path. path ≡ path_of target.now) }
{
    let text = match target {
        Target::Activation => format!(in alloc; "/activation")?,
        Target::Registration(id) => format!(in alloc; "/registration/{}", id)?,
        Target::Completion(id) => format!(in alloc; "/completion/{}", id)?,
        Target::Coordinator { id, seat } => {
            let kind = seat.kind.letter();
            format!(in alloc; "/c/{}/{}/{}", kind, id, seat.number)?
        }
        Target::Participant { id, kind } => {
            let kind = kind.letter();
            format!(in alloc; "/p/{}/{}", kind, id)?
        }
        Target::Initiator(id) => format!(in alloc; "/i/{}", id)?,
        Target::Work => format!(in alloc; "/work")?,
    };
    Ok(Text::from_string(text))
}

/// The address of a target on the node at this base.
pub fn address_of(alloc: Global, base: &Text, target: &Target) -> Result<Text, AllocError>
    ensures { IfOk result (λ text. text ≡ (endpoint_of base.now target.now).address) }
{
    let path = path_of(alloc, target)?;
    let text = format!(in alloc; "{}{}", base, path)?;
    Ok(Text::from_string(text))
}

/// The endpoint of a target on the node at this base.
pub fn endpoint_of(alloc: Global, base: &Text, target: &Target) -> Result<Epr, AllocError>
    ensures { IfOk result (λ epr. epr ≡ endpoint_of base.now target.now) }
{
    Ok(Epr {
        address: address_of(alloc, base, target)?,
        params: Text::copied(alloc, "")?,
    })
}

/// The name of a request of this sender: its address, and what is asked.
fn name_of(alloc: Global, base: &Text, own: &Target, asked: &str) -> Result<Text, AllocError>
    ensures { IfOk result (λ name. name ≡ base.now ++ (path_of own.now ++ asked.now)) }
{
    let path = path_of(alloc, own)?;
    let text = format!(in alloc; "{}{}{}", base, path, asked)?;
    Ok(Text::from_string(text))
}

/// The MessageID of a sender's CreateCoordinationContext, the same each time it is sent.
pub fn create_id(alloc: Global, base: &Text, own: &Target) -> Result<Text, AllocError>
    ensures { IfOk result (λ id. id ≡ create_id base.now own.now) }
{
    let name = name_of(alloc, base, own, "#create")?;
    message_id(alloc, name.as_str().as_bytes())
}

/// The MessageID of a sender's Register, the same each time it is sent.
pub fn register_id(alloc: Global, base: &Text, own: &Target) -> Result<Text, AllocError>
    ensures { IfOk result (λ id. id ≡ register_id base.now own.now) }
{
    let name = name_of(alloc, base, own, "#register")?;
    message_id(alloc, name.as_str().as_bytes())
}

/// The name of the n-th Work of this sender.
fn work_name(alloc: Global, base: &Text, own: &Target, n: u32) -> Result<Text, AllocError>
    ensures { IfOk result (λ name. name ≡ base.now ++ (path_of own.now ++ (codes "#work-" ++ decimal n))) }
{
    let path = path_of(alloc, own)?;
    let text = format!(in alloc; "{}{}#work-{}", base, path, n)?;
    Ok(Text::from_string(text))
}

/// The MessageID of a sender's n-th Work.
pub fn work_id(alloc: Global, base: &Text, own: &Target, n: u32) -> Result<Text, AllocError>
    ensures { IfOk result (λ id. id ≡ work_id base.now own.now n) }
{
    let name = work_name(alloc, base, own, n)?;
    message_id(alloc, name.as_str().as_bytes())
}
