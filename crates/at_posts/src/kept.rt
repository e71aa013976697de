//! An endpoint as an item keeps it: copies of the item share its bytes.

ghost use Rattle.std.specs.Prelude.{◌≡◌, IfOk};

use at_base::epr::{Epr, Reply};
use at_base::message::Context;
use at_base::text::Text;
use std::alloc::{AllocError, Global};

/// A text as an item keeps it.
pub fn kept_text(alloc: Global, text: &Text) -> Result<Text, AllocError>
    ensures { IfOk result (λ copy. copy ≡ text.now) }
{
    text.clone()?.into_shared(alloc)
}

/// A text that may be absent, as an item keeps it.
pub fn kept_option(alloc: Global, text: &Option<Text>) -> Result<Option<Text>, AllocError>
    ensures { IfOk result (λ copy. copy ≡ text.now) }
{
    match text {
        None => Ok(None),
        Some(text) => Ok(Some(kept_text(alloc, text)?)),
    }
}

/// An endpoint as an item keeps it.
pub fn kept(alloc: Global, epr: &Epr) -> Result<Epr, AllocError>
    ensures { IfOk result (λ copy. copy ≡ epr.now) }
{
    let address = kept_text(alloc, &epr.address)?;
    let params = kept_text(alloc, &epr.params)?;
    Ok(Epr { address, params })
}

/// Where an answer goes, as an item keeps it.
pub fn kept_reply(alloc: Global, reply: &Reply) -> Result<Reply, AllocError>
    ensures { IfOk result (λ copy. copy ≡ reply.now) }
{
    match reply {
        Reply::Anonymous => Ok(Reply::Anonymous),
        Reply::Nobody => Ok(Reply::Nobody),
        Reply::At(epr) => Ok(Reply::At(kept(alloc, epr)?)),
    }
}

/// A context as an item keeps it.
pub fn kept_context(alloc: Global, context: &Context) -> Result<Context, AllocError>
    ensures { IfOk result (λ copy. copy ≡ context.now) }
{
    let identifier = kept_text(alloc, &context.identifier)?;
    let coordination = kept_text(alloc, &context.coordination)?;
    let registration = kept(alloc, &context.registration)?;
    Ok(Context {
        identifier,
        expires: context.expires,
        coordination,
        registration,
    })
}
