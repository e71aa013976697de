//! Requests that name nodes of the net alone.

ghost use Rattle.std.specs.Prelude.{◌≡◌, IfOk, bytes_eq, codes, true};
ghost use Rattle.at_model.specs.World.{example_base};
ghost use Rattle.deliverables.specs.Deliverables.{IsDeliverableField};
ghost use Rattle.memory_net.specs.Closed.{IsExampleBase, IsExampleRequest};
ghost use Rattle.mirrored_nets.specs.ExampleRequests.{IsBaseOfEight, IsOfEight};

use at_base::event::Local;
use std::alloc::{AllocError, Global};

/// Whether this is the base of that node.
fn is_base_of(alloc: Global, number: u8, base: &str) -> Result<bool, AllocError>
    ensures { IfOk result (λ is. is ≡ bytes_eq base.now (example_base number)) }
{
    let name = format!(in alloc; "http://n{number}.example")?;
    Ok(base.as_bytes() == name.as_bytes())
}

/// Whether this is the base of one of eight nodes.
fn is_example(alloc: Global, base: &str) -> Result<bool, AllocError>
    ensures is { IfOk result (λ is. is ≡ true → IsExampleBase base.now) }
    ensures exact { IfOk result (λ is. IsBaseOfEight base.now → is ≡ true) }
{
    for number in 1..9 {
        if is_base_of(alloc, number, base)? {
            return Ok(true);
        }
    }
    Ok(false)
}

/// Whether these are the key `k` and the value `v`.
fn are_short(key: &str, value: &str) -> bool
    ensures key { result ≡ true → IsDeliverableField key.now }
    ensures value { result ≡ true → IsDeliverableField value.now }
    ensures exact { key.now ≡ codes "k" → value.now ≡ codes "v" → result ≡ true }
{
    if key != "k" {
        return false;
    }
    value == "v"
}

/// Whether a request names such nodes alone, and brings the key `k` and the value `v` if it brings any.
pub fn names_examples(alloc: Global, local: &Local) -> Result<bool, AllocError>
    ensures is { IfOk result (λ is. is ≡ true → IsExampleRequest local.now) }
    ensures exact { IfOk result (λ is. IsOfEight local.now → is ≡ true) }
{
    match local {
        Local::Begin { coordinator, ms } => {
            let _short = *ms;
            is_example(alloc, coordinator.as_str())
        }
        Local::Interpose { coordinator, .. } => is_example(alloc, coordinator.as_str()),
        Local::Work {
            service,
            key,
            value,
            ..
        } => {
            if !are_short(key.as_str(), value.as_str()) {
                return Ok(false);
            }
            is_example(alloc, service.as_str())
        }
        Local::Commit { .. } | Local::Rollback { .. } => Ok(true),
    }
}
