//! The local requests of a schedule.

ghost use Rattle.std.specs.Prelude.{◌≡◌, IfOk, codes};
ghost use Rattle.at_base.specs.declared.event.Local.TheVariants as locals;
ghost use Rattle.at_model.specs.World.{example_base};

use at_base::event::Local;
use at_base::id::Id;
use at_base::notice::{Kind, Vote};
use at_base::text::Text;
use std::alloc::{AllocError, Global};

/// The base of a node.
fn base_of(alloc: Global, node: u8) -> Result<Text, AllocError>
    ensures { IfOk result (λ base. base ≡ example_base node) }
{
    Ok(Text::from_string(format!(in alloc; "http://n{}.example", node)?))
}

/// A request that begins an activity at a coordinator.
pub fn begin(alloc: Global, coordinator: u8, ms: u32) -> Result<Local, AllocError>
    ensures { IfOk result (λ local. local ≡ locals.Begin (example_base coordinator) ms) }
{
    let coordinator = base_of(alloc, coordinator)?;
    Ok(Local::Begin { coordinator, ms })
}

/// A request that interposes a coordinator in an activity.
pub fn interpose(alloc: Global, activity: Id, coordinator: u8) -> Result<Local, AllocError>
    ensures { IfOk result (λ local. local ≡ locals.Interpose activity (example_base coordinator)) }
{
    let coordinator = base_of(alloc, coordinator)?;
    Ok(Local::Interpose {
        activity,
        coordinator,
    })
}

/// A request for work under an activity's context, with the key `k` and the value `v`.
pub fn work(
    alloc: Global,
    activity: Id,
    service: u8,
    kind: Kind,
    vote: Vote,
) -> Result<Local, AllocError>
    ensures { IfOk result
        (λ local. local ≡ locals.Work activity (example_base service) kind vote (codes "k") (codes "v")) }
{
    let service = base_of(alloc, service)?;
    let key = Text::copied(alloc, "k")?;
    let value = Text::copied(alloc, "v")?;
    Ok(Local::Work {
        activity,
        service,
        kind,
        vote,
        key,
        value,
    })
}
