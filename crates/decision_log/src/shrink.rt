//! A journal without its dead records.

ghost use Rattle.std.specs.Prelude.{◌≡◌, ◌<◌, ◌++◌, ◌∷◌, [], Ok, true, IfOk, OnOk, IsErr, map};
ghost use Rattle.std.specs.List.{AllByRecursion};
ghost use Rattle.at_base.specs.WellFormed.{IsWellFormed};
ghost use Rattle.at_base.specs.declared.record.Record.TheVariants as records;
ghost use Rattle.decision_log.specs.Folds.{AreRecords};
ghost use Rattle.decision_log.specs.KeptState.{known};
ghost use Rattle.decision_log.specs.KeptRecords.{IsKept};
ghost use Rattle.decision_log.specs.ShrunkJournals.{Adds, AreTexts, IsCompacted, ShrinksTheSame, shrunk, start_of, texts_of};
ghost use Rattle.journal_at.specs.Compactions.{text_in, texts_in};
ghost use Rattle.journal_at.specs.Format.{AreBodies, AreUnmarked};
ghost use Rattle.journal_at.specs.StandingBodies.{Counted};
ghost use Rattle.journal_at.specs.declared.version.Version.TheVariants.{Two};
ghost use Rattle.record_bytes.specs.Versions.{IsRecord};
ghost use Rattle.at_base.specs.declared.record.Record.{Record};

use crate::kept::Kept;
use at_base::id::Id;
use at_base::record::Record;
use journal_at::body::Body;
use journal_at::journal::{Compact, Journal};
use model_laws::rules::recovers_the_compacted;
use record_bytes::write::{are_bodies, write_record};
use site_model::site::Site;
use std::alloc::{AllocError, Global};

/// The records that a shrunk journal has make the Kept that the journal's records made.
pub fn shrinks_the_same()
    ensures { ShrinksTheSame }
{
    recovers_the_compacted();
}

/// The body of a record.
fn body_of(alloc: Global, entry: &Record) -> Result<Body, AllocError>
    requires { IsWellFormed entry.now }
    ensures { IfOk result (λ b. IsRecord Two entry.now (text_in b)) }
{
    let bytes = write_record(alloc, entry)?;
    Ok(Body::from_vec(bytes))
}

fn push(bodies: &mut Vec<Body>, body: Body) -> Result<(), AllocError>
    ensures { OnOk result (bodies.new.items ≡ bodies.old.items ++ body ∷ []) }
{
    bodies.push(body)?;
    Ok(())
}

/// Adds the body of a record to the end.
#[tactic(auto, using(crate::proofs::Bodies::one_more))]
fn add(alloc: Global, bodies: &mut Vec<Body>, entry: &Record) -> Result<(), AllocError>
    requires { IsWellFormed entry.now }
    ensures { OnOk result (Adds (entry.now ∷ []) bodies.old.items bodies.new.items) }
{
    let body = body_of(alloc, entry)?;
    push(bodies, body)
}

#[tactic(auto, using(crate::proofs::Bodies::none_added, crate::proofs::Bodies::more_added, crate::proofs::Bodies::all_added, crate::proofs::Bodies::formed_at))]
fn add_live(alloc: Global, bodies: &mut Vec<Body>, live: &[Record]) -> Result<(), AllocError>
    requires { AllByRecursion IsWellFormed live.now }
    ensures { OnOk result (Adds live.now bodies.old.items bodies.new.items) }
{
    for entry in live {
        add(alloc, bodies, entry)?;
    }
    Ok(())
}

fn done_of(id: Id) -> Record
    ensures is { result ≡ records.Done id }
    ensures formed { IsWellFormed result }
{
    let _incarnation = id.incarnation();
    let _counter = id.counter();
    Record::Done { id }
}

fn add_done(alloc: Global, bodies: &mut Vec<Body>, id: Id) -> Result<(), AllocError>
    ensures { OnOk result (Adds (records.Done id ∷ []) bodies.old.items bodies.new.items) }
{
    let entry = done_of(id);
    add(alloc, bodies, &entry)
}

#[tactic(auto, using(crate::proofs::Bodies::none_done, crate::proofs::Bodies::more_done, crate::proofs::Bodies::all_done))]
fn add_outcomes(alloc: Global, bodies: &mut Vec<Body>, done: &[Id]) -> Result<(), AllocError>
    ensures { OnOk result (Adds (map records.Done done.now) bodies.old.items bodies.new.items) }
{
    for id in done {
        add_done(alloc, bodies, *id)?;
    }
    Ok(())
}

#[tactic(auto, using(crate::proofs::Bodies::no_start, crate::proofs::Bodies::a_start))]
fn add_start(alloc: Global, bodies: &mut Vec<Body>, start: u32) -> Result<(), AllocError>
    ensures { OnOk result (Adds (start_of start) bodies.old.items bodies.new.items) }
{
    if start == 0 {
        return Ok(());
    }
    let entry = Record::Start { incarnation: start };
    add(alloc, bodies, &entry)
}

/// The bodies of what is kept.
#[tactic(auto, using(crate::proofs::Bodies::all_three))]
fn bodies_of(alloc: Global, kept: &Kept) -> Result<Vec<Body>, AllocError>
    requires { AllByRecursion IsWellFormed (known kept.now).live }
    ensures { IfOk result (λ bodies. AreTexts (shrunk (known kept.now)) bodies.items) }
{
    let mut bodies = Vec::new(alloc);
    add_start(alloc, &mut bodies, kept.start())?;
    add_live(alloc, &mut bodies, kept.live())?;
    add_outcomes(alloc, &mut bodies, kept.done())?;
    Ok(bodies)
}

/// Compacts to bodies that are records.
fn compact<S: Site>(
    alloc: Global,
    journal: &mut Journal,
    site: &mut S,
    bodies: &[Body],
) -> Result<Compact, AllocError>
    requires bodies { AreBodies (texts_in bodies.now) }
    requires unmarked { AreUnmarked (texts_in bodies.now) }
    requires generation { journal.old.generation < 4294967295 }
    ensures compacted { IfOk result (λ r. IsCompacted r (texts_in bodies.now) journal.old journal.new (S.told site.old) (S.told site.new)) }
    ensures nothing { journal.old.unsure ≡ true → site.new ≡ site.old }
    ensures memory { IsErr result → (site.new ≡ site.old) × (journal.new ≡ journal.old) }
    ensures limit { journal.new.limit ≡ journal.old.limit }
    ensures counted { Counted (S.told site.old) (S.told site.new) }
{
    let done = journal.compact(alloc, site, bodies)?;
    Ok(done)
}

/// Writes what is kept into the journal's other file, and makes that the live one: the records that it then holds make the
/// same Kept. The Kept is that of the journal's records. The live file has a body.
///
/// Memory is taken before the first call of the device, and where there is none, nothing is done.
pub fn shrink<S: Site>(
    alloc: Global,
    journal: &mut Journal,
    site: &mut S,
    kept: &Kept,
) -> Result<Compact, AllocError>
    requires kept { IsKept (known kept.now) }
    requires generation { journal.old.generation < 4294967295 }
    ensures records { OnOk result (AreRecords Two (shrunk (known kept.now)) (texts_of (shrunk (known kept.now)))) }
    ensures compacted { IfOk result (λ r. IsCompacted r (texts_of (shrunk (known kept.now))) journal.old journal.new (S.told site.old) (S.told site.new)) }
    ensures nothing { journal.old.unsure ≡ true → site.new ≡ site.old }
    ensures memory { IsErr result → (site.new ≡ site.old) × (journal.new ≡ journal.old) }
    ensures limit { journal.new.limit ≡ journal.old.limit }
    ensures counted { Counted (S.told site.old) (S.told site.new) }
{
    are_bodies();
    let bodies = bodies_of(alloc, kept)?;
    compact(alloc, journal, site, &bodies)
}
