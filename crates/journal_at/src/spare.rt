//! The file that isn't live, made ready for a compaction.

ghost use Rattle.std.specs.Prelude.{ℕ, List, ◌≡◌, OnOk, false};
ghost use Rattle.journal_at.specs.Compactions.{Flips, IsShutIn, Prepares, Readies, Safe, Saved, gate_calls, prepare_calls, shut_calls};
ghost use Rattle.journal_at.specs.Pairs.{Holds};
ghost use Rattle.site_model.specs.Told.{Elapses, Between};

use crate::append::stage;
use site_model::site::Site;
use site_model::source::Failed;

/// Shuts its first gate, where that is still to be done.
fn shut_gate<S: Site>(unshut: &mut bool, site: &mut S, file: u8) -> Result<(), Failed>
    ensures readies { Readies (gate_calls unshut.old file) unshut.old unshut.new result (S.told site.old) (S.told site.new) }
    ensures saved { (live : ℕ) (bodies : List (List ℕ)) → Flips live file → Safe unshut.old live bodies (S.told site.old) → Saved unshut.new live bodies (S.told site.old) (S.told site.new) }
    ensures flag { OnOk result (unshut.new ≡ false) }
{
    if !*unshut {
        return Ok(());
    }
    match site.write_at(file, 0, &[0]) {
        Ok(()) => {
            *unshut = false;
            Ok(())
        }
        Err(_) => Err(Failed),
    }
}

/// Then syncs it.
fn shut<S: Site>(unshut: &mut bool, site: &mut S, file: u8) -> Result<(), Failed>
    ensures readies { Readies (shut_calls unshut.old file) unshut.old unshut.new result (S.told site.old) (S.told site.new) }
    ensures saved { (live : ℕ) (bodies : List (List ℕ)) → Flips live file → Safe unshut.old live bodies (S.told site.old) → Saved unshut.new live bodies (S.told site.old) (S.told site.new) }
    ensures settled { (live : ℕ) (bodies : List (List ℕ)) → Flips live file → Safe unshut.old live bodies (S.told site.old) → OnOk result (IsShutIn live (S.told site.new)) }
    ensures flag { OnOk result (unshut.new ≡ false) }
{
    match shut_gate(unshut, site, file) {
        Ok(()) => site.sync(file),
        Err(_) => Err(Failed),
    }
}

/// Then writes a text behind it, and syncs.
pub(crate) fn prepare<S: Site>(
    unshut: &mut bool,
    site: &mut S,
    file: u8,
    text: &[u8],
) -> Result<(), Failed>
    ensures readies { Readies (prepare_calls unshut.old file text.now) unshut.old unshut.new result (S.told site.old) (S.told site.new) }
    ensures prepares { (live : ℕ) (bodies : List (List ℕ)) → Flips live file → Safe unshut.old live bodies (S.told site.old) → Prepares result unshut.new live bodies text.now (S.told site.new) }
    ensures time { (live : ℕ) (bodies : List (List ℕ)) → Flips live file → Safe unshut.old live bodies (S.told site.old) → Elapses (S.told site.old) (S.told site.new) (λ l c. Between (S.told site.old) (S.told site.new) l × Holds live bodies c) }
    ensures flag { OnOk result (unshut.new ≡ false) }
{
    match shut(unshut, site, file) {
        Ok(()) => stage(site, file, 1, text),
        Err(_) => Err(Failed),
    }
}
