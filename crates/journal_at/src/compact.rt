//! A journal that is written anew into its other file.

ghost use Rattle.std.specs.Prelude.{ℕ, List, ◌≡◌, ◌≤◌, ◌<◌, ◌+◌, ◌-◌, ◌++◌, ◌∷◌, ◌↔◌, Ok, true, false, length, IfOk, OnOk, IsErr};
ghost use Rattle.journal_at.specs.declared.journal.Compact.TheVariants.{Full, Unsure};
ghost use Rattle.journal_at.specs.Format.{AreBodies, AreUnmarked, IsBody, behind, frames, mark_body};
ghost use Rattle.journal_at.specs.Compactions.{Compacted, HasGround, Moves, text_of, texts_in};
ghost use Rattle.journal_at.specs.StandingBodies.{Counted, Keeps};

use crate::body::Body;
use crate::journal::{Compact, Journal};
use crate::spare::prepare;
use site_model::site::Site;
use std::alloc::{AllocError, Global};

/// A body behind an open gate.
fn push_frame(text: &mut Vec<u8>, body: &[u8]) -> Result<(), AllocError>
    requires { IsBody body.now }
    ensures { OnOk result (text.new.items ≡ text.old.items ++ (1 ∷ behind body.now)) }
{
    text.push(1)?;
    text.extend_from_slice(&(body.len() as u32).to_be_bytes())?;
    text.extend_from_slice(body)
}

/// A mark without its gate.
fn push_mark(text: &mut Vec<u8>, generation: u32) -> Result<(), AllocError>
    ensures { OnOk result (text.new.items ≡ text.old.items ++ behind (mark_body generation)) }
{
    text.extend_from_slice(&[0, 0, 0, 5, 11])?;
    text.extend_from_slice(&generation.to_be_bytes())
}

/// All that stands behind the first gate.
fn build_text(alloc: Global, generation: u32, bodies: &[Body]) -> Result<Vec<u8>, AllocError>
    requires { AreBodies (texts_in bodies.now) }
    ensures { IfOk result (λ v. v.items ≡ text_of generation (texts_in bodies.now)) }
{
    let mut text = Vec::new(alloc);
    push_mark(&mut text, generation)?;
    for body in bodies {
        push_frame(&mut text, body.as_slice())?;
    }
    text.push(0)?;
    Ok(text)
}

/// Whether a file whose last gate stands there has bodies.
fn has_bodies(end: u64) -> bool
    ensures more { result ≡ true → 1 ≤ end }
    ensures none { result ≡ false → end ≡ 0 }
{
    end != 0
}

impl Journal {
    /// Writes a text into the other file, and opens its first gate.
    fn switch<S: Site>(&mut self, site: &mut S, text: &[u8]) -> Compact
        requires { self.old.generation < 4294967295 }
        ensures compacted { (bodies texts : List (List ℕ)) → Keeps self.old bodies (S.told site.old) → 1 ≤ self.old.end → text.now ≡ text_of (self.old.generation + 1) texts → AreBodies texts → AreUnmarked texts → Compacted result self.old.live bodies (mark_body (self.old.generation + 1) ∷ texts) self.new (S.told site.old) (S.told site.new) }
        ensures moves { Moves result text.now self.old self.new (S.told site.old) (S.told site.new) }
        ensures ground { HasGround result self.old (S.told site.old) (S.told site.new) }
        ensures full { result ≡ Full → ⊥ }
        ensures unsure { self.old.unsure ≡ false → (self.new.unsure ≡ true) ↔ (result ≡ Unsure) }
        ensures same { self.new.limit ≡ self.old.limit }
        ensures counted { Counted (S.told site.old) (S.told site.new) }
    {
        let other = 1 - self.live;
        match prepare(&mut self.unshut, site, other, text) {
            Ok(()) => {}
            Err(_) => return Compact::Kept,
        }
        match site.raise_gate(other, 0) {
            Ok(()) => {}
            Err(_) => {
                self.unsure = true;
                return Compact::Unsure;
            }
        }
        self.live = other;
        self.unshut = has_bodies(self.end);
        self.end = text.len() as u64;
        self.generation += 1;
        Compact::Done
    }

    /// Writes these bodies into the other file, behind a mark of version 2 with the next generation, and makes that file the
    /// live one.
    ///
    /// The live file has a body: nothing is said of what a crash leaves of a compaction from an empty file. Nothing is done
    /// once the journal was unsure, nor where the text would pass the limit. Memory is taken before the first
    /// call, and where there is none, nothing is done.
    pub fn compact<S: Site>(
        &mut self,
        alloc: Global,
        site: &mut S,
        bodies: &[Body],
    ) -> Result<Compact, AllocError>
        requires bodies { AreBodies (texts_in bodies.now) }
        requires generation { self.old.generation < 4294967295 }
        ensures compacted { IfOk result (λ r. (kept : List (List ℕ)) → self.old.unsure ≡ false → Keeps self.old kept (S.told site.old) → 1 ≤ self.old.end → AreUnmarked (texts_in bodies.now) → Compacted r self.old.live kept (mark_body (self.old.generation + 1) ∷ texts_in bodies.now) self.new (S.told site.old) (S.told site.new)) }
        ensures moves { IfOk result (λ r. self.old.unsure ≡ false → Moves r (text_of (self.old.generation + 1) (texts_in bodies.now)) self.old self.new (S.told site.old) (S.told site.new)) }
        ensures nothing { self.old.unsure ≡ true → (result ≡ Ok Unsure) × (site.new ≡ site.old) }
        ensures memory { IsErr result → (site.new ≡ site.old) × (self.new ≡ self.old) }
        ensures ground { IfOk result (λ r. HasGround r self.old (S.told site.old) (S.told site.new)) }
        ensures full { IfOk result (λ r. (r ≡ Full) ↔ ((self.old.unsure ≡ false) × (self.old.limit < length (frames (mark_body (self.old.generation + 1) ∷ texts_in bodies.now)) + 1))) }
        ensures unsure { IfOk result (λ r. (self.new.unsure ≡ true) ↔ (r ≡ Unsure)) }
        ensures same { self.new.limit ≡ self.old.limit }
        ensures counted { Counted (S.told site.old) (S.told site.new) }
    {
        if self.unsure {
            return Ok(Compact::Unsure);
        }
        let text = build_text(alloc, self.generation + 1, bodies)?;
        if text.len() as u64 >= self.limit as u64 {
            return Ok(Compact::Full);
        }
        let result = self.switch(site, text.as_slice());
        Ok(result)
    }
}
