//! Answers of a node itself: to a request that is refused, and where there is no memory for a step.

ghost use Rattle.std.specs.Prelude.{◌≡◌, ◌∷◌, [], IfOk, IsTrue, None, false, true, option_map};
ghost use Rattle.http_post.specs.OutBytes.{answer_of, has_reason};
ghost use Rattle.site_model.specs.Calls.{Gave};
ghost use Rattle.site_model.specs.Told.Call.{Send};
ghost use Rattle.node_at.specs.Refusals.{Refuses};
ghost use Rattle.node_at.specs.State.{seen};
ghost use Rattle.node_at.specs.TurnText.{answered};

use crate::node::Node;
use crate::send::send_all;
use crate::text::{Encoded, Sending};
use at_base::outs::Out;
use http_post::writer::{answer_bytes, busy_bytes};
use site_model::site::Site;
use site_model::source::Failed;
use std::alloc::{AllocError, Global};

/// The answer to a request that is refused, with its bytes.
fn answer(alloc: Global, status: u16, text: &Option<Vec<u8>>) -> Result<Vec<Encoded>, AllocError>
    requires { IsTrue (has_reason status) }
    ensures { IfOk result (λ all. all.items ≡ answered status (option_map (λ bytes. bytes.items) text.now) ∷ []) }
{
    let bytes = answer_bytes(alloc, status, text.as_deref())?;
    let mut all = Vec::new(alloc);
    all.push(Encoded {
        out: Out::Answer {
            status,
            reply: None,
        },
        sending: Sending::Answer { bytes },
    })?;
    Ok(all)
}

/// Answers that the node is busy, for which no memory is wanted.
fn say_busy<S: Site>(site: &mut S) -> Result<(), Failed>
    ensures { Gave (Send (answer_of 503 None)) result (S.told site.old) (S.told site.new) }
{
    site.send(busy_bytes())
}

impl Node {
    /// Answers a request that is refused. Nothing comes of it where there is no memory.
    #[tactic(auto, using(crate::proofs::RefusalLaws::refuses_so))]
    pub(crate) fn refuse<S: Site>(
        &mut self,
        alloc: Global,
        site: &mut S,
        status: u16,
        text: &Option<Vec<u8>>,
    ) -> bool
        requires status { IsTrue (has_reason status) }
        requires runs { self.old.halted ≡ false }
        requires sure { self.old.journal.unsure ≡ false }
        ensures refuses { Refuses result status (option_map (λ bytes. bytes.items) text.now) (seen self.old) (seen self.new) (S.told site.old) (S.told site.new) }
        ensures received { (S.told site.new).counts.receive ≡ (S.told site.old).counts.receive }
        ensures nothing { result ≡ false → site.new ≡ site.old }
        ensures role { self.new.role ≡ self.old.role }
    {
        match answer(alloc, status, text) {
            Ok(all) => {
                send_all(site, all, None, &self.kept);
                true
            }
            Err(_) => false,
        }
    }

    /// Answers that the node is busy.
    #[tactic(auto, using(crate::proofs::RefusalLaws::busy_so))]
    pub(crate) fn busy<S: Site>(&mut self, site: &mut S)
        requires runs { self.old.halted ≡ false }
        requires sure { self.old.journal.unsure ≡ false }
        ensures refuses { Refuses true 503 None (seen self.old) (seen self.new) (S.told site.old) (S.told site.new) }
        ensures received { (S.told site.new).counts.receive ≡ (S.told site.old).counts.receive }
        ensures same { seen self.new ≡ seen self.old }
        ensures role { self.new.role ≡ self.old.role }
    {
        let _ = say_busy(site);
    }
}
