//! Laws alone: agreement, read off the printed lines of a report.
#![tactic(auto)]

ghost use Rattle.printed_agreement.specs.RegisterAnswers.{EventsBring};
ghost use Rattle.printed_agreement.specs.ReportLines.{LinesAgree};

use world_laws::laws::changes_by_moves;

/// An answer to a Register is posted where that Register is delivered, and names a seat, or the completion seat, of the transaction that
/// the Register asks (WS-Coordination 1.2, section 3.2).
#[tactic(auto, using(crate::proofs::Deliveries::events_bring))]
pub fn events_bring()
    ensures { EventsBring }
{
    changes_by_moves();
}

/// Lines whose messages are a world's, whose answers to a Register stand behind the line of its delivery, and of which those that tell how
/// something ended are what happened, agree in print where that world agrees: no two of one transaction end differently, as one reads it
/// off the lines alone.
#[tactic(auto, using(crate::proofs::Endings::lines_agree))]
pub fn lines_agree()
    ensures { LinesAgree }
{}
