//! The lines of a report that tell how something ended: which they are, and when they are those of what happened. No code.
#![tactic(auto)]
