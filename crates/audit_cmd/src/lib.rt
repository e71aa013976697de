//! The command `audit`: journals in, what they say together out.
#![tactic(auto)]

pub mod audit;
pub mod audited;
pub mod journal_line;
pub mod journal_lines;
pub mod journals;
pub mod report;
