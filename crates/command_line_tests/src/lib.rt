//! Tests of the command line. They stand apart, since a crate with tests is proved twice.
#![tactic(auto)]

#[cfg(test)]
mod commands;
#[cfg(test)]
mod commit_faults;
#[cfg(test)]
mod disturbed_schedules;
#[cfg(test)]
mod faults;
#[cfg(test)]
mod journals;
#[cfg(test)]
mod long_schedules;
#[cfg(test)]
mod message_bytes;
#[cfg(test)]
mod program;
#[cfg(test)]
mod reports;
#[cfg(test)]
mod servings;
#[cfg(test)]
mod ticks;
#[cfg(test)]
mod top_call;
#[cfg(test)]
mod worked_schedules;
