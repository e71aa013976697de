//! Tests of a node's machine over a system in memory, whose calls fail, move little and end as a script says.
#![tactic(auto)]

#[cfg(test)]
mod failures;
#[cfg(test)]
mod files;
#[cfg(test)]
mod links;
#[cfg(test)]
mod posts;
#[cfg(test)]
mod strangers;
