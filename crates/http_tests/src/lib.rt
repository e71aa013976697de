//! Tests of HTTP requests and answers, byte by byte.
#![tactic(auto)]

#[cfg(test)]
mod answers;
#[cfg(test)]
mod requests;
