//! Plain data that every layer speaks: texts, ids, endpoints, messages, targets, records, events and outs.
#![tactic(auto)]

pub mod epr;
pub mod event;
pub mod fault;
pub mod id;
pub mod limits;
pub mod message;
pub mod message_id;
pub mod notice;
pub mod outs;
pub mod record;
pub mod target;
pub mod text;
pub mod well_formed;
