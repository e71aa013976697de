//! Journals whose bodies are single letters.

use journal_at::journal::Journal;
use journal_at::load::load;
use journal_at::records::Records;
use site_memory::machine::MemSite;
use std::alloc::Global;

/// The journal of a machine, where it is read.
pub fn opened(alloc: Global, site: &mut MemSite, limit: u32) -> Option<Journal> {
    match load(alloc, site, limit) {
        Ok((journal, _)) => Some(journal),
        Err(_) => None,
    }
}

/// The first bytes of the records, each as two digits of a number to the base of 256.
pub fn spelled(records: &Records) -> u32 {
    let mut number: u32 = 0;
    for placed in records.items() {
        let byte = match placed.body().first() {
            Some(byte) => *byte as u32,
            None => 0,
        };
        number = number.wrapping_mul(256).wrapping_add(byte);
    }
    number
}

/// What a machine's journal stands for: its letters, or 1 where it isn't read.
pub fn letters(alloc: Global, site: &mut MemSite) -> u32 {
    match load(alloc, site, 1000) {
        Ok((_, records)) => spelled(&records),
        Err(_) => 1,
    }
}
