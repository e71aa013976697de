//! A journal on a machine in memory that stops while a record is appended.

use journal_at::journal::{Append, Journal};
use journal_at::load::load;
use journal_page::report::page;
use site_memory::arm::Choice;
use site_memory::machine::MemSite;
use std::alloc::Global;
use std::test::Fail;

const BEFORE: &str = "version 2\ngeneration 0\nincarnation 1\nstart 1\nnothing open\n";

const BEHIND: &str =
    "version 2\ngeneration 0\nincarnation 2\nstart 1\ncommitted 2-3\nnothing open\n";

/// The call at which the machine stops, what the crash leaves, and what is printed.
const STOPS: &[(u32, Choice, &str)] = &[
    (0, Choice::Keep, BEHIND),
    (1, Choice::Fill(1), BEFORE),
    (2, Choice::Drop, BEFORE),
    (3, Choice::Drop, BEFORE),
    (3, Choice::Fill(1), BEHIND),
    (4, Choice::Keep, BEHIND),
];

/// A journal of version 2 in which a Start stands.
fn begun(alloc: Global, site: &mut MemSite) -> Option<Journal> {
    let Ok((mut journal, _)) = load(alloc, site, 1000) else {
        return None;
    };
    let mark = journal.append(site, b"\x0b\x00\x00\x00\x00");
    let start = journal.append(site, b"\x01\x00\x00\x00\x01");
    if mark == Append::Done && start == Append::Done {
        Some(journal)
    } else {
        None
    }
}

fn is_printed(alloc: Global, site: &MemSite, text: &str) -> bool {
    match page(alloc, site.file(0), site.file(1)) {
        Ok(page) => page.as_slice() == text.as_bytes() && !page.is_bad(),
        Err(_) => false,
    }
}

fn prints(alloc: Global, k: u32, choice: Choice, text: &str) -> bool {
    let mut site = MemSite::new(alloc);
    let Some(mut journal) = begun(alloc, &mut site) else {
        return false;
    };
    site.stop(k, choice);
    let _ended = journal.append(&mut site, b"\x03\x00\x00\x00\x02\x00\x00\x00\x03");
    site.crash(choice);
    is_printed(alloc, &site, text)
}

#[test]
fn a_record_is_printed_once_it_stands(rt: HostRuntime) -> Result<(), Fail> {
    for (k, choice, text) in STOPS {
        let right = prints(rt.alloc(), *k, *choice, text);
        assert!(rt; right, "call {k}");
    }
    Ok(())
}
