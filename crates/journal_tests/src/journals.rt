//! Journals that are read, kept and shrunk.

use at_base::id::Id;
use at_base::message::Message;
use at_base::notice::{Kind, Notice};
use at_base::outs::{Out, Post};
use at_base::record::Record;
use at_base::target::Target;
use at_base::well_formed::is_well_formed;
use decision_log::fold::{FoldFault, fold};
use decision_log::keep::{KeepFault, keep};
use decision_log::ready::{Leave, Ready, leave_of, matches_token};
use decision_log::shrink::shrink;
use decision_log::token::What;
use journal_at::journal::{Append, Compact};
use journal_at::load::load;
use site_memory::arm::Choice;
use site_memory::machine::MemSite;
use site_model::site::Site;
use std::alloc::Global;
use std::test::Fail;

/// A coordinator's file of version 1, 72 bytes: Start 1, Decided 1-1 with one seat, Ended 1-1.
const DECIDED: &[u8] =
    b"\x01\x00\x00\x00\x05\x01\x00\x00\x00\x01\x01\x00\x00\x00\x2a\x06\x00\x00\x00\x01\x00\x00\x00\x01\x00\x01\x00\x01\x00\x19http://n3.example/p/d/1-1\x00\x00\x01\x00\x00\x00\x09\x08\x00\x00\x00\x01\x00\x00\x00\x01\x00";

/// The same in version 2.
const DECIDED_2: &[u8] =
    b"\x01\x00\x00\x00\x05\x0b\x00\x00\x00\x00\x01\x00\x00\x00\x05\x01\x00\x00\x00\x01\x01\x00\x00\x00\x2a\x06\x00\x00\x00\x01\x00\x00\x00\x01\x00\x01\x00\x01\x00\x19http://n3.example/p/d/1-1\x00\x00\x01\x00\x00\x00\x09\x08\x00\x00\x00\x01\x00\x00\x00\x01\x00";

/// A file, and the gate of its first body that is no record of its version.
const BAD: &[(&[u8], u64)] = &[
    // Done in version 1
    (
        b"\x01\x00\x00\x00\x05\x01\x00\x00\x00\x01\x01\x00\x00\x00\x09\x0a\x00\x00\x00\x01\x00\x00\x00\x01\x00",
        10,
    ),
    // a Start of no incarnation
    (b"\x01\x00\x00\x00\x05\x01\x00\x00\x00\x00\x00", 0),
    // a letter behind a mark of version 2 and a Start
    (
        b"\x01\x00\x00\x00\x05\x0b\x00\x00\x00\x00\x01\x00\x00\x00\x05\x01\x00\x00\x00\x01\x01\x00\x00\x00\x01a\x00",
        20,
    ),
];

fn is_bad_at(alloc: Global, file: &[u8], gate: u64) -> bool {
    let mut site = MemSite::new(alloc);
    if site.write_at(0, 0, file).is_err() {
        return false;
    }
    let Ok((_, records)) = load(alloc, &mut site, 1000) else {
        return false;
    };
    match fold(alloc, &records) {
        Err(FoldFault::Bad { place }) => place == gate,
        _ => false,
    }
}

#[test]
fn each_bad_record_is_named_by_its_gate(rt: HostRuntime) -> Result<(), Fail> {
    for (file, gate) in BAD {
        let right = is_bad_at(rt.alloc(), file, *gate);
        assert!(rt; right, "gate {gate}");
    }
    Ok(())
}

/// What shrinking a file leaves in the other.
const SHRUNK: &[(&[u8], &[u8])] = &[
    (
        DECIDED,
        b"\x01\x00\x00\x00\x05\x0b\x00\x00\x00\x01\x01\x00\x00\x00\x05\x01\x00\x00\x00\x01\x00",
    ),
    (
        DECIDED_2,
        b"\x01\x00\x00\x00\x05\x0b\x00\x00\x00\x01\x01\x00\x00\x00\x05\x01\x00\x00\x00\x01\x01\x00\x00\x00\x09\x0a\x00\x00\x00\x01\x00\x00\x00\x01\x00",
    ),
    // nothing but a mark
    (
        b"\x01\x00\x00\x00\x05\x0b\x00\x00\x00\x00\x00",
        b"\x01\x00\x00\x00\x05\x0b\x00\x00\x00\x01\x00",
    ),
    // a Voted 1-2 with its SubCommitted stands behind a leaf of a lower id, and an ended leaf is gone
    (
        b"\x01\x00\x00\x00\x05\x0b\x00\x00\x00\x00\x01\x00\x00\x00\x05\x01\x00\x00\x00\x02\x01\x00\x00\x00\x17\x05\x00\x00\x00\x01\x00\x00\x00\x02\x00\x01a\x00\x00\x00\x01\x00\x01\x00\x01b\x00\x00\x01\x00\x00\x00\x14\x02\x00\x00\x00\x01\x00\x00\x00\x03\x00\x01a\x00\x00\x00\x01k\x00\x01v\x01\x00\x00\x00\x09\x07\x00\x00\x00\x01\x00\x00\x00\x02\x01\x00\x00\x00\x09\x03\x00\x00\x00\x01\x00\x00\x00\x03\x01\x00\x00\x00\x14\x02\x00\x00\x00\x01\x00\x00\x00\x01\x00\x01a\x00\x00\x00\x01k\x00\x01v\x00",
        b"\x01\x00\x00\x00\x05\x0b\x00\x00\x00\x01\x01\x00\x00\x00\x05\x01\x00\x00\x00\x02\x01\x00\x00\x00\x14\x02\x00\x00\x00\x01\x00\x00\x00\x01\x00\x01a\x00\x00\x00\x01k\x00\x01v\x01\x00\x00\x00\x17\x05\x00\x00\x00\x01\x00\x00\x00\x02\x00\x01a\x00\x00\x00\x01\x00\x01\x00\x01b\x00\x00\x01\x00\x00\x00\x09\x07\x00\x00\x00\x01\x00\x00\x00\x02\x00",
    ),
];

fn shrinks(alloc: Global, file: &[u8], wanted: &[u8]) -> bool {
    let mut site = MemSite::new(alloc);
    if site.write_at(0, 0, file).is_err() {
        return false;
    }
    let Ok((mut journal, records)) = load(alloc, &mut site, 1000) else {
        return false;
    };
    let Ok(kept) = fold(alloc, &records) else {
        return false;
    };
    if journal.generation() > 1000 {
        return false;
    }
    let answer = shrink(alloc, &mut journal, &mut site, &kept);
    answer == Ok(Compact::Done) && site.file(0) == file && site.file(1) == wanted
}

#[test]
fn a_shrunk_file_has_what_is_kept(rt: HostRuntime) -> Result<(), Fail> {
    for (file, wanted) in SHRUNK {
        let right = shrinks(rt.alloc(), file, wanted);
        assert!(rt; right, "file");
    }
    Ok(())
}

/// Whether what is kept of a machine's journal is Start 1 and the outcome 1-1.
fn is_kept(alloc: Global, site: &mut MemSite) -> bool {
    let Ok((_, records)) = load(alloc, site, 1000) else {
        return false;
    };
    match fold(alloc, &records) {
        Ok(kept) => {
            kept.live().is_empty() && kept.start() == 1 && kept.done() == [Id::new(1, 1)].as_slice()
        }
        Err(_) => false,
    }
}

/// Whether the same is kept behind a shrink whose call is stopped or fails.
fn stays_kept(alloc: Global, k: u32, stops: bool, choice: Choice) -> bool {
    let mut site = MemSite::new(alloc);
    if site.write_at(0, 0, DECIDED_2).is_err() || site.sync(0).is_err() {
        return false;
    }
    let Ok((mut journal, records)) = load(alloc, &mut site, 1000) else {
        return false;
    };
    let Ok(kept) = fold(alloc, &records) else {
        return false;
    };
    if journal.generation() > 1000 {
        return false;
    }
    if stops {
        site.stop(k, choice);
    } else {
        site.fail(k);
    }
    let _answer = shrink(alloc, &mut journal, &mut site, &kept);
    site.crash(choice);
    is_kept(alloc, &mut site)
}

const CHOICES: &[Choice] = &[Choice::Keep, Choice::Drop, Choice::Fill(0), Choice::Fill(1)];

#[test]
fn the_same_is_kept_wherever_a_shrink_ends(rt: HostRuntime) -> Result<(), Fail> {
    for k in 1..7 {
        for choice in CHOICES {
            let stopped = stays_kept(rt.alloc(), k, true, *choice);
            let failed = stays_kept(rt.alloc(), k, false, *choice);
            assert!(rt; stopped && failed, "call {k}");
        }
    }
    Ok(())
}

/// The Committed of a durable leaf.
fn committed(id: Id) -> Out {
    Out::Post(Post {
        own: Some(Target::Participant {
            id,
            kind: Kind::Durable,
        }),
        to: None,
        id: None,
        relates: None,
        from: None,
        reply: None,
        message: Message::Notice(Notice::Committed),
    })
}

/// Whether the token that keeping a LeafCommitted answers lets the leaf's Committed leave, and no other leaf's.
fn lets_leave(alloc: Global) -> bool {
    let id = Id::new(1, 1);
    let mut site = MemSite::new(alloc);
    let Ok((mut journal, _)) = load(alloc, &mut site, 1000) else {
        return false;
    };
    if journal.append(&mut site, b"\x0b\x00\x00\x00\x00") != Append::Done {
        return false;
    }
    let entry = Record::LeafCommitted { id };
    if !is_well_formed(&entry) {
        return false;
    }
    let Ok(token) = keep(alloc, &mut journal, &mut site, &entry) else {
        return false;
    };
    let out = committed(id);
    let other = committed(Id::new(1, 2));
    if !matches_token(&out, &token) || matches_token(&other, &token) {
        return false;
    }
    let ready = Ready::guarded(out, &token);
    ready.into_out() == committed(id) && token.what() == What::LeafCommitted
}

#[test]
fn a_token_lets_its_own_out_leave(rt: HostRuntime) -> Result<(), Fail> {
    let right = lets_leave(rt.alloc());
    assert!(rt; right, "token");
    Ok(())
}

/// The call that fails, and why a record isn't kept.
const FAULTS: &[(u32, KeepFault)] = &[
    (1, KeepFault::Refused),
    (2, KeepFault::Refused),
    (3, KeepFault::Unsure),
    (4, KeepFault::Unsure),
];

fn faults(alloc: Global, k: u32, limit: u32) -> Option<KeepFault> {
    let mut site = MemSite::new(alloc);
    let Ok((mut journal, _)) = load(alloc, &mut site, limit) else {
        return None;
    };
    site.fail(k);
    let entry = Record::Start { incarnation: 1 };
    match keep(alloc, &mut journal, &mut site, &entry) {
        Ok(_) => None,
        Err(fault) => Some(fault),
    }
}

#[test]
fn a_record_that_is_not_kept_says_why(rt: HostRuntime) -> Result<(), Fail> {
    for (k, wanted) in FAULTS {
        let fault = faults(rt.alloc(), *k, 1000);
        assert!(rt; fault.as_ref() == Some(wanted), "call {k}");
    }
    let full = faults(rt.alloc(), 0, 10);
    let fits = faults(rt.alloc(), 0, 11);
    assert!(rt; full == Some(KeepFault::Full) && fits.is_none(), "limit");
    Ok(())
}

/// Whether an out has an owner, what it says, and whether it is free, and whether it is an answer of what isn't known.
const LEAVES: &[(bool, Notice, bool, bool)] = &[
    (false, Notice::Committed, false, true),
    (false, Notice::Aborted, false, true),
    (false, Notice::Rollback, false, true),
    (false, Notice::Commit, false, false),
    (false, Notice::Prepared, false, false),
    (true, Notice::Commit, true, false),
];

fn leaves(owned: bool, notice: Notice) -> Leave {
    let out = Out::Post(Post {
        own: if owned { Some(Target::Work) } else { None },
        to: None,
        id: None,
        relates: None,
        from: None,
        reply: None,
        message: Message::Notice(notice),
    });
    leave_of(&out)
}

#[test]
fn what_is_not_known_only_answers(rt: HostRuntime) -> Result<(), Fail> {
    for (owned, notice, free, echo) in LEAVES {
        let leave = leaves(*owned, *notice);
        assert!(rt;
            (leave == Leave::Free) == *free && (leave == Leave::Echo) == *echo,
            "leave"
        );
    }
    Ok(())
}
