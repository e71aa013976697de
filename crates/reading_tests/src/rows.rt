//! Rows of calls with the call that is armed, and what they come to. A letter is a call: `w` a write, `s` a sync, `a` an answer, `p` a post; a
//! capital one failed. A record's append is `wsws`.

use call_readings::became::Became;
use mirrored_nets::armed::Armed;
use read_calls::reading::{Named, Reading, read};
use site_memory::arm::Choice;
use site_memory::entry::{Deed, Entry};
use std::alloc::{AllocError, Global};
use std::test::Fail;

/// How many calls have no fate; the calls; which is armed: `f` fails, at `k`, `d` or a digit the machine stops, and keeps, drops or fills; what
/// became of the node: `s` stays, `f` fell, `h` halted, and in capitals as its journal was written anew; how many calls are kept; the fates; the
/// stop.
type Row = (
    usize,
    &'static [u8],
    &'static [u8],
    u8,
    usize,
    &'static [u8],
    u8,
);

const ROWS: &[Row] = &[
    // a call fails, or none
    (0, b"wswsap", b"", b's', 0, b"", b'-'),
    (0, b"Wap", b"f1", b's', 0, b"n", b'-'),
    (0, b"wSap", b"f2", b's', 0, b"n", b'-'),
    (0, b"wsW", b"f3", b'h', 0, b"n", b'1'),
    (0, b"wswS", b"f4", b'h', 0, b"y", b'1'),
    (0, b"wswsAp", b"f5", b's', 0, b"yn", b'-'),
    (0, b"wswsaP", b"f6", b's', 0, b"yyn", b'-'),
    (0, b"wswsap", b"f7", b's', 0, b"", b'-'),
    (0, b"aP", b"f2", b's', 0, b"yn", b'-'),
    (0, b"", b"f1", b's', 0, b"", b'-'),
    // behind the interim line
    (1, b"Aap", b"f1", b's', 0, b"", b'-'),
    (1, b"aAp", b"f2", b's', 0, b"n", b'-'),
    (1, b"awsW", b"f4", b'h', 0, b"n", b'1'),
    // the machine stops at a record's body, and at its gate
    (0, b"wswsap", b"k1", b'f', 1, b"n", b'1'),
    (0, b"wswsap", b"d2", b'f', 1, b"n", b'1'),
    (0, b"wswsap", b"12", b'f', 1, b"n", b'1'),
    (0, b"wswsap", b"k3", b'f', 3, b"y", b'1'),
    (0, b"wswsap", b"d3", b'f', 2, b"n", b'1'),
    (0, b"wswsap", b"13", b'f', 3, b"y", b'1'),
    (0, b"wswsap", b"03", b'f', 3, b"n", b'1'),
    (0, b"wswsap", b"k4", b'f', 4, b"y", b'1'),
    (0, b"wswsap", b"d4", b'f', 3, b"n", b'1'),
    (0, b"wswsap", b"14", b'f', 3, b"y", b'1'),
    (0, b"wswsap", b"24", b'f', 3, b"n", b'1'),
    // at an answer or a post
    (0, b"wswsap", b"k5", b'f', 5, b"yy", b'2'),
    (0, b"wswsap", b"d5", b'f', 4, b"yn", b'2'),
    (0, b"wswsap", b"96", b'f', 5, b"yyn", b'3'),
    (0, b"ap", b"k1", b'f', 1, b"y", b'1'),
    (0, b"ap", b"d2", b'f', 1, b"yn", b'2'),
    (0, b"wswsap", b"k7", b's', 0, b"", b'-'),
    (0, b"wswsap", b"k0", b's', 0, b"", b'-'),
    // at the interim line, and behind it
    (1, b"awswsap", b"k1", b'f', 1, b"", b'0'),
    (1, b"awswsap", b"d1", b'f', 0, b"", b'0'),
    (1, b"awswsap", b"k4", b'f', 4, b"y", b'1'),
    (1, b"awswsap", b"d6", b'f', 5, b"yn", b'2'),
    // as the journal is written anew behind the steps
    (0, b"apwswsws", b"", b's', 0, b"", b'-'),
    (0, b"apwsW", b"f5", b's', 0, b"", b'-'),
    (0, b"apwswsW", b"f7", b'H', 0, b"", b'-'),
    (0, b"apwswswS", b"f8", b'H', 0, b"", b'-'),
    (0, b"wswsapswsw", b"18", b'F', 8, b"", b'-'),
    (0, b"apwswsws", b"14", b'F', 3, b"", b'-'),
    (0, b"apwswsws", b"k3", b'F', 3, b"", b'-'),
    (0, b"apwswsws", b"d3", b'F', 2, b"", b'-'),
    (0, b"apwswsws", b"k9", b's', 0, b"", b'-'),
];

fn deed(alloc: Global, letter: u8) -> Result<Deed, AllocError> {
    match letter {
        b'w' => Deed::write(alloc, 0, 0, b"1"),
        b's' => Ok(Deed::Sync { file: 0 }),
        b'a' => Deed::send(alloc, b"202"),
        _ => Deed::post(alloc, b"host", 80, b"post"),
    }
}

fn entries(alloc: Global, calls: &[u8]) -> Result<Vec<Entry>, AllocError> {
    let mut entries = Vec::new(alloc);
    for call in calls {
        let letter = call.to_ascii_lowercase();
        entries.push(Entry {
            deed: deed(alloc, letter)?,
            done: letter == *call,
        })?;
    }
    Ok(entries)
}

fn digit(letter: u8) -> u8 {
    letter.wrapping_sub(b'0')
}

fn choice(armed: &[u8]) -> Choice {
    match armed.first() {
        Some(b'k') => Choice::Keep,
        Some(b'd') => Choice::Drop,
        Some(byte) => Choice::Fill(digit(*byte)),
        None => Choice::Keep,
    }
}

fn armed_of(armed: &[u8]) -> Armed {
    let Some(last) = armed.last() else {
        return Armed::No;
    };
    let call = digit(*last) as u32;
    match armed.first() {
        Some(b'f') => Armed::Fail(call),
        _ => Armed::Stop(call, choice(armed)),
    }
}

fn became_of(letter: u8, kept: usize, armed: &[u8]) -> Became {
    let choice = choice(armed);
    match letter {
        b's' => Became::Stays,
        b'f' => Became::Falls { kept, choice },
        b'h' => Became::Halts,
        b'F' => Became::FallsAnew { kept, choice },
        _ => Became::HaltsAnew,
    }
}

fn named_of(fates: &[u8]) -> Named {
    match fates.last() {
        None => Named::None,
        Some(last) => Named::Struck {
            before: fates.len().wrapping_sub(1),
            last: *last == b'y',
        },
    }
}

#[test]
fn calls_come_to_what_they_are(rt: HostRuntime) -> Result<(), Fail> {
    let mut place: u32 = 0;
    for (lines, calls, armed, became, kept, fates, until) in ROWS {
        let entries = entries(rt.alloc(), calls)?;
        let halted = *became == b'h' || *became == b'H';
        let found = read(*lines, entries.as_slice(), armed_of(armed), halted);
        let until = if *until == b'-' {
            None
        } else {
            Some(digit(*until) as u64)
        };
        let wanted = Reading {
            became: became_of(*became, *kept, armed),
            fates: named_of(fates),
            until,
        };
        assert!(rt; found == wanted, "row {place}");
        place = place.wrapping_add(1);
    }
    Ok(())
}
