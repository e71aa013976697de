//! Schedules through the top call: those that are read, and those that are made.

use crate::top_call::prints;
use std::test::Fail;

pub const PLAIN: &str = "\
nodes 3\n\
begin 1 2 60000\n\
flush 99\n\
work 1 1-1 3 d prepared\n\
flush 99\n\
commit 1 1-1\n\
flush 99\n\
";

/// Commands, schedules, the status of their replay, and what it prints.
const SCHEDULES: &[(&str, &str, u8, &str)] = &[
    (
        "replay",
        "nodes 1",
        0,
        "up 1 1\nend messages 0 committed 0 aborted 0 lost 0\n",
    ),
    (
        "replay --settle",
        "nodes 1",
        0,
        "up 1 1\ntick 1 5000 202\ntick 1 10000 202\ntick 1 15000 202\ntick 1 20000 202\n\
tick 1 25000 202\ntick 1 30000 202\ntick 1 35000 202\ntick 1 40000 202\n\
end messages 0 committed 0 aborted 0 lost 0\n",
    ),
    (
        "replay --bytes",
        "nodes 1\ncommit 1 1-1\n",
        0,
        "up 1 1\nrefused state\nend messages 0 committed 0 aborted 0 lost 0\n",
    ),
    (
        "replay",
        "nodes 1\ninject 1 00\n",
        0,
        "up 1 1\ninject 1 400\nend messages 0 committed 0 aborted 0 lost 0\n",
    ),
    (
        "replay",
        "nodes 1\ninject 1 504f5354202f776f726b20485454502f312e310d0a486f73743a206e312e6578616d706c650d0a436f6e74656e742d4c656e6774683a20330d0a0d0a3c613e",
        0,
        "up 1 1\ninject 1 500\nend messages 0 committed 0 aborted 0 lost 0\n",
    ),
    ("replay", "", 3, "line 1 cause 7\n"),
    ("replay", "nodes 1\nup 1\nfoo\n", 3, "line 3 cause 1\n"),
    (
        "replay --settle",
        "nodes 1\nflush 1\nfoo\n",
        3,
        "line 3 cause 1\n",
    ),
];

#[test]
fn replays(rt: HostRuntime) -> Result<(), Fail> {
    for (line, schedule, status, printed) in SCHEDULES {
        let outcome = prints(rt, line, schedule.as_bytes(), printed)?;
        assert!(rt; outcome == (*status, true));
    }
    Ok(())
}

pub const NO_NUMBERS: &str = "error: invalid value for '--seed <SEED>' or '--steps <N>'\n  \
[SEED: 0 to 18446744073709551615; N: 0 to 9999]\n\n\
For more information, try '--help'.\n";

/// Seeds with how many lines are made of them, the status, and what is printed.
const MADE: &[(&str, u8, &str)] = &[
    (
        "make --seed 1 --steps 0",
        0,
        "steps 0 messages 0 committed 0 aborted 0 lost 0\n",
    ),
    (
        "make --seed 1 --steps 1",
        0,
        "steps 1 messages 0 committed 0 aborted 0 lost 0\n",
    ),
    (
        "make --steps=1 --seed=18446744073709551615",
        0,
        "steps 1 messages 0 committed 0 aborted 0 lost 0\n",
    ),
    (
        "make --seed 7 --steps 9999",
        0,
        "steps 9999 messages 1026 committed 0 aborted 7 lost 7\n",
    ),
    ("make --seed 18446744073709551616 --steps 0", 2, NO_NUMBERS),
    ("make --seed 01 --steps 0", 2, NO_NUMBERS),
    ("make --seed 1 --steps 10000", 2, NO_NUMBERS),
    ("make --seed 1 --steps +1", 2, NO_NUMBERS),
];

#[test]
fn makes(rt: HostRuntime) -> Result<(), Fail> {
    for (line, status, printed) in MADE {
        let outcome = prints(rt, line, b"", printed)?;
        assert!(rt; outcome == (*status, true));
    }
    Ok(())
}
