//! Schedules through the top call, and what it prints of each. Beside each world nodes that serve run, on machines in memory.

use crate::top_call::prints;
use std::test::Fail;

/// Node 1 has an activity at node 2, and has had node 3 work in it as a durable participant.
pub const WORKED: &str = "\
nodes 3\n\
begin 1 2 60000\n\
flush 99\n\
work 1 1-1 3 d prepared\n\
flush 99\n\
";

pub const WORKED_REPORT: &str = "\
up 1 1\n\
up 2 1\n\
up 3 1\n\
msg 1 1>2 CreateCoordinationContext /activation\n\
deliver 1 2 202\n\
msg 2 2>1 CreateCoordinationContextResponse /i/1-1\n\
deliver 2 1 202\n\
msg 3 1>2 Register /registration/1-1\n\
deliver 3 2 202\n\
msg 4 2>1 RegisterResponse /i/1-1\n\
deliver 4 1 202\n\
msg 5 1>3 Work /work\n\
deliver 5 3 202\n\
msg 6 3>2 Register /registration/1-1\n\
deliver 6 2 202\n\
msg 7 2>3 RegisterResponse /p/d/1-1\n\
deliver 7 3 202\n\
msg 8 3>1 WorkDone /i/1-1\n\
deliver 8 1 202\n\
";

/// Node 1 has a root at node 2, a subordinate of that at node 3, and a durable participant under it at node 4. It asks for
/// the commit.
pub const NESTED: &str = "\
nodes 4\n\
begin 1 2 0\n\
flush 99\n\
interpose 1 1-1 3\n\
flush 99\n\
work 1 1-2 4 d prepared\n\
flush 99\n\
commit 1 1-1\n\
";

pub const NESTED_REPORT: &str = "\
up 1 1\n\
up 2 1\n\
up 3 1\n\
up 4 1\n\
msg 1 1>2 CreateCoordinationContext /activation\n\
deliver 1 2 202\n\
msg 2 2>1 CreateCoordinationContextResponse /i/1-1\n\
deliver 2 1 202\n\
msg 3 1>2 Register /registration/1-1\n\
deliver 3 2 202\n\
msg 4 2>1 RegisterResponse /i/1-1\n\
deliver 4 1 202\n\
msg 5 1>3 CreateCoordinationContext /activation\n\
deliver 5 3 202\n\
msg 6 3>2 Register /registration/1-1\n\
msg 7 3>2 Register /registration/1-1\n\
deliver 6 2 202\n\
msg 8 2>3 RegisterResponse /p/v/1-1\n\
deliver 7 2 202\n\
msg 9 2>3 RegisterResponse /p/d/1-1\n\
deliver 8 3 202\n\
deliver 9 3 202\n\
msg 10 3>1 CreateCoordinationContextResponse /i/1-2\n\
deliver 10 1 202\n\
msg 11 1>4 Work /work\n\
deliver 11 4 202\n\
msg 12 4>3 Register /registration/1-1\n\
deliver 12 3 202\n\
msg 13 3>4 RegisterResponse /p/d/1-1\n\
deliver 13 4 202\n\
msg 14 4>1 WorkDone /i/1-2\n\
deliver 14 1 202\n\
msg 15 1>2 Commit /completion/1-1\n\
";

/// A participant's Register comes twice.
pub const TWICE: &str = "\
nodes 3\n\
begin 1 2 60000\n\
flush 99\n\
work 1 1-1 3 d prepared\n\
deliver 5\n\
deliver 6\n\
deliver 6\n\
";

/// Commits that nothing disturbs, and votes of all kinds: a command, a schedule and its report in two parts each.
const COMMITS: &[(&str, &str, &str, &str, &str)] = &[
    // The plain path.
    (
        "replay",
        WORKED,
        WORKED_REPORT,
        "commit 1 1-1\nflush 99\n",
        "\
msg 9 1>2 Commit /completion/1-1\n\
deliver 9 2 202\n\
msg 10 2>3 Prepare /p/d/1-1\n\
deliver 10 3 202\n\
msg 11 3>2 Prepared /c/d/1-1/1\n\
deliver 11 2 202\n\
root 2 1-1 committed\n\
msg 12 2>3 Commit /p/d/1-1\n\
msg 13 2>1 Committed /i/1-1\n\
deliver 12 3 202\n\
leaf 3 1-1 d committed\n\
msg 14 3>2 Committed /c/d/1-1/1\n\
deliver 13 1 202\n\
told 1 1-1 committed\n\
deliver 14 2 202\n\
end messages 14 committed 1 aborted 0 lost 0\n\
",
    ),
    // An initiator that asks for the commit again hears of it, also once the transaction is gone.
    (
        "replay",
        WORKED,
        WORKED_REPORT,
        "commit 1 1-1\nflush 99\ndeliver 9\n",
        "\
msg 9 1>2 Commit /completion/1-1\n\
deliver 9 2 202\n\
msg 10 2>3 Prepare /p/d/1-1\n\
deliver 10 3 202\n\
msg 11 3>2 Prepared /c/d/1-1/1\n\
deliver 11 2 202\n\
root 2 1-1 committed\n\
msg 12 2>3 Commit /p/d/1-1\n\
msg 13 2>1 Committed /i/1-1\n\
deliver 12 3 202\n\
leaf 3 1-1 d committed\n\
msg 14 3>2 Committed /c/d/1-1/1\n\
deliver 13 1 202\n\
told 1 1-1 committed\n\
deliver 14 2 202\n\
deliver 9 2 202\n\
msg 15 2>1 Committed /i/1-1\n\
end messages 15 committed 1 aborted 0 lost 0\n\
",
    ),
    // No participant.
    (
        "replay",
        "",
        "",
        "nodes 2\nbegin 1 2 0\nflush 99\ncommit 1 1-1\nflush 99\n",
        "\
up 1 1\n\
up 2 1\n\
msg 1 1>2 CreateCoordinationContext /activation\n\
deliver 1 2 202\n\
msg 2 2>1 CreateCoordinationContextResponse /i/1-1\n\
deliver 2 1 202\n\
msg 3 1>2 Register /registration/1-1\n\
deliver 3 2 202\n\
msg 4 2>1 RegisterResponse /i/1-1\n\
deliver 4 1 202\n\
msg 5 1>2 Commit /completion/1-1\n\
deliver 5 2 202\n\
root 2 1-1 committed\n\
msg 6 2>1 Committed /i/1-1\n\
deliver 6 1 202\n\
told 1 1-1 committed\n\
end messages 6 committed 0 aborted 0 lost 0\n\
",
    ),
    // A volatile participant is asked first.
    (
        "replay",
        WORKED,
        WORKED_REPORT,
        "work 1 1-1 3 v prepared\nflush 99\ncommit 1 1-1\nflush 99\n",
        "\
msg 9 1>3 Work /work\n\
deliver 9 3 202\n\
msg 10 3>2 Register /registration/1-1\n\
deliver 10 2 202\n\
msg 11 2>3 RegisterResponse /p/v/1-2\n\
deliver 11 3 202\n\
msg 12 3>1 WorkDone /i/1-1\n\
deliver 12 1 202\n\
msg 13 1>2 Commit /completion/1-1\n\
deliver 13 2 202\n\
msg 14 2>3 Prepare /p/v/1-2\n\
deliver 14 3 202\n\
msg 15 3>2 Prepared /c/v/1-1/2\n\
deliver 15 2 202\n\
msg 16 2>3 Prepare /p/d/1-1\n\
deliver 16 3 202\n\
msg 17 3>2 Prepared /c/d/1-1/1\n\
deliver 17 2 202\n\
root 2 1-1 committed\n\
msg 18 2>3 Commit /p/d/1-1\n\
msg 19 2>3 Commit /p/v/1-2\n\
msg 20 2>1 Committed /i/1-1\n\
deliver 18 3 202\n\
leaf 3 1-1 d committed\n\
msg 21 3>2 Committed /c/d/1-1/1\n\
deliver 19 3 202\n\
leaf 3 1-2 v committed\n\
msg 22 3>2 Committed /c/v/1-1/2\n\
deliver 20 1 202\n\
told 1 1-1 committed\n\
deliver 21 2 202\n\
deliver 22 2 202\n\
end messages 22 committed 1 aborted 0 lost 0\n\
",
    ),
    // The participant votes ReadOnly.
    (
        "replay",
        "",
        "",
        "nodes 3\nbegin 1 2 60000\nflush 99\nwork 1 1-1 3 d readonly\nflush 99\ncommit 1 1-1\nflush 99\n",
        "\
up 1 1\n\
up 2 1\n\
up 3 1\n\
msg 1 1>2 CreateCoordinationContext /activation\n\
deliver 1 2 202\n\
msg 2 2>1 CreateCoordinationContextResponse /i/1-1\n\
deliver 2 1 202\n\
msg 3 1>2 Register /registration/1-1\n\
deliver 3 2 202\n\
msg 4 2>1 RegisterResponse /i/1-1\n\
deliver 4 1 202\n\
msg 5 1>3 Work /work\n\
deliver 5 3 202\n\
msg 6 3>2 Register /registration/1-1\n\
deliver 6 2 202\n\
msg 7 2>3 RegisterResponse /p/d/1-1\n\
deliver 7 3 202\n\
msg 8 3>1 WorkDone /i/1-1\n\
deliver 8 1 202\n\
msg 9 1>2 Commit /completion/1-1\n\
deliver 9 2 202\n\
msg 10 2>3 Prepare /p/d/1-1\n\
deliver 10 3 202\n\
msg 11 3>2 ReadOnly /c/d/1-1/1\n\
deliver 11 2 202\n\
root 2 1-1 committed\n\
msg 12 2>1 Committed /i/1-1\n\
deliver 12 1 202\n\
told 1 1-1 committed\n\
end messages 12 committed 0 aborted 0 lost 0\n\
",
    ),
    // One of two aborts.
    (
        "replay",
        WORKED,
        WORKED_REPORT,
        "work 1 1-1 3 d aborted\nflush 99\ncommit 1 1-1\nflush 99\n",
        "\
msg 9 1>3 Work /work\n\
deliver 9 3 202\n\
msg 10 3>2 Register /registration/1-1\n\
deliver 10 2 202\n\
msg 11 2>3 RegisterResponse /p/d/1-2\n\
deliver 11 3 202\n\
msg 12 3>1 WorkDone /i/1-1\n\
deliver 12 1 202\n\
msg 13 1>2 Commit /completion/1-1\n\
deliver 13 2 202\n\
msg 14 2>3 Prepare /p/d/1-1\n\
msg 15 2>3 Prepare /p/d/1-2\n\
deliver 14 3 202\n\
msg 16 3>2 Prepared /c/d/1-1/1\n\
deliver 15 3 202\n\
leaf 3 1-2 d aborted\n\
msg 17 3>2 Aborted /c/d/1-1/2\n\
deliver 16 2 202\n\
deliver 17 2 202\n\
root 2 1-1 aborted\n\
msg 18 2>3 Rollback /p/d/1-1\n\
msg 19 2>1 Aborted /i/1-1\n\
deliver 18 3 202\n\
leaf 3 1-1 d aborted\n\
msg 20 3>2 Aborted /c/d/1-1/1\n\
deliver 19 1 202\n\
told 1 1-1 aborted\n\
deliver 20 2 202\n\
end messages 20 committed 0 aborted 2 lost 0\n\
",
    ),
    // A Register comes too late.
    (
        "replay",
        WORKED,
        WORKED_REPORT,
        "work 1 1-1 3 d prepared\ncommit 1 1-1\ndeliver 10\ndeliver 9\ndeliver 12\ndeliver 13\n",
        "\
msg 9 1>3 Work /work\n\
msg 10 1>2 Commit /completion/1-1\n\
deliver 10 2 202\n\
msg 11 2>3 Prepare /p/d/1-1\n\
deliver 9 3 202\n\
msg 12 3>2 Register /registration/1-1\n\
deliver 12 2 202\n\
msg 13 2>3 CannotRegisterParticipant /p/d/1-2\n\
deliver 13 3 202\n\
leaf 3 1-2 d aborted\n\
msg 14 3>1 WorkRefused /i/1-1\n\
end messages 14 committed 0 aborted 1 lost 0\n\
",
    ),
];

/// Messages that come again or late, and what expires.
const REPEATS: &[(&str, &str, &str, &str, &str)] = &[
    // A Register is delivered twice.
    (
        "replay",
        "",
        "",
        TWICE,
        "\
up 1 1\n\
up 2 1\n\
up 3 1\n\
msg 1 1>2 CreateCoordinationContext /activation\n\
deliver 1 2 202\n\
msg 2 2>1 CreateCoordinationContextResponse /i/1-1\n\
deliver 2 1 202\n\
msg 3 1>2 Register /registration/1-1\n\
deliver 3 2 202\n\
msg 4 2>1 RegisterResponse /i/1-1\n\
deliver 4 1 202\n\
msg 5 1>3 Work /work\n\
deliver 5 3 202\n\
msg 6 3>2 Register /registration/1-1\n\
deliver 6 2 202\n\
msg 7 2>3 RegisterResponse /p/d/1-1\n\
deliver 6 2 202\n\
msg 8 2>3 RegisterResponse /p/d/1-1\n\
end messages 8 committed 0 aborted 0 lost 0\n\
",
    ),
    // A Prepare is delivered again behind the outcome.
    (
        "replay",
        WORKED,
        WORKED_REPORT,
        "\
commit 1 1-1\n\
deliver 9\n\
deliver 10\n\
deliver 11\n\
deliver 12\n\
deliver 10\n\
deliver 15\n\
tick 2 5000\n\
deliver 17\n\
deliver 18\n\
",
        "\
msg 9 1>2 Commit /completion/1-1\n\
deliver 9 2 202\n\
msg 10 2>3 Prepare /p/d/1-1\n\
deliver 10 3 202\n\
msg 11 3>2 Prepared /c/d/1-1/1\n\
deliver 11 2 202\n\
root 2 1-1 committed\n\
msg 12 2>3 Commit /p/d/1-1\n\
msg 13 2>1 Committed /i/1-1\n\
deliver 12 3 202\n\
leaf 3 1-1 d committed\n\
msg 14 3>2 Committed /c/d/1-1/1\n\
deliver 10 3 202\n\
msg 15 3>2 Aborted /c/d/1-1/1\n\
deliver 15 2 202\n\
msg 16 2>3 InvalidState /p/d/1-1\n\
tick 2 5000 202\n\
msg 17 2>3 Commit /p/d/1-1\n\
deliver 17 3 202\n\
msg 18 3>2 Committed /c/d/1-1/1\n\
deliver 18 2 202\n\
end messages 18 committed 1 aborted 0 lost 0\n\
",
    ),
    // A subordinate coordinator.
    (
        "replay",
        NESTED,
        NESTED_REPORT,
        "flush 99\n",
        "\
deliver 15 2 202\n\
msg 16 2>3 Prepare /p/v/1-1\n\
deliver 16 3 202\n\
msg 17 3>2 ReadOnly /c/v/1-1/1\n\
deliver 17 2 202\n\
msg 18 2>3 Prepare /p/d/1-1\n\
deliver 18 3 202\n\
msg 19 3>4 Prepare /p/d/1-1\n\
deliver 19 4 202\n\
msg 20 4>3 Prepared /c/d/1-1/1\n\
deliver 20 3 202\n\
msg 21 3>2 Prepared /c/d/1-1/2\n\
deliver 21 2 202\n\
root 2 1-1 committed\n\
msg 22 2>3 Commit /p/d/1-1\n\
msg 23 2>1 Committed /i/1-1\n\
deliver 22 3 202\n\
sub 3 1-1 committed\n\
msg 24 3>4 Commit /p/d/1-1\n\
deliver 23 1 202\n\
told 1 1-1 committed\n\
deliver 24 4 202\n\
leaf 4 1-1 d committed\n\
msg 25 4>3 Committed /c/d/1-1/1\n\
deliver 25 3 202\n\
msg 26 3>2 Committed /c/d/1-1/2\n\
deliver 26 2 202\n\
end messages 26 committed 2 aborted 0 lost 0\n\
",
    ),
    // The root expires before its decision.
    (
        "replay",
        WORKED,
        WORKED_REPORT,
        "commit 1 1-1\ndeliver 9\ntick 2 60000\n",
        "\
msg 9 1>2 Commit /completion/1-1\n\
deliver 9 2 202\n\
msg 10 2>3 Prepare /p/d/1-1\n\
tick 2 60000 202\n\
root 2 1-1 aborted\n\
msg 11 2>3 Rollback /p/d/1-1\n\
msg 12 2>1 Aborted /i/1-1\n\
end messages 12 committed 0 aborted 0 lost 0\n\
",
    ),
    // Behind its decision it sends Commit again.
    (
        "replay",
        WORKED,
        WORKED_REPORT,
        "commit 1 1-1\ndeliver 9\ndeliver 10\ndeliver 11\ntick 2 60000\n",
        "\
msg 9 1>2 Commit /completion/1-1\n\
deliver 9 2 202\n\
msg 10 2>3 Prepare /p/d/1-1\n\
deliver 10 3 202\n\
msg 11 3>2 Prepared /c/d/1-1/1\n\
deliver 11 2 202\n\
root 2 1-1 committed\n\
msg 12 2>3 Commit /p/d/1-1\n\
msg 13 2>1 Committed /i/1-1\n\
tick 2 60000 202\n\
msg 14 2>3 Commit /p/d/1-1\n\
end messages 14 committed 0 aborted 0 lost 0\n\
",
    ),
    // A participant's node goes down before its vote: the new incarnation doesn't know the old one's participant, and the
    // transaction aborts.
    (
        "replay",
        WORKED,
        WORKED_REPORT,
        "crash 3\nup 3\nwork 1 1-1 3 d prepared\nflush 99\ncommit 1 1-1\nflush 99\n",
        "\
down 3\n\
leaf 3 1-1 d lost\n\
up 3 2\n\
msg 9 1>3 Work /work\n\
deliver 9 3 202\n\
msg 10 3>2 Register /registration/1-1\n\
deliver 10 2 202\n\
msg 11 2>3 RegisterResponse /p/d/2-1\n\
deliver 11 3 202\n\
msg 12 3>1 WorkDone /i/1-1\n\
deliver 12 1 202\n\
msg 13 1>2 Commit /completion/1-1\n\
deliver 13 2 202\n\
msg 14 2>3 Prepare /p/d/1-1\n\
msg 15 2>3 Prepare /p/d/2-1\n\
deliver 14 3 202\n\
msg 16 3>2 Aborted /c/d/1-1/1\n\
deliver 15 3 202\n\
msg 17 3>2 Prepared /c/d/1-1/2\n\
deliver 16 2 202\n\
root 2 1-1 aborted\n\
msg 18 2>3 Rollback /p/d/2-1\n\
msg 19 2>1 Aborted /i/1-1\n\
deliver 17 2 202\n\
msg 20 2>3 Rollback /p/d/2-1\n\
deliver 18 3 202\n\
leaf 3 2-1 d aborted\n\
msg 21 3>2 Aborted /c/d/1-1/2\n\
deliver 19 1 202\n\
told 1 1-1 aborted\n\
deliver 20 3 202\n\
msg 22 3>2 Aborted /c/d/1-1/2\n\
deliver 21 2 202\n\
deliver 22 2 202\n\
end messages 22 committed 0 aborted 1 lost 1\n\
",
    ),
];

/// The status of a command over a schedule of two parts, and whether it prints these two.
pub fn reports(
    rt: HostRuntime,
    line: &str,
    begun: &str,
    shown: &str,
    more: &str,
    rest: &str,
) -> Result<(u8, bool), Fail> {
    let schedule = format!(in rt.alloc(); "{begun}{more}")?;
    let report = format!(in rt.alloc(); "{shown}{rest}")?;
    prints(rt, line, schedule.as_bytes(), report.as_str())
}

#[test]
fn reports_of_commits(rt: HostRuntime) -> Result<(), Fail> {
    for (line, begun, shown, more, rest) in COMMITS {
        let outcome = reports(rt, line, begun, shown, more, rest)?;
        assert!(rt; outcome == (0, true), "{more}");
    }
    Ok(())
}

#[test]
fn reports_of_repeated_messages(rt: HostRuntime) -> Result<(), Fail> {
    for (line, begun, shown, more, rest) in REPEATS {
        let outcome = reports(rt, line, begun, shown, more, rest)?;
        assert!(rt; outcome == (0, true), "{more}");
    }
    Ok(())
}
