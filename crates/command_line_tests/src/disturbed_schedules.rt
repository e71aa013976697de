//! Schedules with crashes, bytes that are refused, and device calls that fail, through the top call.

use crate::worked_schedules::{NESTED, NESTED_REPORT, WORKED, WORKED_REPORT, reports};
use std::test::Fail;

/// Crashes, and what is refused: a command, a schedule and its report in two parts each.
const CRASHES: &[(&str, &str, &str, &str, &str)] = &[
    // Who is down refuses requests, and a second crash or start changes nothing.
    (
        "replay",
        WORKED,
        WORKED_REPORT,
        "crash 3\ncrash 3\ndeliver 5\ncommit 3 1-1\ntick 3 7\nup 3\nup 3\n",
        "\
down 3\n\
leaf 3 1-1 d lost\n\
down 3 already\n\
deliver 5 3 down\n\
refused down\n\
tick 3 0 down\n\
up 3 2\n\
up 3 already\n\
end messages 8 committed 0 aborted 0 lost 1\n\
",
    ),
    // A subordinate crashes behind its vote, and comes up prepared.
    (
        "replay",
        NESTED,
        NESTED_REPORT,
        "deliver 15\ndeliver 16\ndeliver 17\ndeliver 18\ndeliver 19\ndeliver 20\ncrash 3\nup 3\nflush 99\n",
        "\
deliver 15 2 202\n\
msg 16 2>3 Prepare /p/v/1-1\n\
deliver 16 3 202\n\
msg 17 3>2 ReadOnly /c/v/1-1/1\n\
deliver 17 2 202\n\
msg 18 2>3 Prepare /p/d/1-1\n\
deliver 18 3 202\n\
msg 19 3>4 Prepare /p/d/1-1\n\
deliver 19 4 202\n\
msg 20 4>3 Prepared /c/d/1-1/1\n\
deliver 20 3 202\n\
msg 21 3>2 Prepared /c/d/1-1/2\n\
down 3\n\
up 3 2\n\
deliver 21 2 202\n\
root 2 1-1 committed\n\
msg 22 2>3 Commit /p/d/1-1\n\
msg 23 2>1 Committed /i/1-1\n\
deliver 22 3 202\n\
sub 3 1-1 committed\n\
msg 24 3>4 Commit /p/d/1-1\n\
deliver 23 1 202\n\
told 1 1-1 committed\n\
deliver 24 4 202\n\
leaf 4 1-1 d committed\n\
msg 25 4>3 Committed /c/d/1-1/1\n\
deliver 25 3 202\n\
msg 26 3>2 Committed /c/d/1-1/2\n\
deliver 26 2 202\n\
end messages 26 committed 2 aborted 0 lost 0\n\
",
    ),
    // A coordinator crashes behind its decision, which its journal keeps: it comes up and tells it.
    (
        "replay",
        WORKED,
        WORKED_REPORT,
        "commit 1 1-1\ndeliver 9\ndeliver 10\ndeliver 11\ncrash 2\nup 2\ntick 2 0\ndeliver 14\n",
        "\
msg 9 1>2 Commit /completion/1-1\n\
deliver 9 2 202\n\
msg 10 2>3 Prepare /p/d/1-1\n\
deliver 10 3 202\n\
msg 11 3>2 Prepared /c/d/1-1/1\n\
deliver 11 2 202\n\
root 2 1-1 committed\n\
msg 12 2>3 Commit /p/d/1-1\n\
msg 13 2>1 Committed /i/1-1\n\
down 2\n\
up 2 2\n\
tick 2 0 202\n\
msg 14 2>3 Commit /p/d/1-1\n\
deliver 14 3 202\n\
leaf 3 1-1 d committed\n\
msg 15 3>2 Committed /c/d/1-1/1\n\
end messages 15 committed 1 aborted 0 lost 0\n\
",
    ),
    // Bytes that are refused; `/tick` isn't handed over.
    (
        "replay",
        "",
        "",
        "\
nodes 1\n\
inject 1 00\n\
inject 1 \n\
inject 1 504f5354202f776f726b20485454502f312e310d0a486f73743a206e312e6578616d706c650d0a436f6e74656e742d4c656e6774683a20330d0a0d0a3c613e\n\
inject 1 474554202f20485454502f312e310d0a486f73743a20610d0a0d0a\n\
inject 1 504F5354202F20485454502F312E310D0A486F73743A20610D0A0D0A\n\
inject 1 504f5354202f20485454502f312e310d0a486f73743a20610d0a436f6e74656e742d4c656e6774683a2036353533370d0a0d0a\n\
inject 1 504f5354202f20485454502f312e310d0a486f73743a20610d0a436f6e74656e742d456e636f64696e673a20677a69700d0a0d0a\n\
inject 1 504f5354202f7469636b20485454502f312e300d0a436f6e74656e742d4c656e6774683a20300d0a0d0a\n\
crash 1\n\
inject 1 00\n\
inject 1 504f5354202f7469636b20485454502f312e300d0a436f6e74656e742d4c656e6774683a20300d0a0d0a\n\
",
        "\
up 1 1\n\
inject 1 400\n\
inject 1 400\n\
inject 1 500\n\
inject 1 405\n\
inject 1 411\n\
inject 1 413\n\
inject 1 415\n\
inject 1 forged\n\
down 1\n\
inject 1 down\n\
inject 1 forged\n\
end messages 0 committed 0 aborted 0 lost 0\n\
",
    ),
    // What is refused, and a message that is not there until later.
    (
        "replay",
        "",
        "",
        "\
nodes 1\n\
commit 1 1-1\n\
rollback 1 1-1\n\
interpose 1 1-1 1\n\
work 1 1-1 1 v aborted\n\
deliver 1\n\
begin 1 1 0\n\
flush 0\n\
flush 1\n\
deliver 3\n\
",
        "\
up 1 1\n\
refused state\n\
refused state\n\
refused state\n\
refused state\n\
deliver 1 none\n\
msg 1 1>1 CreateCoordinationContext /activation\n\
deliver 1 1 202\n\
msg 2 1>1 CreateCoordinationContextResponse /i/1-1\n\
deliver 3 none\n\
end messages 2 committed 0 aborted 0 lost 0\n\
",
    ),
    // A participant crashes behind its vote, and nothing that was posted then was delivered. The world is brought to rest
    // behind it.
    (
        "replay --settle",
        WORKED,
        WORKED_REPORT,
        "commit 1 1-1\ndeliver 9\ndeliver 10\ndeliver 11\ncrash 3\n",
        "\
msg 9 1>2 Commit /completion/1-1\n\
deliver 9 2 202\n\
msg 10 2>3 Prepare /p/d/1-1\n\
deliver 10 3 202\n\
msg 11 3>2 Prepared /c/d/1-1/1\n\
deliver 11 2 202\n\
root 2 1-1 committed\n\
msg 12 2>3 Commit /p/d/1-1\n\
msg 13 2>1 Committed /i/1-1\n\
down 3\n\
up 3 2\n\
tick 1 5000 202\n\
msg 14 1>2 Commit /completion/1-1\n\
tick 2 5000 202\n\
msg 15 2>3 Commit /p/d/1-1\n\
tick 3 5000 202\n\
msg 16 3>2 Prepared /c/d/1-1/1\n\
deliver 14 2 202\n\
msg 17 2>1 Committed /i/1-1\n\
deliver 15 3 202\n\
leaf 3 1-1 d committed\n\
msg 18 3>2 Committed /c/d/1-1/1\n\
deliver 16 2 202\n\
msg 19 2>3 Commit /p/d/1-1\n\
deliver 17 1 202\n\
told 1 1-1 committed\n\
deliver 18 2 202\n\
deliver 19 3 202\n\
msg 20 3>2 Committed /c/d/1-1/1\n\
deliver 20 2 202\n\
tick 1 10000 202\n\
tick 2 10000 202\n\
tick 3 10000 202\n\
tick 1 15000 202\n\
tick 2 15000 202\n\
tick 3 15000 202\n\
tick 1 20000 202\n\
tick 2 20000 202\n\
tick 3 20000 202\n\
tick 1 25000 202\n\
tick 2 25000 202\n\
tick 3 25000 202\n\
tick 1 30000 202\n\
tick 2 30000 202\n\
tick 3 30000 202\n\
tick 1 35000 202\n\
tick 2 35000 202\n\
tick 3 35000 202\n\
tick 1 40000 202\n\
tick 2 40000 202\n\
tick 3 40000 202\n\
end messages 20 committed 1 aborted 0 lost 0\n\
",
    ),
];

/// Calls of a record that fail, or at which a node stops.
const FAULTS: &[(&str, &str, &str, &str, &str)] = &[
    // The participant stops at its vote's gate, and nothing of that lands.
    (
        "replay",
        WORKED,
        WORKED_REPORT,
        "commit 1 1-1\ndeliver 9\nstop 3 3 drop\ndeliver 10\nup 3\ntick 2 5000\nflush 99\n",
        "\
msg 9 1>2 Commit /completion/1-1\n\
deliver 9 2 202\n\
msg 10 2>3 Prepare /p/d/1-1\n\
deliver 10 3 stopped\n\
leaf 3 1-1 d lost\n\
up 3 2\n\
tick 2 5000 202\n\
msg 11 2>3 Prepare /p/d/1-1\n\
deliver 11 3 202\n\
msg 12 3>2 Aborted /c/d/1-1/1\n\
deliver 12 2 202\n\
root 2 1-1 aborted\n\
msg 13 2>1 Aborted /i/1-1\n\
deliver 13 1 202\n\
told 1 1-1 aborted\n\
end messages 13 committed 0 aborted 0 lost 1\n\
",
    ),
    // The gate lands.
    (
        "replay",
        WORKED,
        WORKED_REPORT,
        "commit 1 1-1\ndeliver 9\nstop 3 3 keep\ndeliver 10\nup 3\ntick 3 0\nflush 99\n",
        "\
msg 9 1>2 Commit /completion/1-1\n\
deliver 9 2 202\n\
msg 10 2>3 Prepare /p/d/1-1\n\
deliver 10 3 stopped\n\
up 3 2\n\
tick 3 0 202\n\
msg 11 3>2 Prepared /c/d/1-1/1\n\
deliver 11 2 202\n\
root 2 1-1 committed\n\
msg 12 2>3 Commit /p/d/1-1\n\
msg 13 2>1 Committed /i/1-1\n\
deliver 12 3 202\n\
leaf 3 1-1 d committed\n\
msg 14 3>2 Committed /c/d/1-1/1\n\
deliver 13 1 202\n\
told 1 1-1 committed\n\
deliver 14 2 202\n\
end messages 14 committed 1 aborted 0 lost 0\n\
",
    ),
    (
        "replay",
        WORKED,
        WORKED_REPORT,
        "commit 1 1-1\ndeliver 9\nstop 3 3 fill 1\ndeliver 10\nup 3\ntick 3 0\nflush 99\n",
        "\
msg 9 1>2 Commit /completion/1-1\n\
deliver 9 2 202\n\
msg 10 2>3 Prepare /p/d/1-1\n\
deliver 10 3 stopped\n\
up 3 2\n\
tick 3 0 202\n\
msg 11 3>2 Prepared /c/d/1-1/1\n\
deliver 11 2 202\n\
root 2 1-1 committed\n\
msg 12 2>3 Commit /p/d/1-1\n\
msg 13 2>1 Committed /i/1-1\n\
deliver 12 3 202\n\
leaf 3 1-1 d committed\n\
msg 14 3>2 Committed /c/d/1-1/1\n\
deliver 13 1 202\n\
told 1 1-1 committed\n\
deliver 14 2 202\n\
end messages 14 committed 1 aborted 0 lost 0\n\
",
    ),
    (
        "replay",
        WORKED,
        WORKED_REPORT,
        "commit 1 1-1\ndeliver 9\nstop 3 4 fill 1\ndeliver 10\nup 3\ntick 3 0\nflush 99\n",
        "\
msg 9 1>2 Commit /completion/1-1\n\
deliver 9 2 202\n\
msg 10 2>3 Prepare /p/d/1-1\n\
deliver 10 3 stopped\n\
up 3 2\n\
tick 3 0 202\n\
msg 11 3>2 Prepared /c/d/1-1/1\n\
deliver 11 2 202\n\
root 2 1-1 committed\n\
msg 12 2>3 Commit /p/d/1-1\n\
msg 13 2>1 Committed /i/1-1\n\
deliver 12 3 202\n\
leaf 3 1-1 d committed\n\
msg 14 3>2 Committed /c/d/1-1/1\n\
deliver 13 1 202\n\
told 1 1-1 committed\n\
deliver 14 2 202\n\
end messages 14 committed 1 aborted 0 lost 0\n\
",
    ),
    // The first write of the decision fails.
    (
        "replay",
        WORKED,
        WORKED_REPORT,
        "commit 1 1-1\ndeliver 9\ndeliver 10\nfail 2 1\nflush 99\n",
        "\
msg 9 1>2 Commit /completion/1-1\n\
deliver 9 2 202\n\
msg 10 2>3 Prepare /p/d/1-1\n\
deliver 10 3 202\n\
msg 11 3>2 Prepared /c/d/1-1/1\n\
deliver 11 2 202\n\
root 2 1-1 aborted\n\
msg 12 2>3 Rollback /p/d/1-1\n\
msg 13 2>1 Aborted /i/1-1\n\
deliver 12 3 202\n\
leaf 3 1-1 d aborted\n\
msg 14 3>2 Aborted /c/d/1-1/1\n\
deliver 13 1 202\n\
told 1 1-1 aborted\n\
deliver 14 2 202\n\
end messages 14 committed 0 aborted 1 lost 0\n\
",
    ),
    // The sync of its gate fails: the decision stands.
    (
        "replay",
        WORKED,
        WORKED_REPORT,
        "commit 1 1-1\ndeliver 9\ndeliver 10\nfail 2 4\ndeliver 11\nup 2\ntick 2 0\nflush 99\ntick 1 5000\nflush 99\n",
        "\
msg 9 1>2 Commit /completion/1-1\n\
deliver 9 2 202\n\
msg 10 2>3 Prepare /p/d/1-1\n\
deliver 10 3 202\n\
msg 11 3>2 Prepared /c/d/1-1/1\n\
deliver 11 2 halted\n\
root 2 1-1 committed\n\
up 2 2\n\
tick 2 0 202\n\
msg 12 2>3 Commit /p/d/1-1\n\
deliver 12 3 202\n\
leaf 3 1-1 d committed\n\
msg 13 3>2 Committed /c/d/1-1/1\n\
deliver 13 2 202\n\
tick 1 5000 202\n\
msg 14 1>2 Commit /completion/1-1\n\
deliver 14 2 202\n\
msg 15 2>1 Committed /i/1-1\n\
deliver 15 1 202\n\
told 1 1-1 committed\n\
end messages 15 committed 1 aborted 0 lost 0\n\
",
    ),
    // The write of its gate fails: it doesn't stand, and the root is lost with its book.
    (
        "replay",
        WORKED,
        WORKED_REPORT,
        "commit 1 1-1\ndeliver 9\ndeliver 10\nfail 2 3\ndeliver 11\n",
        "\
msg 9 1>2 Commit /completion/1-1\n\
deliver 9 2 202\n\
msg 10 2>3 Prepare /p/d/1-1\n\
deliver 10 3 202\n\
msg 11 3>2 Prepared /c/d/1-1/1\n\
deliver 11 2 halted\n\
root 2 1-1 lost\n\
end messages 11 committed 0 aborted 0 lost 0\n\
",
    ),
];

/// Calls that are answers, posts or a start's, and how they are counted.
const COUNTS: &[(&str, &str, &str, &str, &str)] = &[
    // The answer fails, and is printed; then a post fails, and has no number.
    (
        "replay",
        WORKED,
        WORKED_REPORT,
        "commit 1 1-1\nfail 2 1\ndeliver 9\nfail 3 6\ndeliver 10\n",
        "\
msg 9 1>2 Commit /completion/1-1\n\
deliver 9 2 202\n\
msg 10 2>3 Prepare /p/d/1-1\n\
deliver 10 3 202\n\
end messages 10 committed 0 aborted 0 lost 0\n\
",
    ),
    // Calls are counted over turns: the answer of one, the record of the next. The next fault takes the place of the one
    // that is armed.
    (
        "replay",
        WORKED,
        WORKED_REPORT,
        "commit 1 1-1\nfail 3 99\nfail 3 8\ndeliver 9\ndeliver 10\ndeliver 11\ndeliver 12\n",
        "\
msg 9 1>2 Commit /completion/1-1\n\
deliver 9 2 202\n\
msg 10 2>3 Prepare /p/d/1-1\n\
deliver 10 3 202\n\
msg 11 3>2 Prepared /c/d/1-1/1\n\
deliver 11 2 202\n\
root 2 1-1 committed\n\
msg 12 2>3 Commit /p/d/1-1\n\
msg 13 2>1 Committed /i/1-1\n\
deliver 12 3 202\n\
end messages 13 committed 0 aborted 0 lost 0\n\
",
    ),
    // The interim line that a client waits for is a call before the answer, and no step comes where the node stops at it.
    (
        "replay",
        WORKED,
        WORKED_REPORT,
        "\
commit 1 1-1\n\
stop 3 1 keep\n\
inject 3 504f5354202f776f726b20485454502f312e310d0a486f73743a20610d0a4578706563743a203130302d636f6e74696e75650d0a436f6e74656e742d4c656e6774683a20300d0a0d0a\n\
up 3\n\
fail 3 1\n\
inject 3 504f5354202f776f726b20485454502f312e310d0a486f73743a20610d0a4578706563743a203130302d636f6e74696e75650d0a436f6e74656e742d4c656e6774683a20300d0a0d0a\n\
stop 3 3 drop\n\
inject 3 504f5354202f776f726b20485454502f312e310d0a486f73743a20610d0a4578706563743a203130302d636f6e74696e75650d0a436f6e74656e742d4c656e6774683a20300d0a0d0a\n\
inject 3 00\n\
inject 3 504f5354202f776f726b20485454502f312e310d0a486f73743a20610d0a4578706563743a203130302d636f6e74696e75650d0a436f6e74656e742d4c656e6774683a20300d0a0d0a\n\
",
        "\
msg 9 1>2 Commit /completion/1-1\n\
inject 3 stopped\n\
leaf 3 1-1 d lost\n\
up 3 2\n\
inject 3 500\n\
inject 3 500\n\
inject 3 stopped\n\
inject 3 down\n\
end messages 9 committed 0 aborted 0 lost 1\n\
",
    ),
    // A crash disarms; one of a node that is down doesn't. What is armed while a node is down counts from its start: two
    // syncs of its files, and four calls for its Start. A stop that keeps its gate leaves the Start, and the next
    // incarnation is one more.
    (
        "replay",
        WORKED,
        WORKED_REPORT,
        "\
commit 1 1-1\n\
stop 3 1 keep\n\
crash 3\n\
up 3\n\
crash 3\n\
fail 3 2\n\
crash 3\n\
up 3\n\
up 3\n\
crash 3\n\
stop 3 5 keep\n\
up 3\n\
up 3\n\
crash 3\n\
stop 3 6 drop\n\
up 3\n\
up 3\n\
up 3\n\
stop 3 1 drop\n\
tick 3 0\n\
",
        "\
msg 9 1>2 Commit /completion/1-1\n\
down 3\n\
leaf 3 1-1 d lost\n\
up 3 2\n\
down 3\n\
down 3 already\n\
up 3 failed\n\
up 3 3\n\
down 3\n\
up 3 stopped\n\
up 3 5\n\
down 3\n\
up 3 stopped\n\
up 3 6\n\
up 3 already\n\
tick 3 0 stopped\n\
end messages 9 committed 0 aborted 0 lost 1\n\
",
    ),
];

#[test]
fn reports_of_crashes(rt: HostRuntime) -> Result<(), Fail> {
    for (line, begun, shown, more, rest) in CRASHES {
        let outcome = reports(rt, line, begun, shown, more, rest)?;
        assert!(rt; outcome == (0, true), "{more}");
    }
    Ok(())
}

#[test]
fn reports_of_faults(rt: HostRuntime) -> Result<(), Fail> {
    for (line, begun, shown, more, rest) in FAULTS {
        let outcome = reports(rt, line, begun, shown, more, rest)?;
        assert!(rt; outcome == (0, true), "{more}");
    }
    Ok(())
}

#[test]
fn reports_of_counted_calls(rt: HostRuntime) -> Result<(), Fail> {
    for (line, begun, shown, more, rest) in COUNTS {
        let outcome = reports(rt, line, begun, shown, more, rest)?;
        assert!(rt; outcome == (0, true), "{more}");
    }
    Ok(())
}
