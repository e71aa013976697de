//! Whole runs of up to five nodes, written out by hand.

use crate::net::run;
use std::alloc::{AllocError, Global};
use std::test::Fail;

/// One durable participant commits.
const PLAIN: &str = "\
begin 1 2 60000\n\
flush\n\
work 1 1-1 3 d prepared\n\
flush\n\
commit 1 1-1\n\
flush\n\
";

const PLAIN_LOG: &str = "\
msg 1 1>2 CreateCoordinationContext /activation\n\
deliver 1 2 202\n\
msg 2 2>1 CreateCoordinationContextResponse /i/1-1\n\
deliver 2 1 202\n\
msg 3 1>2 Register /registration/1-1\n\
deliver 3 2 202\n\
msg 4 2>1 RegisterResponse /i/1-1\n\
deliver 4 1 202\n\
msg 5 1>3 Work /work\n\
deliver 5 3 202\n\
msg 6 3>2 Register /registration/1-1\n\
deliver 6 2 202\n\
msg 7 2>3 RegisterResponse /p/d/1-1\n\
deliver 7 3 202\n\
msg 8 3>1 WorkDone /i/1-1\n\
deliver 8 1 202\n\
msg 9 1>2 Commit /completion/1-1\n\
deliver 9 2 202\n\
msg 10 2>3 Prepare /p/d/1-1\n\
deliver 10 3 202\n\
record 3 LeafPrepared 1-1 http://n2.example/c/d/1-1/1\n\
msg 11 3>2 Prepared /c/d/1-1/1\n\
deliver 11 2 202\n\
record 2 Decided 1-1 1 http://n3.example/p/d/1-1\n\
root 2 1-1 committed\n\
msg 12 2>3 Commit /p/d/1-1\n\
msg 13 2>1 Committed /i/1-1\n\
deliver 12 3 202\n\
record 3 LeafCommitted 1-1\n\
leaf 3 1-1 d committed\n\
msg 14 3>2 Committed /c/d/1-1/1\n\
deliver 13 1 202\n\
told 1 1-1 committed\n\
deliver 14 2 202\n\
record 2 Ended 1-1\n\
";

/// Nobody takes part.
const ALONE: &str = "\
begin 1 2 0\n\
flush\n\
mark\n\
commit 1 1-1\n\
flush\n\
";

const ALONE_LOG: &str = "\
msg 5 1>2 Commit /completion/1-1\n\
deliver 5 2 202\n\
record 2 Decided 1-1\n\
root 2 1-1 committed\n\
msg 6 2>1 Committed /i/1-1\n\
deliver 6 1 202\n\
told 1 1-1 committed\n\
";

/// A volatile participant is prepared first.
const VOLATILE: &str = "\
begin 1 2 60000\n\
flush\n\
work 1 1-1 3 d prepared\n\
flush\n\
work 1 1-1 3 v prepared\n\
flush\n\
mark\n\
commit 1 1-1\n\
flush\n\
";

const VOLATILE_LOG: &str = "\
msg 13 1>2 Commit /completion/1-1\n\
deliver 13 2 202\n\
msg 14 2>3 Prepare /p/v/1-2\n\
deliver 14 3 202\n\
msg 15 3>2 Prepared /c/v/1-1/2\n\
deliver 15 2 202\n\
msg 16 2>3 Prepare /p/d/1-1\n\
deliver 16 3 202\n\
record 3 LeafPrepared 1-1 http://n2.example/c/d/1-1/1\n\
msg 17 3>2 Prepared /c/d/1-1/1\n\
deliver 17 2 202\n\
record 2 Decided 1-1 1 http://n3.example/p/d/1-1\n\
root 2 1-1 committed\n\
msg 18 2>3 Commit /p/d/1-1\n\
msg 19 2>3 Commit /p/v/1-2\n\
msg 20 2>1 Committed /i/1-1\n\
deliver 18 3 202\n\
record 3 LeafCommitted 1-1\n\
leaf 3 1-1 d committed\n\
msg 21 3>2 Committed /c/d/1-1/1\n\
deliver 19 3 202\n\
leaf 3 1-2 v committed\n\
msg 22 3>2 Committed /c/v/1-1/2\n\
deliver 20 1 202\n\
told 1 1-1 committed\n\
deliver 21 2 202\n\
record 2 Ended 1-1\n\
deliver 22 2 202\n\
";

/// The one participant only reads.
const READ_ONLY: &str = "\
begin 1 2 60000\n\
flush\n\
work 1 1-1 3 d readonly\n\
flush\n\
mark\n\
commit 1 1-1\n\
flush\n\
";

const READ_ONLY_LOG: &str = "\
msg 9 1>2 Commit /completion/1-1\n\
deliver 9 2 202\n\
msg 10 2>3 Prepare /p/d/1-1\n\
deliver 10 3 202\n\
msg 11 3>2 ReadOnly /c/d/1-1/1\n\
deliver 11 2 202\n\
record 2 Decided 1-1\n\
root 2 1-1 committed\n\
msg 12 2>1 Committed /i/1-1\n\
deliver 12 1 202\n\
told 1 1-1 committed\n\
";

/// One of two participants aborts.
const ABORTS: &str = "\
begin 1 2 60000\n\
flush\n\
work 1 1-1 3 d prepared\n\
flush\n\
work 1 1-1 3 d aborted\n\
flush\n\
mark\n\
commit 1 1-1\n\
flush\n\
";

const ABORTS_LOG: &str = "\
msg 13 1>2 Commit /completion/1-1\n\
deliver 13 2 202\n\
msg 14 2>3 Prepare /p/d/1-1\n\
msg 15 2>3 Prepare /p/d/1-2\n\
deliver 14 3 202\n\
record 3 LeafPrepared 1-1 http://n2.example/c/d/1-1/1\n\
msg 16 3>2 Prepared /c/d/1-1/1\n\
deliver 15 3 202\n\
leaf 3 1-2 d aborted\n\
msg 17 3>2 Aborted /c/d/1-1/2\n\
deliver 16 2 202\n\
deliver 17 2 202\n\
root 2 1-1 aborted\n\
msg 18 2>3 Rollback /p/d/1-1\n\
msg 19 2>1 Aborted /i/1-1\n\
deliver 18 3 202\n\
record 3 LeafAborted 1-1\n\
leaf 3 1-1 d aborted\n\
msg 20 3>2 Aborted /c/d/1-1/1\n\
deliver 19 1 202\n\
told 1 1-1 aborted\n\
deliver 20 2 202\n\
";

/// A Register comes when the durable participants are asked.
const LATE_REGISTER: &str = "\
begin 1 2 60000\n\
flush\n\
work 1 1-1 3 d prepared\n\
flush\n\
mark\n\
work 1 1-1 3 d prepared\n\
commit 1 1-1\n\
deliver 10\n\
deliver 9\n\
deliver 12\n\
deliver 13\n\
";

const LATE_REGISTER_LOG: &str = "\
msg 9 1>3 Work /work\n\
msg 10 1>2 Commit /completion/1-1\n\
deliver 10 2 202\n\
msg 11 2>3 Prepare /p/d/1-1\n\
deliver 9 3 202\n\
msg 12 3>2 Register /registration/1-1\n\
deliver 12 2 202\n\
msg 13 2>3 CannotRegisterParticipant /p/d/1-2\n\
deliver 13 3 202\n\
leaf 3 1-2 d aborted\n\
msg 14 3>1 WorkRefused /i/1-1\n\
";

/// A Register comes twice, which gives one seat and two equal answers.
const TWICE: &str = "\
begin 1 2 60000\n\
flush\n\
work 1 1-1 3 d prepared\n\
mark\n\
deliver 5\n\
deliver 6\n\
deliver 6\n\
same 7 8\n\
flush\n\
commit 1 1-1\n\
deliver 10\n\
";

const TWICE_LOG: &str = "\
deliver 5 3 202\n\
msg 6 3>2 Register /registration/1-1\n\
deliver 6 2 202\n\
msg 7 2>3 RegisterResponse /p/d/1-1\n\
deliver 6 2 202\n\
msg 8 2>3 RegisterResponse /p/d/1-1\n\
same 7 8\n\
deliver 7 3 202\n\
msg 9 3>1 WorkDone /i/1-1\n\
deliver 8 3 202\n\
deliver 9 1 202\n\
msg 10 1>2 Commit /completion/1-1\n\
deliver 10 2 202\n\
msg 11 2>3 Prepare /p/d/1-1\n\
";

/// A new incarnation of a participant votes no for what the old one knew.
const NEW_INCARNATION: &str = "\
begin 1 2 60000\n\
flush\n\
work 1 1-1 3 d prepared\n\
flush\n\
mark\n\
up 3 2\n\
work 1 1-1 3 d prepared\n\
flush\n\
commit 1 1-1\n\
flush\n\
";

const NEW_INCARNATION_LOG: &str = "\
leaf 3 1-1 d lost\n\
up 3 2\n\
msg 9 1>3 Work /work\n\
deliver 9 3 202\n\
msg 10 3>2 Register /registration/1-1\n\
deliver 10 2 202\n\
msg 11 2>3 RegisterResponse /p/d/2-1\n\
deliver 11 3 202\n\
msg 12 3>1 WorkDone /i/1-1\n\
deliver 12 1 202\n\
msg 13 1>2 Commit /completion/1-1\n\
deliver 13 2 202\n\
msg 14 2>3 Prepare /p/d/1-1\n\
msg 15 2>3 Prepare /p/d/2-1\n\
deliver 14 3 202\n\
msg 16 3>2 Aborted /c/d/1-1/1\n\
deliver 15 3 202\n\
record 3 LeafPrepared 2-1 http://n2.example/c/d/1-1/2\n\
msg 17 3>2 Prepared /c/d/1-1/2\n\
deliver 16 2 202\n\
root 2 1-1 aborted\n\
msg 18 2>3 Rollback /p/d/2-1\n\
msg 19 2>1 Aborted /i/1-1\n\
deliver 17 2 202\n\
msg 20 2>3 Rollback /p/d/2-1\n\
deliver 18 3 202\n\
record 3 LeafAborted 2-1\n\
leaf 3 2-1 d aborted\n\
msg 21 3>2 Aborted /c/d/1-1/2\n\
deliver 19 1 202\n\
told 1 1-1 aborted\n\
deliver 20 3 202\n\
msg 22 3>2 Aborted /c/d/1-1/2\n\
deliver 21 2 202\n\
deliver 22 2 202\n\
";

/// A Prepare comes once more, behind the decision.
const LATE_PREPARE: &str = "\
begin 1 2 60000\n\
flush\n\
work 1 1-1 3 d prepared\n\
flush\n\
commit 1 1-1\n\
deliver 9\n\
deliver 10\n\
deliver 11\n\
deliver 12\n\
mark\n\
deliver 10\n\
deliver 15\n\
tick 2 5000\n\
deliver 17\n\
deliver 18\n\
";

const LATE_PREPARE_LOG: &str = "\
deliver 10 3 202\n\
msg 15 3>2 Aborted /c/d/1-1/1\n\
deliver 15 2 202\n\
msg 16 2>3 InvalidState /p/d/1-1\n\
tick 2 5000\n\
msg 17 2>3 Commit /p/d/1-1\n\
deliver 17 3 202\n\
msg 18 3>2 Committed /c/d/1-1/1\n\
deliver 18 2 202\n\
record 2 Ended 1-1\n\
";

/// The decision isn't recorded, and so nobody was told of it: it aborts.
const UNRECORDED: &str = "\
begin 1 2 60000\n\
flush\n\
work 1 1-1 3 d prepared\n\
flush\n\
commit 1 1-1\n\
deliver 9\n\
deliver 10\n\
fail\n\
mark\n\
flush\n\
";

const UNRECORDED_LOG: &str = "\
deliver 11 2 202\n\
absent 2 Decided 1-1 1 http://n3.example/p/d/1-1\n\
root 2 1-1 aborted\n\
msg 12 2>3 Rollback /p/d/1-1\n\
msg 13 2>1 Aborted /i/1-1\n\
deliver 12 3 202\n\
record 3 LeafAborted 1-1\n\
leaf 3 1-1 d aborted\n\
msg 14 3>2 Aborted /c/d/1-1/1\n\
deliver 13 1 202\n\
told 1 1-1 aborted\n\
deliver 14 2 202\n\
";

/// A subordinate below the root.
const SUBORDINATE: &str = "\
begin 1 2 0\n\
flush\n\
mark\n\
interpose 1 1-1 3\n\
flush\n\
work 1 1-2 4 d prepared\n\
flush\n\
commit 1 1-1\n\
flush\n\
";

const SUBORDINATE_LOG: &str = "\
msg 5 1>3 CreateCoordinationContext /activation\n\
deliver 5 3 202\n\
msg 6 3>2 Register /registration/1-1\n\
msg 7 3>2 Register /registration/1-1\n\
deliver 6 2 202\n\
msg 8 2>3 RegisterResponse /p/v/1-1\n\
deliver 7 2 202\n\
msg 9 2>3 RegisterResponse /p/d/1-1\n\
deliver 8 3 202\n\
deliver 9 3 202\n\
msg 10 3>1 CreateCoordinationContextResponse /i/1-2\n\
deliver 10 1 202\n\
msg 11 1>4 Work /work\n\
deliver 11 4 202\n\
msg 12 4>3 Register /registration/1-1\n\
deliver 12 3 202\n\
msg 13 3>4 RegisterResponse /p/d/1-1\n\
deliver 13 4 202\n\
msg 14 4>1 WorkDone /i/1-2\n\
deliver 14 1 202\n\
msg 15 1>2 Commit /completion/1-1\n\
deliver 15 2 202\n\
msg 16 2>3 Prepare /p/v/1-1\n\
deliver 16 3 202\n\
msg 17 3>2 ReadOnly /c/v/1-1/1\n\
deliver 17 2 202\n\
msg 18 2>3 Prepare /p/d/1-1\n\
deliver 18 3 202\n\
msg 19 3>4 Prepare /p/d/1-1\n\
deliver 19 4 202\n\
record 4 LeafPrepared 1-1 http://n3.example/c/d/1-1/1\n\
msg 20 4>3 Prepared /c/d/1-1/1\n\
deliver 20 3 202\n\
record 3 Voted 1-1 http://n2.example/c/d/1-1/2 1 http://n4.example/p/d/1-1\n\
msg 21 3>2 Prepared /c/d/1-1/2\n\
deliver 21 2 202\n\
record 2 Decided 1-1 2 http://n3.example/p/d/1-1\n\
root 2 1-1 committed\n\
msg 22 2>3 Commit /p/d/1-1\n\
msg 23 2>1 Committed /i/1-1\n\
deliver 22 3 202\n\
record 3 SubCommitted 1-1\n\
sub 3 1-1 committed\n\
msg 24 3>4 Commit /p/d/1-1\n\
deliver 23 1 202\n\
told 1 1-1 committed\n\
deliver 24 4 202\n\
record 4 LeafCommitted 1-1\n\
leaf 4 1-1 d committed\n\
msg 25 4>3 Committed /c/d/1-1/1\n\
deliver 25 3 202\n\
record 3 Ended 1-1\n\
msg 26 3>2 Committed /c/d/1-1/2\n\
deliver 26 2 202\n\
record 2 Ended 1-1\n\
";

/// A subordinate below a subordinate below the root.
const TWO_BELOW: &str = "\
begin 1 2 0\n\
flush\n\
interpose 1 1-1 3\n\
flush\n\
mark\n\
interpose 1 1-2 4\n\
flush\n\
work 1 1-3 5 d prepared\n\
flush\n\
commit 1 1-1\n\
flush\n\
";

const TWO_BELOW_LOG: &str = "\
msg 11 1>4 CreateCoordinationContext /activation\n\
deliver 11 4 202\n\
msg 12 4>3 Register /registration/1-1\n\
msg 13 4>3 Register /registration/1-1\n\
deliver 12 3 202\n\
msg 14 3>4 RegisterResponse /p/v/1-1\n\
deliver 13 3 202\n\
msg 15 3>4 RegisterResponse /p/d/1-1\n\
deliver 14 4 202\n\
deliver 15 4 202\n\
msg 16 4>1 CreateCoordinationContextResponse /i/1-3\n\
deliver 16 1 202\n\
msg 17 1>5 Work /work\n\
deliver 17 5 202\n\
msg 18 5>4 Register /registration/1-1\n\
deliver 18 4 202\n\
msg 19 4>5 RegisterResponse /p/d/1-1\n\
deliver 19 5 202\n\
msg 20 5>1 WorkDone /i/1-3\n\
deliver 20 1 202\n\
msg 21 1>2 Commit /completion/1-1\n\
deliver 21 2 202\n\
msg 22 2>3 Prepare /p/v/1-1\n\
deliver 22 3 202\n\
msg 23 3>4 Prepare /p/v/1-1\n\
deliver 23 4 202\n\
msg 24 4>3 ReadOnly /c/v/1-1/1\n\
deliver 24 3 202\n\
msg 25 3>2 ReadOnly /c/v/1-1/1\n\
deliver 25 2 202\n\
msg 26 2>3 Prepare /p/d/1-1\n\
deliver 26 3 202\n\
msg 27 3>4 Prepare /p/d/1-1\n\
deliver 27 4 202\n\
msg 28 4>5 Prepare /p/d/1-1\n\
deliver 28 5 202\n\
record 5 LeafPrepared 1-1 http://n4.example/c/d/1-1/1\n\
msg 29 5>4 Prepared /c/d/1-1/1\n\
deliver 29 4 202\n\
record 4 Voted 1-1 http://n3.example/c/d/1-1/2 1 http://n5.example/p/d/1-1\n\
msg 30 4>3 Prepared /c/d/1-1/2\n\
deliver 30 3 202\n\
record 3 Voted 1-1 http://n2.example/c/d/1-1/2 2 http://n4.example/p/d/1-1\n\
msg 31 3>2 Prepared /c/d/1-1/2\n\
deliver 31 2 202\n\
record 2 Decided 1-1 2 http://n3.example/p/d/1-1\n\
root 2 1-1 committed\n\
msg 32 2>3 Commit /p/d/1-1\n\
msg 33 2>1 Committed /i/1-1\n\
deliver 32 3 202\n\
record 3 SubCommitted 1-1\n\
sub 3 1-1 committed\n\
msg 34 3>4 Commit /p/d/1-1\n\
deliver 33 1 202\n\
told 1 1-1 committed\n\
deliver 34 4 202\n\
record 4 SubCommitted 1-1\n\
sub 4 1-1 committed\n\
msg 35 4>5 Commit /p/d/1-1\n\
deliver 35 5 202\n\
record 5 LeafCommitted 1-1\n\
leaf 5 1-1 d committed\n\
msg 36 5>4 Committed /c/d/1-1/1\n\
deliver 36 4 202\n\
record 4 Ended 1-1\n\
msg 37 4>3 Committed /c/d/1-1/2\n\
deliver 37 3 202\n\
record 3 Ended 1-1\n\
msg 38 3>2 Committed /c/d/1-1/2\n\
deliver 38 2 202\n\
record 2 Ended 1-1\n\
";

/// Before its decision a transaction expires, also where it waits for votes.
const EXPIRES: &str = "\
begin 1 2 60000\n\
flush\n\
work 1 1-1 3 d prepared\n\
flush\n\
mark\n\
commit 1 1-1\n\
deliver 9\n\
tick 2 60000\n\
";

const EXPIRES_LOG: &str = "\
msg 9 1>2 Commit /completion/1-1\n\
deliver 9 2 202\n\
msg 10 2>3 Prepare /p/d/1-1\n\
tick 2 60000\n\
root 2 1-1 aborted\n\
msg 11 2>3 Rollback /p/d/1-1\n\
msg 12 2>1 Aborted /i/1-1\n\
";

/// Behind its decision it doesn't expire, but asks again.
const DECIDED: &str = "\
begin 1 2 60000\n\
flush\n\
work 1 1-1 3 d prepared\n\
flush\n\
commit 1 1-1\n\
deliver 9\n\
deliver 10\n\
deliver 11\n\
mark\n\
tick 2 60000\n\
";

const DECIDED_LOG: &str = "\
tick 2 60000\n\
msg 14 2>3 Commit /p/d/1-1\n\
";

/// The initiator asks again: before the transaction is over, and behind its end.
const TOLD_AGAIN: &str = "\
begin 1 2 60000\n\
flush\n\
work 1 1-1 3 d prepared\n\
flush\n\
commit 1 1-1\n\
deliver 9\n\
deliver 10\n\
deliver 11\n\
mark\n\
deliver 9\n\
deliver 12\n\
deliver 15\n\
deliver 9\n\
";

const TOLD_AGAIN_LOG: &str = "\
deliver 9 2 202\n\
msg 14 2>1 Committed /i/1-1\n\
deliver 12 3 202\n\
record 3 LeafCommitted 1-1\n\
leaf 3 1-1 d committed\n\
msg 15 3>2 Committed /c/d/1-1/1\n\
deliver 15 2 202\n\
record 2 Ended 1-1\n\
deliver 9 2 202\n\
msg 16 2>1 Committed /i/1-1\n\
";

/// An active transaction expires at its last millisecond, and not before.
const EXPIRES_ACTIVE: &str = "\
begin 1 2 60000\n\
flush\n\
work 1 1-1 3 d prepared\n\
flush\n\
mark\n\
tick 2 59999\n\
tick 2 1\n\
flush\n\
";

const EXPIRES_ACTIVE_LOG: &str = "\
tick 2 59999\n\
tick 2 1\n\
root 2 1-1 aborted\n\
msg 9 2>3 Rollback /p/d/1-1\n\
msg 10 2>1 Aborted /i/1-1\n\
deliver 9 3 202\n\
leaf 3 1-1 d aborted\n\
msg 11 3>2 Aborted /c/d/1-1/1\n\
deliver 10 1 202\n\
told 1 1-1 aborted\n\
deliver 11 2 202\n\
";

/// An active leaf expires, and its transaction aborts.
const LEAF_EXPIRES: &str = "\
begin 1 2 60000\n\
flush\n\
work 1 1-1 3 d prepared\n\
flush\n\
mark\n\
tick 3 59999\n\
tick 3 1\n\
flush\n\
";

const LEAF_EXPIRES_LOG: &str = "\
tick 3 59999\n\
tick 3 1\n\
leaf 3 1-1 d aborted\n\
msg 9 3>2 Aborted /c/d/1-1/1\n\
deliver 9 2 202\n\
root 2 1-1 aborted\n\
msg 10 2>1 Aborted /i/1-1\n\
deliver 10 1 202\n\
told 1 1-1 aborted\n\
";

/// A leaf that waits for its registration expires, and refuses its work.
const UNREGISTERED_EXPIRES: &str = "\
begin 1 2 60000\n\
flush\n\
work 1 1-1 3 d prepared\n\
mark\n\
deliver 5\n\
tick 3 60000\n\
deliver 7\n\
";

const UNREGISTERED_EXPIRES_LOG: &str = "\
deliver 5 3 202\n\
msg 6 3>2 Register /registration/1-1\n\
tick 3 60000\n\
leaf 3 1-1 d aborted\n\
msg 7 3>1 WorkRefused /i/1-1\n\
deliver 7 1 202\n\
";

/// An activity that was begun and isn't active yet is told that the outcome is unknown.
const ACTIVITY_EXPIRES: &str = "\
begin 1 2 60000\n\
tick 1 59999\n\
tick 1 1\n\
flush\n\
";

const ACTIVITY_EXPIRES_LOG: &str = "\
msg 1 1>2 CreateCoordinationContext /activation\n\
tick 1 59999\n\
tick 1 1\n\
told 1 1-1 unknown\n\
deliver 1 2 202\n\
msg 2 2>1 CreateCoordinationContextResponse /i/1-1\n\
deliver 2 1 202\n\
";

/// An activity is rolled back, and asked once more.
const ROLLS_BACK: &str = "\
begin 1 2 0\n\
flush\n\
mark\n\
rollback 1 1-1\n\
commit 1 1-1\n\
flush\n\
";

const ROLLS_BACK_LOG: &str = "\
msg 5 1>2 Rollback /completion/1-1\n\
refused 1 stale\n\
deliver 5 2 202\n\
root 2 1-1 aborted\n\
msg 6 2>1 Aborted /i/1-1\n\
deliver 6 1 202\n\
told 1 1-1 aborted\n\
";

/// What each node holds: two activities at the first; the root's completion seat and the subordinate's two seats; the
/// subordinate's two links and its participant's seat; that participant; and nothing.
const HELD: &str = "\
begin 1 2 0\n\
flush\n\
interpose 1 1-1 3\n\
flush\n\
work 1 1-2 4 d prepared\n\
flush\n\
mark\n\
held 1\n\
held 2\n\
held 3\n\
held 4\n\
held 5\n\
";

const HELD_LOG: &str = "\
held 1 2\n\
held 2 3\n\
held 3 3\n\
held 4 1\n\
held 5 0\n\
";

/// Each run, and what it is to say.
const RUNS: &[(&str, &str)] = &[
    (PLAIN, PLAIN_LOG),
    (ALONE, ALONE_LOG),
    (VOLATILE, VOLATILE_LOG),
    (READ_ONLY, READ_ONLY_LOG),
    (ABORTS, ABORTS_LOG),
    (LATE_REGISTER, LATE_REGISTER_LOG),
    (TWICE, TWICE_LOG),
    (NEW_INCARNATION, NEW_INCARNATION_LOG),
    (LATE_PREPARE, LATE_PREPARE_LOG),
    (UNRECORDED, UNRECORDED_LOG),
    (SUBORDINATE, SUBORDINATE_LOG),
    (TWO_BELOW, TWO_BELOW_LOG),
    (EXPIRES, EXPIRES_LOG),
    (DECIDED, DECIDED_LOG),
    (TOLD_AGAIN, TOLD_AGAIN_LOG),
    (EXPIRES_ACTIVE, EXPIRES_ACTIVE_LOG),
    (LEAF_EXPIRES, LEAF_EXPIRES_LOG),
    (UNREGISTERED_EXPIRES, UNREGISTERED_EXPIRES_LOG),
    (ACTIVITY_EXPIRES, ACTIVITY_EXPIRES_LOG),
    (ROLLS_BACK, ROLLS_BACK_LOG),
    (HELD, HELD_LOG),
];

fn push_wrong(
    alloc: Global,
    wrong: &mut String,
    script: &str,
    wanted: &str,
) -> Result<(), AllocError> {
    let log = run(alloc, script)?;
    if log.as_str() == wanted {
        return Ok(());
    }
    wrong.push_str(log.as_str())
}

/// What the runs say that don't say what they are to say.
fn wrong_runs(alloc: Global, runs: &[(&str, &str)]) -> Result<String, AllocError> {
    let mut wrong = String::new(alloc);
    for (script, wanted) in runs {
        push_wrong(alloc, &mut wrong, script, wanted)?;
    }
    Ok(wrong)
}

#[test]
fn each_run(rt: HostRuntime) -> Result<(), Fail> {
    let wrong = wrong_runs(rt.alloc(), RUNS)?;
    assert_eq!(rt; wrong.as_str(), "");
    Ok(())
}
