//! Reports with the bytes of their messages, through the top call.

use crate::reports::PLAIN;
use crate::top_call::{printed, text_of};
use crate::worked_schedules::TWICE;
use std::alloc::{AllocError, Global};
use std::test::Fail;

/// The tenth message of a commit, the bytes of its post (the head, and then the envelope), and what follows.
const PREPARE: &str = "\
msg 10 2>3 Prepare /p/d/1-1\n\
bytes \
504f5354202f702f642f312d3120485454502f312e310d0a486f73743a206e332e6578616d706c650d0a436f6e74656e742d547970653a\
20746578742f786d6c3b20636861727365743d7574662d380d0a534f4150416374696f6e3a2022687474703a2f2f646f63732e6f617369\
732d6f70656e2e6f72672f77732d74782f777361742f323030362f30362f50726570617265220d0a436f6e74656e742d4c656e6774683a\
203532380d0a436f6e6e656374696f6e3a20636c6f73650d0a0d0a\
3c733a456e76656c6f706520786d6c6e733a733d22687474703a2f2f736368656d61732e786d6c736f61702e6f72672f736f61702f656e76\
656c6f70652f2220786d6c6e733a7773613d22687474703a2f2f7777772e77332e6f72672f323030352f30382f61646472657373696e6722\
20786d6c6e733a777361743d22687474703a2f2f646f63732e6f617369732d6f70656e2e6f72672f77732d74782f777361742f323030362f\
3036223e3c733a4865616465723e3c7773613a546f3e687474703a2f2f6e332e6578616d706c652f702f642f312d313c2f7773613a546f3e\
3c7773613a416374696f6e3e687474703a2f2f646f63732e6f617369732d6f70656e2e6f72672f77732d74782f777361742f323030362f30\
362f507265706172653c2f7773613a416374696f6e3e3c7773613a46726f6d3e3c7773613a416464726573733e687474703a2f2f6e322e65\
78616d706c652f632f642f312d312f313c2f7773613a416464726573733e3c2f7773613a46726f6d3e3c7773613a5265706c79546f3e3c77\
73613a416464726573733e687474703a2f2f7777772e77332e6f72672f323030352f30382f61646472657373696e672f6e6f6e653c2f7773\
613a416464726573733e3c2f7773613a5265706c79546f3e3c2f733a4865616465723e3c733a426f64793e3c777361743a50726570617265\
2f3e3c2f733a426f64793e3c2f733a456e76656c6f70653e\n\
deliver 10 3 202\n\
msg 11 3>2 Prepared /c/d/1-1/1\n\
bytes 504f5354202f632f642f312d312f3120\
";

/// How many lines of a text begin so.
fn count(text: &str, start: &str) -> u32 {
    let mut found = 0u32;
    for line in text.split('\n') {
        if line.starts_with(start) {
            found = found.saturating_add(1);
        }
    }
    found
}

/// How many messages a report has, and how many posts, and whether that of the tenth is as it should be.
fn bytes_in(text: &str) -> (u32, u32, bool) {
    (
        count(text, "msg "),
        count(text, "bytes 504f5354202f"),
        text.contains(PREPARE),
    )
}

fn with_bytes(alloc: Global) -> Result<(u32, u32, bool), AllocError> {
    let report = printed(alloc, "replay --bytes", PLAIN.as_bytes())?;
    Ok(bytes_in(text_of(report.as_slice())))
}

// Behind the line of each message stands one with its post.
#[test]
fn bytes_of_messages(rt: HostRuntime) -> Result<(), Fail> {
    let found = with_bytes(rt.alloc())?;
    assert!(rt; found == (14, 14, true), "{found:?}");
    Ok(())
}

/// The bytes behind the first line that begins so.
fn bytes_behind<'a>(text: &'a str, start: &str) -> &'a str {
    let Some((_, rest)) = text.split_once(start) else {
        return "";
    };
    let Some((_, rest)) = rest.split_once("\nbytes ") else {
        return "";
    };
    match rest.split_once('\n') {
        Some((bytes, _)) => bytes,
        None => "",
    }
}

/// Whether both answers to a Register that came twice have the same bytes.
fn answers_alike(alloc: Global) -> Result<bool, AllocError> {
    let report = printed(alloc, "replay --bytes", TWICE.as_bytes())?;
    let text = text_of(report.as_slice());
    let answer = bytes_behind(text, "\nmsg 7 ");
    Ok(!answer.is_empty() && answer == bytes_behind(text, "\nmsg 8 "))
}

#[test]
fn a_register_is_answered_alike(rt: HostRuntime) -> Result<(), Fail> {
    let right = answers_alike(rt.alloc())?;
    assert!(rt; right);
    Ok(())
}
