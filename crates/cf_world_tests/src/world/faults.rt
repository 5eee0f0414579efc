//! How runs end that are not done: words, sources, sinks and devices.

use super::{DEVICE, Run, command, ends, filter, replay};
use cf_base::Status;
use std::test::Fail;

const NO_COMMANDS: [&[&str]; 4] = [&[], &["filters"], &["filter", "filter"], &["--help"]];

const FIRST: &[u64] = &[1];

/// Source and sink would fail.
#[test]
fn words_that_are_no_command(rt: HostRuntime) -> Result<(), Fail> {
    for words in NO_COMMANDS {
        let run = Run {
            source_fails: FIRST,
            sink_fails: FIRST,
            ..command(words, b"flush\n")
        };
        assert!(rt; ends(rt.alloc(), &run, Status::Usage, b"")?);
    }
    Ok(())
}

const CALLS: [&[u64]; 2] = [&[1], &[2]];

#[test]
fn sources_that_fail(rt: HostRuntime) -> Result<(), Fail> {
    for source_fails in CALLS {
        for run in [replay(b"sync\n"), filter(b"flush\n")] {
            let run = Run {
                source_fails,
                ..run
            };
            assert!(rt; ends(rt.alloc(), &run, Status::SourceFault, b"")?);
        }
    }
    Ok(())
}

#[test]
fn sinks_that_fail(rt: HostRuntime) -> Result<(), Fail> {
    for run in [
        replay(b"sync\n"),
        replay(b"no event\n"),
        filter(b"flush\n"),
        filter(b"sync\n"),
    ] {
        let run = Run {
            sink_fails: FIRST,
            ..run
        };
        assert!(rt; ends(rt.alloc(), &run, Status::SinkFault, b"")?);
    }
    Ok(())
}

const BAD_LINES: [(&[u8], &[u8]); 3] = [
    (b"flush\nflsh\n", b"bad line 2\n"),
    (b"sync\n", b"bad line 1\n"),
    (b"do transfer self 0 61\n", b"bad line 1\n"),
];

#[test]
fn a_line_that_is_bad(rt: HostRuntime) -> Result<(), Fail> {
    for (script, line) in BAD_LINES {
        assert!(rt; ends(rt.alloc(), &filter(script), Status::BadScript, line)?);
    }
    Ok(())
}

/// The script is looked at before the device.
#[test]
fn devices_that_are_not_fit(rt: HostRuntime) -> Result<(), Fail> {
    for size in [0, 4096, 3_141_632, 3_145_729, 271_585_280] {
        for run in [filter(b"flush\n"), replay(b"sync\n")] {
            let run = Run { size, ..run };
            assert!(rt; ends(rt.alloc(), &run, Status::BadDevice, b"")?);
        }
        let run = Run {
            size,
            ..filter(b"flsh\n")
        };
        assert!(rt; ends(rt.alloc(), &run, Status::BadScript, b"bad line 1\n")?);
    }
    for size in [3_145_728, DEVICE] {
        let run = Run {
            size,
            ..filter(b"flush\n")
        };
        assert!(rt; ends(rt.alloc(), &run, Status::Done, b"= ok 0\n")?);
    }
    Ok(())
}

#[test]
fn devices_that_fail_at_the_start(rt: HostRuntime) -> Result<(), Fail> {
    for calls in 0..8 {
        for run in [filter(b"flush\n"), replay(b"flush\n")] {
            let run = Run {
                calls: Some(calls),
                ..run
            };
            assert!(rt; ends(rt.alloc(), &run, Status::DeviceFault, b"")?);
        }
    }
    Ok(())
}
