//! Tests of command lines.

use command_line::{Invocation, parse};
use std::test::*;

/// Words, and the invocation that they mean.
const VALID: [(&[&str], Invocation<'static>); 7] = [
    (
        &["goodlockd", "serve", "127.0.0.1:0"],
        Invocation::Serve {
            address: "127.0.0.1:0",
            workers: 1,
            sessions: 0,
            limit: 1_048_576,
            idle: 0,
            stop_at_eof: false,
            log: false,
        },
    ),
    (
        &[
            "goodlockd",
            "serve",
            "[::1]:9",
            "--workers",
            "16",
            "--sessions",
            "1000000",
            "--limit",
            "1",
            "--idle",
            "86400",
            "--stop-at-eof",
            "--log",
        ],
        Invocation::Serve {
            address: "[::1]:9",
            workers: 16,
            sessions: 1_000_000,
            limit: 1,
            idle: 86_400,
            stop_at_eof: true,
            log: true,
        },
    ),
    (
        &["goodlockd", "script", "events"],
        Invocation::Script {
            file: "events",
            limit: 1_048_576,
        },
    ),
    (
        &["goodlockd", "script", "events", "--limit", "3"],
        Invocation::Script {
            file: "events",
            limit: 3,
        },
    ),
    (
        &["goodlockd", "offline", "events", "--bound", "8"],
        Invocation::Offline {
            file: "events",
            bound: 8,
        },
    ),
    (
        &["goodlockd", "offline", "--bound=8", "events"],
        Invocation::Offline {
            file: "events",
            bound: 8,
        },
    ),
    (
        &["goodlockd", "replay", "events", "order"],
        Invocation::Replay {
            trace: "events",
            witness: "order",
        },
    ),
];

#[test]
fn valid_command_lines(rt: HostRuntime) -> Result<(), Fail> {
    for (words, wanted) in VALID {
        assert_eq!(rt; parse(rt.alloc(), words).ok(), Some(wanted), "{words:?}");
    }
    Ok(())
}
