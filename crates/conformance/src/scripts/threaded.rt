//! Sessions in threads: the same bytes as alone, and threads that meet.

ghost use Rattle.std.specs.Prelude.{◌≤◌};

use super::queries::{FOUR_TILES, FOUR_TILES_ANSWERS};
use super::refusals::STATE_LOST;
use super::rows::{LIST_INHERITS_NOTHING, SLOPED_DEPTH};
use super::*;
use test_tools::{AllAtOnce, Meeting};

/// Runs a script alone and with so many workers: the end and the bytes are the same.
fn assert_same<R: Threads + Wait + Abort + Sync>(rt: &R, alloc: Global, script: &str, workers: u32)
    requires { workers ≤ 15 }
{
    let alone = run(alloc, alloc, script);
    let threads = run_threads(rt, alloc, alloc, script, SOUND, workers, &NoGate);
    assert_same_bytes(rt, script, &threads, &alone);
}

#[test]
fn any_number_of_workers(rt: HostRuntime) {
    for script in [
        FOUR_TILES,
        LIST_INHERITS_NOTHING,
        SLOPED_DEPTH,
        STATE_LOST,
        "target 0 1\n",
        "target 1 1\ni draw\n",
    ] {
        assert_same(&rt, rt.alloc(), script, 0);
        assert_same(&rt, rt.alloc(), script, 1);
        assert_same(&rt, rt.alloc(), script, 3);
        assert_same(&rt, rt.alloc(), script, 15);
    }
}

/// Four threads take the tiles of a script's first run: none has claimed one before each has come to its first claim.
fn assert_meeting<R: Threads + Wait + Abort + Sync>(
    rt: &R,
    alloc: Global,
    script: &str,
    answers: &str,
) {
    let gate = AllAtOnce::new(4);
    let run = run_threads(rt, alloc, alloc, script, SOUND, 3, &gate);
    assert!(rt; run.end == Ok(Ended::Done), "after {script}");
    assert!(rt; run.lines.as_slice() == answers.as_bytes());
    assert!(rt; gate.all_came(), "after {script}");
}

// Each kind of line that runs tiles, in a script in which no other line finds anything to run; and the end of the script.
#[test]
fn workers_claim_together_at_each_line(rt: HostRuntime) -> Result<(), Fail> {
    for (lines, answers) in [
        ("i clearc 1 2 3 4\ni flush\n", ""),
        ("d0 clearc 1 2 3 4\nd0 finish 0\ni exec d0 0 1\n", ""),
        (
            "i begin 0\ni clearc 1 2 3 4\ni end 0\ni query 0\n",
            "query 0 0\n",
        ),
        (
            "i clearc 1 2 3 4\ni pixel 32 32\n",
            "pixel 32 32 1 2 3 4 16777215 0\n",
        ),
        ("i clearc 1 2 3 4\n", ""),
    ] {
        let script = format!(in rt.alloc(); "target 33 33\n{lines}")?;
        assert_meeting(&rt, rt.alloc(), script.as_str(), answers);
    }
    Ok(())
}

/// Holds the first submission of port 0 and the first claim of the caller until both have come.
#[derive(Drop)]
struct Overlap {
    meeting: Meeting,
}

impl Gate for Overlap {
    fn before_claim(&self, worker: u32, turn: u64) {
        if worker == 0 && turn == 0 {
            self.meeting.wait();
        }
    }

    fn after_hand_in(&self, _worker: u32, _turn: u64) {}

    fn before_submit(&self, port: u32, number: u64) {
        if port == 0 && number == 0 {
            self.meeting.wait();
        }
    }
}

const DRAWN_WHILE_RECORDED: &str = "target 1 1
d0 finish 0
i clearc 1 2 3 4
i pixel 0 0
i exec d0 0 0
";

// The caller draws while a recorder records: neither waits for the other's end.
#[test]
fn drawn_while_recorded(rt: HostRuntime) {
    let gate = Overlap {
        meeting: Meeting::new(2),
    };
    let run = run_threads(
        &rt,
        rt.alloc(),
        rt.alloc(),
        DRAWN_WHILE_RECORDED,
        SOUND,
        0,
        &gate,
    );
    assert!(rt; run.end == Ok(Ended::Done));
    assert!(rt; run.lines.as_slice() == b"pixel 0 0 1 2 3 4 16777215 0\n".as_slice());
    assert!(rt; gate.meeting.all_came());
}
