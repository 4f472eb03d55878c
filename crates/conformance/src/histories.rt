//! The history of a pixel over a script: a worked one, by calls of the immediate context and by a list that it executes,
//! and why there is none.

use pixelevents::NamedEvent;
use refusing::Refusing;
use sessions::{NoHistory, history};

/// Seven items, of which all but one touch pixel (1, 1): a clear, four triangles of one draw, of which the third lies
/// elsewhere and the second is hidden, and, in a list, a triangle that the stencil refuses and a clear.
const SCRIPT: &str = concat!(
    "target 8 8\n",
    "i clearc 1 2 3 4\n",
    "i topology 4\n",
    "i vb 0 0 100 10 10 10 10 524288 0 100 0 0 0 0 0 524288 100 0 0 0 0",
    " 0 0 200 20 20 20 20 524288 0 200 0 0 0 0 0 524288 200 0 0 0 0",
    " 6553600 0 50 30 30 30 30 7077888 0 50 0 0 0 0 6553600 524288 50 0 0 0 0",
    " 0 0 50 40 40 40 40 524288 0 60 0 0 0 0 0 524288 70 0 0 0 0\n",
    "i draw 12 0\n",
    "d0 topology 4\n",
    "d0 vb 0 0 100 10 10 10 10 524288 0 100 0 0 0 0 0 524288 100 0 0 0 0\n",
    "d0 ds 1 1 8 1 255 255 4 1 1 1 4 1 1 1 7\n",
    "d0 draw 3 0\n",
    "d0 cleards 5 6\n",
    "d0 finish 0\n",
    "i exec d0 0 1\n",
    "i pixel 1 1\n",
);

/// What is told of an event: its item, whether the stencil and the depth test passed, and the red, the depth and the
/// stencil that it left.
type Told = (u64, bool, bool, u8, u32, u8);

/// What an event is named by: its item and its line, and the command and the triangle of its place.
type Named = (u64, u64, u32, u32);

/// Calls that are pending, among them one that a predicate withholds, and a list that is executed twice: behind it the
/// state is lost once, and kept once.
const EXECUTED_TWICE: &str = concat!(
    "target 8 8\n",
    "i clearc 1 0 0 0\n",
    "i begin 0\n",
    "i end 0\n",
    "d0 clearc 2 0 0 0\n",
    "d0 topology 4\n",
    "d0 vb 6553600 0 0 9 9 9 9 7077888 0 0 9 9 9 9 6553600 524288 0 9 9 9 9",
    " 0 0 100 10 10 10 10 524288 0 100 0 0 0 0 0 524288 100 0 0 0 0\n",
    "d0 draw 6 0\n",
    "d0 finish 0\n",
    "i exec d0 0 0\n",
    "i clearc 3 0 0 0\n",
    "i topology 4\n",
    "i cleards 16777215 0\n",
    "d1 clearc 9 9 9 9\n",
    "i exec d0 0 1\n",
    "i predicate 0 0\n",
    "i clearc 4 0 0 0\n",
    "i predicate\n",
    "i clearc 5 0 0 0\n",
    "i pixel 1 1\n",
    "i predicate 0 1\n",
    "i cleards 9 1\n",
);

/// The names of its events at (1, 1), counted by hand.
const NAMES: [Named; 9] = [
    (0, 2, 0, 0),
    (1, 10, 0, 0),
    (3, 10, 3, 1),
    (4, 11, 0, 0),
    (5, 13, 0, 0),
    (6, 15, 0, 0),
    (8, 15, 3, 1),
    (9, 19, 0, 0),
    (10, 22, 0, 0),
];

/// The six events, worked by hand: the fourth triangle has depth 50 at (0, 0), 10 more in 8 pixels to the right and 20 more
/// in 8 downwards, so 55.625 at (1.5, 1.5).
const EVENTS: [Told; 6] = [
    (0, true, true, 1, 16_777_215, 0),
    (1, true, true, 10, 100, 0),
    (2, true, false, 10, 100, 0),
    (4, true, true, 40, 55, 0),
    (5, false, true, 40, 55, 1),
    (6, true, true, 40, 5, 6),
];

/// The names of the same six.
const WORKED_NAMES: [Named; 6] = [
    (0, 2, 0, 0),
    (1, 5, 0, 0),
    (2, 5, 0, 1),
    (4, 5, 0, 3),
    (5, 12, 3, 0),
    (6, 12, 4, 0),
];

fn told(named: &NamedEvent) -> Told {
    let event = named.event;
    let after = event.after;
    (
        event.item,
        event.stencil_passed,
        event.depth_passed,
        after.rgba[0],
        after.ds.depth,
        after.ds.stencil,
    )
}

#[test]
fn a_worked_history(rt: HostRuntime) {
    let events = match history(rt.alloc(), SCRIPT.as_bytes(), 1, 1) {
        Ok(events) => events,
        Err(_) => Vec::new(rt.alloc()),
    };
    assert!(rt; events.len() == EVENTS.len());
    for (event, expected) in events.iter().zip(&EVENTS) {
        assert!(rt; told(event) == *expected);
    }
}

fn names(named: &NamedEvent) -> Named {
    let place = named.place;
    (named.event.item, named.line, place.command, place.triangle)
}

#[test]
fn names_of_a_worked_history(rt: HostRuntime) {
    let scripts = [SCRIPT, EXECUTED_TWICE];
    let rows = [WORKED_NAMES.as_slice(), NAMES.as_slice()];
    for (script, expected) in scripts.into_iter().zip(rows) {
        let events = match history(rt.alloc(), script.as_bytes(), 1, 1) {
            Ok(events) => events,
            Err(_) => Vec::new(rt.alloc()),
        };
        assert!(rt; events.len() == expected.len());
        for (event, name) in events.iter().zip(expected) {
            assert!(rt; names(event) == *name, "{event:?}");
        }
    }
}

#[test]
fn why_there_is_none(rt: HostRuntime) {
    let refused = |line: u64, number: u32| NoHistory::Refused { line, number };
    let rows = [
        ("target 8 8\n", 8, 0, NoHistory::PixelRange),
        ("target 8 8\n", 0, 8, NoHistory::PixelRange),
        ("target 0 8\n", 0, 0, refused(1, 2)),
        ("target 8 8\ni flush 1\n", 0, 0, refused(2, 105)),
        ("target 8 8\ni flush\ni pixel 8 0\n", 0, 0, refused(3, 15)),
        ("target 8 8\ni begin 0\n", 0, 0, refused(3, 9)),
    ];
    for (script, x, y, why) in rows {
        let found = match history(rt.alloc(), script.as_bytes(), x, y) {
            Ok(_) => None,
            Err(why) => Some(why),
        };
        assert!(rt; found == Some(why), "{script}: {found:?}");
    }
}

/// How many events there are, where each growth but the nth is granted.
fn counted(alloc: &Refusing<std::alloc::Global>) -> Result<usize, NoHistory> {
    Ok(history(alloc, SCRIPT.as_bytes(), 1, 1)?.len())
}

// A growth that a run can do without, as it draws by parts then, changes nothing; any other is told as a refusal.
#[test]
fn each_growth_of_a_history_refused_in_turn(rt: HostRuntime) {
    let ample = Refusing::new(rt.alloc(), 0);
    assert!(rt; counted(&ample) == Ok(6));
    let growths = ample.count();
    assert!(rt; growths >= 4);
    for n in 1..=growths {
        let right = match counted(&Refusing::new(rt.alloc(), n)) {
            Ok(events) => events == 6,
            Err(NoHistory::Refused { line: _, number }) => number == 1,
            Err(NoHistory::PixelRange) => false,
        };
        assert!(rt; right, "growth {n}");
    }
}
