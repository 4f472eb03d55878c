//! Each growth refused in turn. Those of deques are refused in `scripts`.

use crate::boards::amounts::make_amounts;
use board::Board;
use gfxspec::GfxError;
use refusing::Refusing;
use std::alloc::Allocator;
use tilecore::Core;

/// How a schedule of two tiles, one count and two workers is refused.
fn schedule_refusal<A: Allocator + Copy>(alloc: A) -> Option<GfxError> {
    Core::new(alloc, 2, 1, 2).err()
}

// The lists of tiles, of workers, of what each of the two workers added, and of the sums.
#[test]
fn schedules(rt: HostRuntime) {
    for n in 1..6u64 {
        let alloc = Refusing::new(rt.alloc(), n);
        let refused = schedule_refusal(&alloc);
        assert!(rt; refused == Some(GfxError::OutOfMemory), "growth {n}");
        assert!(rt; alloc.count() == n);
    }
    let alloc = Refusing::new(rt.alloc(), 6);
    assert!(rt; schedule_refusal(&alloc).is_none());
    assert!(rt; alloc.count() == 5);
}

/// How a board for three tiles is refused.
fn board_refusal<A: Allocator>(alloc: &A, named: bool) -> Option<GfxError> {
    let job = make_amounts(3);
    if named {
        Board::new_named(alloc, &job).err()
    } else {
        Board::new(alloc, &job).err()
    }
}

// The words and the places, each as a list and then in the table.
#[test]
fn boards(rt: HostRuntime) {
    for named in [false, true] {
        for n in 1..5u64 {
            let alloc = Refusing::new(rt.alloc(), n);
            let refused = board_refusal(&alloc, named);
            assert!(rt; refused == Some(GfxError::OutOfMemory), "growth {n}");
        }
        let alloc = Refusing::new(rt.alloc(), 5);
        assert!(rt; board_refusal(&alloc, named).is_none());
        assert!(rt; alloc.count() == 4);
    }
}
