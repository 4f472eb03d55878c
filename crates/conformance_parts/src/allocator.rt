//! The allocator of these tests: which growth is refused, and that the others come through.

use refusing::Refusing;
use std::alloc::{AllocError, Allocator};
use std::test::Fail;

// Three growths: a box, and two of a list.
fn grow_three_times<A: Allocator + Copy>(alloc: A) -> Result<u32, AllocError> {
    let one = Box::new(alloc, 7u32)?;
    let mut some = Vec::with_capacity(alloc, 1)?;
    some.push(*one)?;
    some.push(8)?;
    Ok(some.len() as u32)
}

#[test]
fn the_named_growth_is_refused(rt: HostRuntime) {
    for (n, works, count) in [
        (1, false, 1),
        (2, false, 2),
        (3, false, 3),
        (4, true, 3),
        (0, true, 3),
    ] {
        let alloc = Refusing::new(rt.alloc(), n);
        let came = grow_three_times(&alloc).is_ok();
        assert!(rt;
            came == works && alloc.refused() != works && alloc.count() == count,
            "growth {n}"
        );
    }
}

#[test]
fn a_refused_growth_loses_nothing(rt: HostRuntime) -> Result<(), Fail> {
    let alloc = Refusing::new(rt.alloc(), 2);
    let mut some = Vec::with_capacity(&alloc, 1)?;
    some.push(7u32)?;
    assert!(rt; some.push(8).is_err());
    assert!(rt; matches!(some.as_slice(), [7]));
    some.push(9)?;
    assert!(rt; matches!(some.as_slice(), [7, 9]));
    Ok(())
}

fn to_another_thread<T: Drop + Send>(_shared: T) {}

#[test]
fn threads_may_share_it(rt: HostRuntime) {
    let alloc = Refusing::new(rt.alloc(), 0);
    to_another_thread(&alloc);
}
