//! One map, worked out by hand, and each public call once.
use crate::{Extents, Run};
use std::alloc::{AllocError, Global};
use std::test::Fail;

const PAIR: Run = Run {
    first: 3,
    count: 2,
    place: 10,
};

const LAST: Run = Run {
    first: 9,
    count: 1,
    place: 12,
};

fn three_blocks(alloc: Global) -> Result<Extents, AllocError> {
    let mut map = Extents::new(alloc);
    map.set(3, 10)?;
    map.set(4, 11)?;
    map.set(9, 12)?;
    Ok(map)
}

#[test]
fn neighbours_are_one_run(rt: HostRuntime) -> Result<(), Fail> {
    let map = three_blocks(rt.alloc())?;
    assert_eq!(rt; map.runs(), [PAIR, LAST].as_slice());
    assert_eq!(rt; map.len(), 3);
    assert_eq!(rt; (map.get(4), map.get(5)), (Some(11), None));
    assert_eq!(rt; map.next_gap(3, 20), Some(5));
    assert_eq!(rt; map.next_gap(3, 5), None);
    assert_eq!(rt; map.next_mapped(5, 20), Some(9));
    Ok(())
}

#[test]
fn a_cut_leaves_the_front_of_a_run(rt: HostRuntime) -> Result<(), Fail> {
    let mut map = three_blocks(rt.alloc())?;
    map.clear_from(4)?;
    let front = Run {
        first: 3,
        count: 1,
        place: 10,
    };
    assert_eq!(rt; map.runs(), [front].as_slice());
    Ok(())
}

#[test]
fn a_block_in_the_middle_parts_a_run_and_joins_it_again(rt: HostRuntime) -> Result<(), Fail> {
    let mut map = three_blocks(rt.alloc())?;
    map.set(5, 12)?;
    map.clear(4)?;
    assert_eq!(rt; map.runs().len(), 3);
    map.set(4, 30)?;
    assert_eq!(rt; map.next_gap(3, 20), Some(6));
    map.set(4, 11)?;
    map.clear_from(6)?;
    let whole = map.copy(rt.alloc())?;
    assert_eq!(rt; whole.runs(), [Run { count: 3, ..PAIR }].as_slice());
    Ok(())
}

#[test]
fn stretches_are_mapped_and_cleared(rt: HostRuntime) -> Result<(), Fail> {
    let mut map = three_blocks(rt.alloc())?;
    map.set_run(Run {
        first: 4,
        count: 6,
        place: 20,
    })?;
    assert_eq!(rt;
        (map.get(3), map.get(4), map.get(9)),
        (Some(10), Some(20), Some(25))
    );
    assert_eq!(rt; (map.runs().len(), map.len()), (2, 7));
    map.clear_run(5, 3)?;
    assert_eq!(rt;
        (map.get(4), map.get(7), map.get(8)),
        (Some(20), None, Some(24))
    );
    assert_eq!(rt; (map.runs().len(), map.len()), (3, 4));
    map.clear_from(9)?;
    assert_eq!(rt; map.len(), 3);
    Ok(())
}

#[test]
fn runs_make_a_map(rt: HostRuntime) -> Result<(), Fail> {
    let map = Extents::from_runs(Vec::from_slice(rt.alloc(), &[PAIR, LAST])?);
    assert_eq!(rt; map.runs(), [PAIR, LAST].as_slice());
    assert_eq!(rt; map.len(), 3);
    Ok(())
}
