//! Some 130 places, worked out by hand, and each public call once.
use crate::{Places, Stretch};
use std::alloc::{AllocError, Global};
use std::test::Fail;

// The committed table maps 60 to 69, and the current one 64 to 129.
fn over_three_words(alloc: Global) -> Result<Places, AllocError> {
    let mut places = Places::new(alloc, 130)?;
    places.take(60, 10);
    places.commit();
    places.free(60, 4);
    places.take(64, 66);
    Ok(places)
}

#[test]
fn at_first_each_place_is_spare(rt: HostRuntime) -> Result<(), Fail> {
    let places = Places::new(rt.alloc(), 130)?;
    assert_eq!(rt;
        (places.len(), places.used(), places.spare()),
        (130, 0, 130)
    );
    let all = Stretch {
        start: 0,
        count: 130,
    };
    assert_eq!(rt; places.next_spare(0, 200), Some(all));
    assert_eq!(rt; places.next_spare(130, 1), None);
    Ok(())
}

#[test]
fn a_freed_place_is_spare_behind_the_commit(rt: HostRuntime) -> Result<(), Fail> {
    let mut places = over_three_words(rt.alloc())?;
    assert_eq!(rt; (places.used(), places.spare()), (66, 60));
    assert_eq!(rt; (places.is_used(63), places.is_spare(63)), (false, false));
    assert_eq!(rt; places.next_spare(60, 1), None);
    places.commit();
    assert_eq!(rt; (places.used(), places.spare()), (66, 64));
    assert_eq!(rt; (places.is_used(63), places.is_spare(63)), (false, true));
    let freed = Stretch {
        start: 60,
        count: 4,
    };
    assert_eq!(rt; places.next_spare(60, 100), Some(freed));
    Ok(())
}

#[test]
fn a_stretch_goes_over_the_end_of_a_word(rt: HostRuntime) -> Result<(), Fail> {
    let mut places = over_three_words(rt.alloc())?;
    assert_eq!(rt; places.len(), 130);
    places.free(70, 60);
    assert_eq!(rt; places.len(), 130);
    places.take(100, 1);
    assert_eq!(rt; places.len(), 130);
    assert_eq!(rt; (places.is_used(100), places.spare()), (true, 119));
    let first = Stretch {
        start: 70,
        count: 30,
    };
    let rest = Stretch {
        start: 101,
        count: 29,
    };
    let few = Stretch {
        start: 120,
        count: 9,
    };
    assert_eq!(rt; places.next_spare(60, 100), Some(first));
    assert_eq!(rt; places.next_spare(100, 100), Some(rest));
    assert_eq!(rt; places.next_spare(120, 9), Some(few));
    Ok(())
}
