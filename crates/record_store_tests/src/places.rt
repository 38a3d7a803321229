use crate::figures::{average, number, record, used};
use record_store::{Journal, Pool, Store, StoreFault, check_places};
use std::test::Fail;

#[test]
fn a_store_has_24_to_4096_places(rt: HostRuntime) {
    for (places, refused) in [
        (0, Some(4)),
        (23, Some(4)),
        (24, None),
        (4_096, None),
        (4_097, Some(4)),
    ] {
        assert_eq!(rt; number(check_places(places)), refused);
    }
    let mut few = [used(record(9)); 23];
    assert!(rt; matches!(Pool::new(&mut few), Err(StoreFault::Places)));
    let mut enough = [used(record(9)); 24];
    assert!(rt; Pool::new(&mut enough).is_ok());
}

#[test]
fn a_store_over_too_few_places_has_no_capacity(rt: HostRuntime) {
    let mut places = [used(record(9)); 23];
    let mut pool = Pool::over(&mut places);
    assert_eq!(rt; pool.capacity(), 0);
    assert_eq!(rt; number(pool.write(0, 0, &record(1))), Some(12));
}

#[test]
fn a_store_over_too_many_places_has_no_capacity(rt: HostRuntime) -> Result<(), Fail> {
    let mut places = Vec::from_elem(rt.alloc(), used(Some(record(9))), 4_097)?;
    let journal = Journal::over(places.as_mut_slice());
    assert_eq!(rt; journal.capacity(), 0);
    let refused = Journal::new(places.as_mut_slice()).err();
    assert_eq!(rt; refused, Some(StoreFault::Places));
    let mut enough = Vec::from_elem(rt.alloc(), used(Some(record(9))), 4_096)?;
    assert!(rt; Journal::new(enough.as_mut_slice()).is_ok());
    let mut enough = Vec::from_elem(rt.alloc(), used(record(9)), 4_096)?;
    assert!(rt; Pool::new(enough.as_mut_slice()).is_ok());
    Ok(())
}

#[test]
fn a_new_store_holds_nothing(rt: HostRuntime) {
    let mut places = [used(record(9)); 24];
    let pool = Pool::over(&mut places);
    let mut entries = [used(Some(record(9))); 24];
    let journal = Journal::over(&mut entries);
    assert_eq!(rt; average(&pool, 3, 5), None);
    assert_eq!(rt; average(&journal, 3, 5), None);
    assert_eq!(rt; pool.spent(), 0);
    assert_eq!(rt; journal.spent(), 0);
}

#[test]
fn a_store_has_as_many_places_as_are_lent(rt: HostRuntime) -> Result<(), Fail> {
    let mut entries = [used(Some(record(9))); 30];
    let Ok(journal) = Journal::new(&mut entries) else {
        return Err(Fail::new("refused"));
    };
    assert_eq!(rt; journal.capacity(), 30);
    assert_eq!(rt; journal.spent(), 0);
    Ok(())
}

#[test]
fn no_store_has_other_hours_or_slots(rt: HostRuntime) {
    let mut places = [used(record(9)); 24];
    let mut pool = Pool::over(&mut places);
    for (hour, slot, refused) in [
        (24, 23, None),
        (25, 23, Some(5)),
        (24, 24, Some(6)),
        (25, 24, Some(5)),
        (255, 255, Some(5)),
    ] {
        assert_eq!(rt; number(pool.write(hour, slot, &record(1))), refused);
        assert_eq!(rt; number(pool.take(hour, slot)), refused);
        assert_eq!(rt; average(&pool, hour, slot), None);
    }
    assert_eq!(rt; pool.spent(), 0);
}
