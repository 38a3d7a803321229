use crate::figures::{average, fill, number, record, used};
use record_store::{Journal, Pool, Store};

#[test]
fn a_full_pool_takes_a_correction(rt: HostRuntime) {
    let mut places = [used(record(9)); 24];
    let mut pool = Pool::over(&mut places);
    assert_eq!(rt; fill(&mut pool), None);
    assert_eq!(rt; pool.spent(), 24);
    assert_eq!(rt; number(pool.write(3, 7, &record(70))), None);
    assert_eq!(rt; average(&pool, 3, 7), Some(70));
    assert_eq!(rt; number(pool.write(4, 0, &record(1))), Some(12));
    assert_eq!(rt; average(&pool, 4, 0), None);
    assert_eq!(rt; pool.spent(), 24);
}

#[test]
fn a_journal_of_24_refuses_its_25th_write(rt: HostRuntime) {
    let mut places = [used(Some(record(9))); 24];
    let mut journal = Journal::over(&mut places);
    assert_eq!(rt; fill(&mut journal), None);
    assert_eq!(rt; number(journal.write(3, 7, &record(70))), Some(12));
    assert_eq!(rt; average(&journal, 3, 7), Some(7));
    assert_eq!(rt;
        number(journal.take(3, 7)),
        Some(12),
        "taking away costs one too"
    );
    assert_eq!(rt; average(&journal, 3, 7), Some(7));
    assert_eq!(rt; number(journal.take(4, 7)), None, "nothing stands there");
    assert_eq!(rt; journal.spent(), 24);
}

#[test]
fn a_pool_takes_away_and_writes_again(rt: HostRuntime) {
    let mut places = [used(record(9)); 24];
    let mut pool = Pool::over(&mut places);
    assert_eq!(rt; fill(&mut pool), None);
    assert_eq!(rt; number(pool.take(3, 0)), None);
    assert_eq!(rt; number(pool.take(3, 23)), None);
    assert_eq!(rt; pool.spent(), 22);
    assert_eq!(rt; average(&pool, 3, 0), None);
    assert_eq!(rt;
        average(&pool, 3, 22),
        Some(22),
        "the others stand as they did"
    );
    assert_eq!(rt; number(pool.write(24, 23, &record(99))), None);
    assert_eq!(rt; number(pool.write(3, 0, &record(88))), None);
    assert_eq!(rt; average(&pool, 24, 23), Some(99));
    assert_eq!(rt; average(&pool, 3, 0), Some(88));
    assert_eq!(rt; pool.spent(), 24);
}

#[test]
fn a_journal_takes_away_and_writes_again(rt: HostRuntime) {
    let mut places = [used(Some(record(9))); 26];
    let mut journal = Journal::over(&mut places);
    assert_eq!(rt; fill(&mut journal), None);
    assert_eq!(rt; number(journal.take(3, 5)), None);
    assert_eq!(rt; average(&journal, 3, 5), None);
    assert_eq!(rt; number(journal.write(3, 5, &record(50))), None);
    assert_eq!(rt; average(&journal, 3, 5), Some(50));
    assert_eq!(rt; average(&journal, 3, 6), Some(6));
    assert_eq!(rt; journal.spent(), 26);
}
