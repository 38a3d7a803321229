// What the cases are made of.
use record_store::{Place, Store, StoreFault};
use settlement::Interval;

// A record that is told from others by its average output.
pub fn record(average: i32) -> Interval {
    Interval {
        seconds: 300,
        flags: 4,
        average,
        ..Interval::default()
    }
}

// A place that held something before.
pub fn used<T>(content: T) -> Place<T> {
    Place {
        hour: 3,
        slot: 5,
        content,
    }
}

// The number of a refusal.
pub fn number(answer: Result<(), StoreFault>) -> Option<u8> {
    answer.err().map(|fault| fault.number())
}

// The average output of what stands in a slot.
pub fn average<S: Store>(store: &S, hour: u8, slot: u8) -> Option<i32> {
    store.read(hour, slot).map(|interval| interval.average)
}

// Writes a record to each slot of hour 3, its average being the slot; the number of the last refusal.
pub fn fill<S: Store>(store: &mut S) -> Option<u8> {
    let mut last = None;
    for slot in 0..24u8 {
        last = number(store.write(3, slot, &record(i32::from(slot)))).or(last);
    }
    last
}
