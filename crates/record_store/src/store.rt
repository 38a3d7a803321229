// What every store does.
ghost use Rattle.std.specs.Prelude.{◌≡◌, OnErr};
ghost use Rattle.record_store.specs.Meaning.{Meaning, Lawful, write_refused, take_refused, written, taken, hour_records};
ghost use Rattle.settlement.specs.Rulings.{ruled, changed};

use crate::faults::StoreFault;
use settlement::Interval;

// A store of interval records, one for each slot of each hour. Each call's answer, and the store after it, are told by
// what the store means. Hour and slot are any two bytes, which a call refuses by name; `Key` is for those that exist.
pub trait Store {
    ghost means: { Self → Meaning };

    ghost lawful: { (s : Self) → Lawful (means s) };

    // What stands in a slot.
    fn read(&self, hour: u8, slot: u8) -> Option<Interval>
        ensures { result ≡ (means self.now).standing hour slot };

    // Has a record stand in a slot, in the place of what stood there.
    fn write(&mut self, hour: u8, slot: u8, interval: &Interval) -> Result<(), StoreFault>
        ensures answer { result ≡ ruled (write_refused (means self.old) hour slot) tt }
        ensures after { means self.new ≡ changed (write_refused (means self.old) hour slot) (written (means self.old) hour slot interval.now) (means self.old) }
        ensures kept { OnErr result (self.new ≡ self.old) };

    // Takes away what stands in a slot, if anything.
    fn take(&mut self, hour: u8, slot: u8) -> Result<(), StoreFault>
        ensures answer { result ≡ ruled (take_refused (means self.old) hour slot) tt }
        ensures after { means self.new ≡ changed (take_refused (means self.old) hour slot) (taken (means self.old) hour slot) (means self.old) }
        ensures kept { OnErr result (self.new ≡ self.old) };

    // How much is spent.
    fn spent(&self) -> usize
        ensures { result ≡ (means self.now).spent };

    // How much can be spent.
    fn capacity(&self) -> usize
        ensures { result ≡ (means self.now).capacity };

    // What stands in each slot of an hour.
    fn hour(&self, hour: u8) -> [Option<Interval>; 24]
        ensures { result ≡ hour_records ((means self.now).standing hour) }
    {
        let mut records = [None; 24];
        // Not `array::from_fn`, which moves the whole array once more: a quarter more time for an hour.
        for (slot, record) in records.iter_mut().enumerate() {
            *record = self.read(hour, slot as u8);
        }
        records
    }
}
