// Closing a day.
ghost use Rattle.std.specs.Prelude.{◌≡◌};

use crate::locked::Locked;
use crate::statement::Statement;

impl<E: Drop> Statement<E> {
    // The statement as it is, moved into one that takes no change. Nothing refuses it.
    pub fn lock(self) -> Locked
        ensures { result.sheet.table ≡ self.sheet.table }
    {
        let Statement { edition, sheet } = self;
        drop(edition);
        Locked { sheet }
    }
}
