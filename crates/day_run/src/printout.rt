// What a program prints for a day file.
ghost use Rattle.std.specs.Prelude.{◌≡◌};
ghost use Rattle.day_run.specs.Printouts.{printed};

use listing::Line;

// The page of a file that is accepted, or the line of one that is refused.
#[derive(Drop)]
pub enum Printout {
    Page(Vec<u8>),
    Refused(Line),
}

impl Printout {
    // Its bytes.
    pub fn as_bytes(&self) -> &[u8]
        ensures { result.now ≡ printed self.now }
    {
        match self {
            Printout::Page(page) => page.as_slice(),
            Printout::Refused(line) => line.as_bytes(),
        }
    }
}
