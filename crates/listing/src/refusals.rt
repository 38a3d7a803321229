// The lines of what is refused.
ghost use Rattle.std.specs.Prelude.{◌≡◌};
ghost use Rattle.listing.specs.Refusals.{layer_letter, file_line, refused_line};
ghost use Rattle.listing.specs.Texts.{text};

use crate::line::Line;
use book::Layer;
use day_file::FileFault;

// Layer and u8 are of other crates, so there can be no From between them here.
fn letter(layer: Layer) -> u8
    ensures { result ≡ layer_letter layer }
{
    match layer {
        Layer::File => b'F',
        Layer::Statement => b'B',
        Layer::Store => b'S',
    }
}

// The line of a file that is refused whole: the fault's number, and its place in the file.
pub fn file_line(fault: FileFault) -> Line
    ensures { text result ≡ file_line fault }
{
    let mut line = Line::headed(b"FILE");
    line.then_number(fault.report().number);
    line.then_number(fault.place());
    line.end();
    line
}

// The line of an entry that is refused: which one, the layer that found the fault, its number, its hour and its slot.
pub fn refused_line(entry: u16, fault: FileFault) -> Line
    ensures { text result ≡ refused_line entry fault }
{
    let report = fault.report();
    let mut line = Line::headed(b"REFUSED");
    line.then_number(entry);
    line.then_letter(letter(report.layer));
    line.then_number(report.number);
    line.then_number(report.hour);
    line.then_number(report.slot);
    line.end();
    line
}
