// Numbers in the bytes of a file, the high byte first, and the zeros between them.
ghost use Rattle.std.specs.Prelude.{◌≡◌, ◌+◌, ◌*◌, ◌^◌, ◌<◌, ◌≤◌, length, take, drop, FitsSigned};
ghost use Rattle.std.specs.Int.{w32};
ghost use Rattle.std.specs.List.{All};
ghost use Rattle.settlement.specs.Rulings.{ruled};
ghost use Rattle.day_file.specs.Numbers.{words};
ghost use Rattle.day_file.specs.Numbers.{word as word_bytes};
ghost use Rattle.day_file.specs.Refusals.{not_zero};

use crate::faults::FileFault;

// The bytes from a place on, as many as an array has.
pub(crate) fn part_at<const N: usize>(bytes: &[u8], at: usize) -> &[u8; N]
    requires { at + N ≤ length bytes.now }
    ensures { result.now ≡ take N (drop at bytes.now) }
{
    bytes[at..].first_chunk().unwrap()
}

// The signed number in four bytes.
pub(crate) fn word_at(bytes: &[u8], at: usize) -> i32
    requires { at + 4 ≤ length bytes.now }
    ensures { word_bytes result ≡ take 4 (drop at bytes.now) }
{
    i32::from_be_bytes(*part_at(bytes, at))
}

// The signed numbers in bytes, one after another.
pub(crate) fn words_in<const N: usize>(bytes: &[u8]) -> [i32; N]
    requires { length bytes.now ≡ 4 * N }
    ensures bytes { words result ≡ bytes.now }
    ensures fit { All (FitsSigned w32) result }
{
    let mut numbers = [0; N];
    // Not `array::from_fn`, of which the library says too little to prove either clause.
    for (k, number) in numbers.iter_mut().enumerate() {
        *number = word_at(bytes, 4 * k);
    }
    numbers
}

// Refuses the first byte that is not zero, of bytes that begin at a place of the file.
pub(crate) fn check_zero(bytes: &[u8], place: usize) -> Result<(), FileFault>
    requires { place + length bytes.now < 2 ^ 64 }
    ensures { result ≡ ruled (not_zero place bytes.now) tt }
{
    match bytes.iter().position(|byte| *byte != 0) {
        Some(at) => Err(FileFault::NotZero(place + at)),
        None => Ok(()),
    }
}
