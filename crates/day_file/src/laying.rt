// What stands in a file in a fixed number of bytes, one after another.
ghost use Rattle.std.specs.Prelude.{◌≡◌, ℕ, ◌*◌, List, length, FitsSigned};
ghost use Rattle.std.specs.Int.{w32};
ghost use Rattle.std.specs.List.{flat_map, All};
ghost use Rattle.day_file.specs.Numbers.{word};

// What is laid into N bytes.
pub(crate) trait Laid<const N: usize>: Copy {
    ghost laid: { Self → List ℕ };

    // Its numbers are such as their types have.
    ghost Fits: { Self → Type 0 };

    fn bytes(self) -> [u8; N]
        ensures laid { result ≡ laid self }
        ensures fit { Fits self };
}

// A signed number.
impl Laid<4> for i32 {
    ghost laid = { word };

    ghost Fits = { FitsSigned w32 };

    fn bytes(self) -> [u8; 4] {
        self.to_be_bytes()
    }
}

// Lays items one after another.
pub(crate) fn lay<const N: usize, T: Laid<N>>(out: &mut [u8], items: &[T])
    requires { length out.old ≡ N * length items.now }
    ensures laid { out.new ≡ flat_map T.laid items.now }
    ensures fit { All T.Fits items.now }
{
    // A slice written through its chunks is known by its length alone, so the places are counted.
    for (i, item) in items.iter().enumerate() {
        out[N * i..N * i + N].copy_from_slice(&item.bytes());
    }
}
