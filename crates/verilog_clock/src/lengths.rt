// Lengths of values.
ghost use Rattle.std.specs.Prelude.{◌≡◌, ◌≤◌, ◌+◌, ◌^◌, ◌%◌};

/// A length of at most 64 bits, with the greatest value that has it.
#[derive(Clone, Copy)]
pub struct Length {
    pub bits: u32,
    pub mask: u64,
    pub ghost most: { bits ≤ 64 },
    pub ghost ones: { mask + 1 ≡ 2 ^ bits },
}

// The greatest value of a length.
fn mask(bits: u32) -> u64
    requires { bits ≤ 64 }
    ensures { result + 1 ≡ 2 ^ bits }
{
    if bits == 0 {
        return 0;
    }
    u64::MAX >> (64 - bits)
}

impl Length {
    /// A length in bits.
    pub fn of(bits: u32) -> Length
        requires { bits ≤ 64 }
        ensures { result.bits ≡ bits }
    {
        Length {
            bits,
            mask: mask(bits),
        }
    }

    /// The low bits of a value, as many as the length has.
    pub fn cut(self, value: u64) -> u64
        ensures { result ≡ value % 2 ^ self.bits }
    {
        value & self.mask
    }
}
