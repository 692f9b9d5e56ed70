// Checksums of what a case gives, which its recorded line names.
ghost use Rattle.std.specs.Prelude.{◌≡◌};
ghost use Rattle.cases.specs.Cases.{first_sum, with_bytes};

use std::hash::Hasher;

// A checksum, 32-bit FNV-1a. A number goes into it as its bytes, the lowest first.
#[derive(Drop)]
pub struct Checksum(u32);

impl Checksum {
    pub fn new() -> Self
        ensures { result.0 ≡ first_sum }
    {
        Checksum(2166136261)
    }
}

impl Hasher for Checksum {
    ghost write = { λ s bytes. record { 0 = with_bytes s.0 bytes } };

    ghost finish = { λ s. s.0 };

    fn finish(&self) -> u64 {
        u64::from(self.0)
    }

    fn write(&mut self, bytes: &[u8]) {
        for b in bytes {
            self.0 = (self.0 ^ u32::from(*b)).wrapping_mul(16777619);
        }
    }
}

// The checksum of some bytes.
pub fn checksum_of(bytes: &[u8]) -> u64
    ensures { result ≡ with_bytes first_sum bytes.now }
{
    let mut sum = Checksum::new();
    sum.write(bytes);
    sum.finish()
}
