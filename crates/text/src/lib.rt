// Text into a lent buffer: bytes, numbers in decimal, numbers with their sign. What falls outside the buffer is cut off.
// The buffer and the place travel together in public clauses; `Page` has them in one.
#![tactic(auto)]

mod page;

ghost use Rattle.std.specs.Prelude.{◌≡◌, [], ◌∷◌, ◌<◌, length, drop};
ghost use Rattle.text.specs.Text.{decimal, signed};
ghost use Rattle.text.specs.Laid.{laid};

pub use page::Page;

// Bytes from a place on.
pub fn put_bytes(out: &mut [u8], at: usize, words: &[u8])
    ensures { out.new ≡ laid out.old at words.now }
{
    let from = at.min(out.len());
    let n = words.len().min(out.len() - from);
    out[from..from + n].copy_from_slice(&words[..n]);
}

// One byte at a place.
pub fn put_byte(out: &mut [u8], at: usize, b: u8)
    ensures { out.new ≡ laid out.old at (b ∷ []) }
{
    put_bytes(out, at, &[b]);
}

// The digits of x, the last one at the end of twenty bytes; where they start. How many there are shows only at the first of them, so a
// `for` over the twenty places would need a return in its middle and one behind it that never comes.
fn put_digits(digits: &mut [u8; 20], x: u64) -> usize
    requires { length digits.old ≡ 20 }
    ensures { (result < 20) × (length digits.new ≡ 20) × (drop result digits.new ≡ decimal x) }
{
    let mut y = x;
    let mut p = 20;
    while 10 <= y {
        p -= 1;
        digits[p] = b'0' + (y % 10) as u8;
        y /= 10;
    }
    p -= 1;
    digits[p] = b'0' + y as u8;
    p
}

// A number in decimal; how many bytes that is.
pub fn put_decimal(out: &mut [u8], at: usize, x: u64) -> usize
    ensures { (out.new ≡ laid out.old at (decimal x)) × (result ≡ length (decimal x)) }
{
    let mut digits = [0u8; 20];
    let from = put_digits(&mut digits, x);
    put_bytes(out, at, &digits[from..]);
    20 - from
}

// A number in decimal with its sign; how many bytes that is.
pub fn put_signed(out: &mut [u8], at: usize, x: i64) -> usize
    ensures { (out.new ≡ laid out.old at (signed x)) × (result ≡ length (signed x)) }
{
    if x < 0 {
        put_byte(out, at, b'-');
        put_decimal(out, at.saturating_add(1), x.unsigned_abs()) + 1
    } else {
        put_decimal(out, at, x.unsigned_abs())
    }
}
