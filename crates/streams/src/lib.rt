// Reading as much as there is, for the programs.
#![tactic(auto)]

ghost use Rattle.std.specs.Prelude.{◌≡◌, ◌<◌, ◌≤◌, length, take, IfOk, OnOk};
ghost use Rattle.std.specs.Int.{w16, from_le_bytes};
ghost use Rattle.std.specs.Io.KnownBytes.{Consumes, IsAtEnd};
ghost use Rattle.streams.specs.Reading.{NextBytes, NextNumber, PaddedBytes, FilledFront, FilledSized};

use std::io;
use std::io::Read;

// Room for a table's file and one byte more, by which a longer file shows.
pub const FILE_ROOM: usize = 5061;

// Room for any bytes whose length is told in two.
pub const SIZED_ROOM: usize = 65536;

// Reads until a buffer is full or the input ends, and answers how many bytes stand at the buffer's front then: those that the input has
// lost, and fewer than the buffer holds only where it has no more.
pub fn read_full<R: Read>(input: &mut R, buf: &mut [u8]) -> io::Result<usize>
    ensures count { IfOk result (λ n. n ≤ length buf.new) }
    ensures bytes { IfOk result (λ n. Consumes (R.remaining input.old) (R.remaining input.new) (take n buf.new)) }
    ensures end { IfOk result (λ n. n < length buf.new → IsAtEnd (R.remaining input.new)) }
{
    // A read says only then how much it gave, so no iterator is plainer.
    let mut done = 0;
    while done < buf.len() {
        let n = input.read(&mut buf[done..])?;
        if n == 0 {
            break;
        }
        done += n;
    }
    Ok(done)
}

// Reads the next n bytes into the front of a buffer, as far as it holds them, and answers how many came.
pub fn read_front<R: Read>(input: &mut R, buf: &mut [u8], n: usize) -> io::Result<usize>
    ensures { IfOk result (λ k. FilledFront (R.remaining input.old) (R.remaining input.new) n buf.new k) }
{
    let wanted = n.min(buf.len());
    read_full(input, &mut buf[..wanted])
}

// The next N bytes, if the input has as many.
pub fn next_bytes<R: Read, const N: usize>(input: &mut R) -> io::Result<Option<[u8; N]>>
    ensures { IfOk result (λ found. NextBytes (R.remaining input.old) (R.remaining input.new) N found) }
{
    let mut bytes = [0; N];
    let n = read_full(input, &mut bytes)?;
    Ok(if n < N { None } else { Some(bytes) })
}

// The number in the next two bytes, the lower first.
pub fn next_u16<R: Read>(input: &mut R) -> io::Result<Option<u16>>
    ensures { IfOk result (λ found. NextNumber (R.remaining input.old) (R.remaining input.new) 2 (from_le_bytes w16) found) }
{
    Ok(next_bytes(input)?.map(u16::from_le_bytes))
}

// Fills a buffer with the next bytes, and from where the input ends with zeros.
fn read_padded<R: Read>(input: &mut R, buf: &mut [u8]) -> io::Result<()>
    ensures { OnOk result (PaddedBytes (R.remaining input.old) (R.remaining input.new) (length buf.old) buf.new) }
{
    let n = read_full(input, buf)?;
    buf[n..].fill(0);
    Ok(())
}

// The next N bytes; from where the input ends zeros.
pub fn next_padded<R: Read, const N: usize>(input: &mut R) -> io::Result<[u8; N]>
    ensures { IfOk result (λ bytes. PaddedBytes (R.remaining input.old) (R.remaining input.new) N bytes) }
{
    let mut bytes = [0; N];
    read_padded(input, &mut bytes)?;
    Ok(bytes)
}

// Reads a length in two bytes, the lower first, and as many bytes into the front of a buffer, as far as it holds them; how many came,
// or none where the input ends before the length does.
pub fn read_sized<R: Read>(input: &mut R, buf: &mut [u8]) -> io::Result<Option<usize>>
    ensures { IfOk result (λ found. FilledSized (R.remaining input.old) (R.remaining input.new) (from_le_bytes w16) buf.new found) }
{
    let Some(length) = next_u16(input)? else {
        return Ok(None);
    };
    Ok(Some(read_front(input, buf, usize::from(length))?))
}
