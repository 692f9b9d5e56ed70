// The fields of a table file, each read at a place: document 01, "Numbers for reading and writing". Each takes the bytes and the place, as its
// definition does: a reader that moves on would hand the place out again for each refusal.
ghost use Rattle.std.specs.Prelude.{◌≡◌, ◌+◌, ◌≤◌, ◌<◌, length};
ghost use Rattle.table.specs.Reading.{byte_at, value4, ticks_at, period_at, edge_at};
ghost use Rattle.table.specs.Parts.{marked};

use crate::Outcome;

// A mark, 54 and b, at any place, also past the end.
pub(crate) fn mark_at(bytes: &[u8], at: usize, b: u8) -> Result<(), Outcome>
    ensures { result ≡ marked b bytes.now at }
{
    if bytes.len() < at || bytes.len() - at < 2 {
        return Err(Outcome::Short(at));
    }
    if bytes[at] == 0x54 && bytes[at + 1] == b {
        return Ok(());
    }
    Err(Outcome::Mark(at))
}

// m, n, v or e.
pub(crate) fn byte_at(bytes: &[u8], at: usize, lo: u8, hi: u8) -> Result<u8, Outcome>
    ensures { result ≡ byte_at lo hi bytes.now at }
{
    if bytes.len() <= at {
        return Err(Outcome::Short(at));
    }
    let x = bytes[at];
    if x < lo || hi < x {
        return Err(Outcome::Range(at));
    }
    Ok(x)
}

// Four bytes, the lowest first.
#[tactic(auto, unfolding(crate::specs::Reading::value4))]
fn number_at(bytes: &[u8], at: usize) -> u32
    requires { at + 4 ≤ length bytes.now }
    ensures { result ≡ value4 bytes.now at }
{
    u32::from_le_bytes([bytes[at], bytes[at + 1], bytes[at + 2], bytes[at + 3]])
}

// D or T, from 1 on, or a cost, from 0 on. A place past the end is never asked for, so the length less the place is what is left.
pub(crate) fn ticks_at(bytes: &[u8], at: usize, lo: u32) -> Result<u32, Outcome>
    requires { at ≤ length bytes.now }
    ensures { result ≡ ticks_at lo bytes.now at }
{
    if bytes.len() - at < 4 {
        return Err(Outcome::Short(at));
    }
    let x = number_at(bytes, at);
    if x < lo || 1_000_000 < x {
        return Err(Outcome::Ticks(at));
    }
    Ok(x)
}

// T, four times which is not under the deadline d. T is in its own range by then, so four times T does not wrap.
pub(crate) fn period_at(bytes: &[u8], at: usize, d: u32) -> Result<u32, Outcome>
    requires { at ≤ length bytes.now }
    ensures { result ≡ period_at d bytes.now at }
{
    let t = ticks_at(bytes, at, 1)?;
    if 4 * t < d {
        return Err(Outcome::Order(at));
    }
    Ok(t)
}

// An edge, as its key 16 * from + to: the definition edge_at has it so, and keys ascend.
pub(crate) fn edge_at(bytes: &[u8], at: usize, v: u8, low: u32) -> Result<u32, Outcome>
    requires { at ≤ length bytes.now }
    ensures { result ≡ edge_at v low bytes.now at }
{
    if bytes.len() - at < 2 {
        return Err(Outcome::Short(at));
    }
    let from = bytes[at];
    let to = bytes[at + 1];
    let key = 16 * u32::from(from) + u32::from(to);
    if from < v && to < v && from != to && low <= key {
        return Ok(key);
    }
    Err(Outcome::Edge(at))
}
