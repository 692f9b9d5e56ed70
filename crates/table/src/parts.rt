// The costs and the edges of a task, field by field, to where they stay. Each takes bytes and a place, as fields.rt.
ghost use Rattle.std.specs.Prelude.{◌≡◌, ◌+◌, ◌≤◌, ◌<◌, length};
ghost use Rattle.table.specs.Reading.{costs_at, edges_at};
ghost use Rattle.table.specs.Parts.{told};

use crate::{Outcome, fields};

// The costs of a task of v vertices, into the row from place `slot` on.
pub(crate) fn costs_at(
    bytes: &[u8],
    at: usize,
    v: u8,
    slot: usize,
    costs: &mut [u32; 256],
) -> Result<(), Outcome>
    requires { (v ≤ 16) × (at ≤ length bytes.now) × (slot + 16 ≤ 256) × (length costs.old ≡ 256) }
    ensures { (result ≡ told (costs_at bytes.now v at slot costs.old).outcome) × (costs.new ≡ (costs_at bytes.now v at slot costs.old).costs) }
{
    let mut p = at;
    for u in 0..usize::from(v) {
        costs[slot + u] = fields::ticks_at(bytes, p, 0)?;
        p += 4;
    }
    Ok(())
}

// The successor bits of a task of v vertices and e edges; low is one more than the key before.
pub(crate) fn edges_at(
    bytes: &[u8],
    at: usize,
    v: u8,
    e: u8,
    succ: &mut [u16; 16],
) -> Result<(), Outcome>
    requires { (v ≤ 16) × (at ≤ length bytes.now) × (length succ.old ≡ 16) }
    ensures { (result ≡ told (edges_at v bytes.now e at 0 succ.old).outcome) × (succ.new ≡ (edges_at v bytes.now e at 0 succ.old).succ) }
{
    let mut p = at;
    let mut low = 0;
    for _ in 0..e {
        let key = fields::edge_at(bytes, p, v, low)?;
        succ[(key / 16) as usize] |= 1u16 << (key % 16);
        low = key + 1;
        p += 2;
    }
    Ok(())
}
