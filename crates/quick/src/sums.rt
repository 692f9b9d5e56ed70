// What a table's tasks take: their vols, their longest chains, and the work that is due, as far as it is needed.
ghost use Rattle.std.specs.Prelude.{◌≡◌, ℕ, ◌+◌, ◌*◌, ◌≤◌, ◌<◌, ltb, length, get_or};
ghost use Rattle.graph.specs.Words.{row};
ghost use Rattle.graph.specs.Graph.{longest_of};
ghost use Rattle.table.specs.Good.{GoodTable};
ghost use Rattle.quick.specs.Loads.{load, Loads, owed};

use table::Table;

// How often a task asks, and for how much.
#[derive(Clone, Copy)]
pub(crate) struct Load {
    pub period: u32,
    pub vol: u64,
}

// That of each task: costs of vertices from v on are 0.
pub(crate) fn loads_of(t: &Table) -> [Load; 16]
    requires { GoodTable t.now }
    ensures { Loads t.now t.now.n result }
{
    let mut loads = [Load { period: 0, vol: 0 }; 16];
    for i in 0..usize::from(t.n) {
        let vol = verdict::total_of(verdict::own_costs(&t.costs, i));
        loads[i] = Load {
            period: t.tasks[i].t,
            vol,
        };
    }
    loads
}

// Whether the longest chain of task i, taken so many times, exceeds `room`; where not even its vol does, no chain is looked for.
pub(crate) fn chain_exceeds(
    costs: &[u32; 256],
    i: usize,
    succ: [u16; 16],
    vol: u64,
    times: u64,
    room: u64,
) -> bool
    requires { (i < 16) × (times ≤ 7) × (vol ≤ 16000000) × (longest_of succ (row 16 (λ u. get_or costs.now (16 * i + u) 0)) ≤ vol) }
    ensures { result ≡ ltb room (times * longest_of succ (row 16 (λ u. get_or costs.now (16 * i + u) 0))) }
{
    let widest = times * vol;
    if widest <= room {
        return false;
    }
    let len = verdict::len_of(costs, i, succ);
    let chain = times * len;
    room < chain
}

// What tasks owe within d ticks; it stops at the first task with which they owe more than `most`.
pub(crate) fn due_within(loads: &[Load], d: u32, most: u64) -> u64
    requires { (d ≤ 1000000) × (most ≤ 8000000) × ((i : ℕ) → i < length loads.now → (1 ≤ (load loads.now i).period) × ((load loads.now i).vol ≤ 16000000)) }
    ensures within { result ≤ most → result ≡ owed loads.now (length loads.now) d }
    ensures over { most < result → most < owed loads.now (length loads.now) d }
{
    let mut due: u64 = 0;
    for load in loads {
        due += u64::from(d.div_ceil(load.period)) * load.vol;
        if most < due {
            return due;
        }
    }
    due
}
