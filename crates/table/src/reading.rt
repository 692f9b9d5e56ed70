// Reading the task records and the table: document 01, "The table file".
ghost use Rattle.std.specs.Prelude.{◌≡◌, ◌*◌, ◌≤◌, ◌<◌, length};
ghost use Rattle.table.specs.Memory.{zero_task, no_table};
ghost use Rattle.table.specs.Reading.{task_at, bad_table, tasks_at, table_at, refused, read};
ghost use Rattle.table.specs.Parts.{found, InRow, ZeroFrom, head_at, TasksRead};

use crate::{Loaded, Outcome, Table, TableRead, Task, fields, parts};

// A task of zeros.
const NONE: Task = Task {
    v: 0,
    d: 0,
    t: 0,
    succ: [0u16; 16],
};

// The same by a call: where a refusal's table is made of it, reading takes less stack.
fn zero_task() -> Task
    ensures { result ≡ zero_task }
{
    NONE
}

// A task whose costs went to the table's row, and the place after it.
#[derive(Clone, Copy)]
struct TaskFound {
    next: usize,
    task: Task,
}

// A table record's processors and task count.
#[derive(Clone, Copy)]
struct Head {
    m: u8,
    n: u8,
}

// A table of zeros.
fn no_table() -> Table
    ensures { result ≡ no_table }
{
    let none = zero_task();
    Table {
        m: 0,
        n: 0,
        tasks: [none; 16],
        costs: [0u32; 256],
    }
}

// The record of task i, its costs into its places of the row.
fn task_at(bytes: &[u8], at: usize, i: usize, costs: &mut [u32; 256]) -> Result<TaskFound, Outcome>
    requires { (i < 16) × (length costs.old ≡ 256) × ZeroFrom (16 * i) costs.old }
    ensures { (result ≡ found (task_at bytes.now at)) × InRow (task_at bytes.now at) i costs.old costs.new }
{
    fields::mark_at(bytes, at, 0x4B)?;
    let v = fields::byte_at(bytes, at + 2, 1, 16)?;
    let e = fields::byte_at(bytes, at + 3, 0, 120)?;
    let d = fields::ticks_at(bytes, at + 4, 1)?;
    let t = fields::period_at(bytes, at + 8, d)?;
    parts::costs_at(bytes, at + 12, v, 16 * i, costs)?;
    let from = at + 12 + 4 * usize::from(v);
    let mut succ = [0u16; 16];
    parts::edges_at(bytes, from, v, e, &mut succ)?;
    if !graph::is_acyclic(succ) {
        return Err(Outcome::Cycle(at));
    }
    let next = from + 2 * usize::from(e);
    Ok(TaskFound {
        next,
        task: Task { v, d, t, succ },
    })
}

// The task records that follow a table record, into a table that has no task yet: the place after them.
fn tasks_at(bytes: &[u8], at: usize, table: &mut Table) -> Result<usize, Outcome>
    requires { (table.old.n ≤ 16) × (length table.old.tasks ≡ 16) × (length table.old.costs ≡ 256) × ZeroFrom 0 table.old.costs }
    ensures { TasksRead result table.new (tasks_at bytes.now table.old.n 0 at table.old) }
{
    let mut p = at;
    for i in 0..usize::from(table.n) {
        let TaskFound { next, task } = task_at(bytes, p, i, &mut table.costs)?;
        table.tasks[i] = task;
        p = next;
    }
    Ok(p)
}

// A table record.
fn head_at(bytes: &[u8], at: usize) -> Result<Head, Outcome>
    ensures { result ≡ head_at bytes.now at }
{
    fields::mark_at(bytes, at, 0x42)?;
    let m = fields::byte_at(bytes, at + 2, 1, 8)?;
    let n = fields::byte_at(bytes, at + 3, 1, 16)?;
    Ok(Head { m, n })
}

// A refused table.
fn bad_table(outcome: Outcome) -> TableRead
    ensures { result ≡ bad_table outcome }
{
    TableRead {
        outcome,
        next: 0,
        table: no_table(),
    }
}

// A table from any place, whatever follows it.
pub fn table_at(bytes: &[u8], at: usize) -> TableRead
    ensures { result ≡ table_at bytes.now at }
{
    let Head { m, n } = match head_at(bytes, at) {
        Ok(head) => head,
        Err(outcome) => return bad_table(outcome),
    };
    let mut table = Table {
        m,
        n,
        tasks: [NONE; 16],
        costs: [0u32; 256],
    };
    match tasks_at(bytes, at + 4, &mut table) {
        Ok(next) => TableRead {
            outcome: Outcome::Read,
            next,
            table,
        },
        Err(outcome) => bad_table(outcome),
    }
}

// A refused file: its outcome, and a table of zeros.
fn refusal(outcome: Outcome) -> Loaded
    ensures { result ≡ refused outcome }
{
    Loaded {
        outcome,
        table: no_table(),
    }
}

// A file: one table, then the end. The table is filled where it stays: `table_at` with the end tested; by it a table would be copied once
// more.
pub fn read(bytes: &[u8]) -> Loaded
    ensures { result ≡ read bytes.now }
{
    let Head { m, n } = match head_at(bytes, 0) {
        Ok(head) => head,
        Err(outcome) => return refusal(outcome),
    };
    let mut table = Table {
        m,
        n,
        tasks: [NONE; 16],
        costs: [0u32; 256],
    };
    let end = match tasks_at(bytes, 4, &mut table) {
        Ok(end) => end,
        Err(outcome) => return refusal(outcome),
    };
    if end != bytes.len() {
        return refusal(Outcome::Extra(end));
    }
    Loaded {
        outcome: Outcome::Read,
        table,
    }
}
