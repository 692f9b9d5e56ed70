// Writing a table into a lent buffer: document 01, "Numbers for reading and writing".
ghost use Rattle.std.specs.Prelude.{◌≡◌, ◌+◌, ◌≤◌, ◌<◌, length, IsOk};
ghost use Rattle.graph.specs.Words.{in_order};
ghost use Rattle.table.specs.Writing.{bytes4, edge_bytes, encode_task, writing, written};
ghost use Rattle.checks.specs.Checking.{row_keys, keys_of, checked};
ghost use Rattle.writer.specs.Putting.{cost_bytes, task_bytes, HasRoom, Puts};

use graph::set::Members;
use table::{Table, Task, Written};

// A buffer that is written from its front on: the next byte goes to place `at`.
#[derive(Drop)]
struct Pen<'a> {
    buffer: &'a mut [u8],
    at: usize,
}

impl Pen<'_> {
    fn bytes(&mut self, bytes: &[u8])
        requires { HasRoom self.old bytes.now }
        ensures { Puts self.old self.new bytes.now }
    {
        let end = self.at + bytes.len();
        self.buffer[self.at..end].copy_from_slice(bytes);
        self.at = end;
    }

    // Four bytes, the lowest first.
    fn number(&mut self, x: u32)
        requires { HasRoom self.old (bytes4 x) }
        ensures { Puts self.old self.new (bytes4 x) }
    {
        self.bytes(&x.to_le_bytes());
    }

    // The costs of a task's vertices, one behind the other.
    fn costs(&mut self, costs: &[u32])
        requires { HasRoom self.old (cost_bytes costs.now 0 (length costs.now)) }
        ensures { Puts self.old self.new (cost_bytes costs.now 0 (length costs.now)) }
    {
        for &cost in costs {
            self.number(cost);
        }
    }

    // The edges of vertex u, which leads to the members of `bits`.
    fn row(&mut self, u: u8, bits: u16)
        requires { (u < 16) × HasRoom self.old (edge_bytes (row_keys 16 u 0 bits)) }
        ensures { Puts self.old self.new (edge_bytes (row_keys 16 u 0 bits)) }
    {
        for w in Members::from(bits) {
            self.bytes(&[u, w as u8]);
        }
    }

    // The edges of the first v vertices.
    fn edges(&mut self, succ: [u16; 16], v: usize)
        requires { (v ≤ 16) × HasRoom self.old (edge_bytes (keys_of v succ)) }
        ensures { Puts self.old self.new (edge_bytes (keys_of v succ)) }
    {
        for u in 0..v {
            self.row(u as u8, succ[u]);
        }
    }

    // A task record, whose counts are in their ranges.
    fn task(&mut self, task: Task, costs: &[u32; 256], slot: usize)
        requires in_range { (task.v ≤ 16) × (length (keys_of task.v task.succ) ≤ 120) × (slot + 16 ≤ 256) }
        requires has_room { HasRoom self.old (task_bytes task costs.now slot) }
        ensures { Puts self.old self.new (task_bytes task costs.now slot) }
    {
        let v = usize::from(task.v);
        let e = checks::edges_of(task.succ, v);
        self.bytes(&[0x54, 0x4B, task.v, e as u8]);
        self.number(task.d);
        self.number(task.t);
        self.costs(&costs[slot..slot + v]);
        self.edges(task.succ, v);
    }

    // The task records of a table that the tests let through.
    fn tasks(&mut self, table: Table)
        requires { IsOk (checked table) × HasRoom self.old (in_order table.n (encode_task table)) }
        ensures { Puts self.old self.new (in_order table.n (encode_task table)) }
    {
        for i in 0..usize::from(table.n) {
            self.task(table.tasks[i], &table.costs, 16 * i);
        }
    }
}

// Writes what a table stands for to the front of the buffer, or refuses and writes nothing.
pub fn write(table: Table, buffer: &mut [u8]) -> Written
    ensures { (result ≡ writing table (length buffer.old)) × (buffer.new ≡ written table buffer.old) }
{
    let length = match checks::check(table) {
        Ok(length) => length,
        Err(refusal) => return Written::Refused(refusal),
    };
    if !checks::unused_zero(table) {
        return Written::Unused;
    }
    if buffer.len() < length {
        return Written::Room(length);
    }
    let mut pen = Pen { buffer, at: 0 };
    pen.bytes(&[0x54, 0x42, table.m, table.n]);
    pen.tasks(table);
    Written::Done(length)
}
