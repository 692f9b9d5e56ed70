// The writer's test 10: an unused entry that isn't zero.
ghost use Rattle.std.specs.Prelude.{◌≡◌, ◌+◌, ◌≤◌, false};
ghost use Rattle.table.specs.Writing.{unused_zero};
ghost use Rattle.checks.specs.Checking.{zero_from, unused_in};

use table::{Table, Task};

// Whether the costs and successors of the vertices from a number on are zero.
fn zero_from(succ: [u16; 16], costs: &[u32; 256], slot: usize, from: usize) -> bool
    requires { slot + 16 ≤ 256 }
    ensures { result ≡ zero_from succ costs.now slot from }
{
    for u in from..16 {
        if costs[slot + u] != 0 || succ[u] != 0 {
            return false;
        }
    }
    true
}

// Whether a task from n on is zero wholly. Field by field: its successors are tested with the costs, and arrays have no comparison that
// stays as plain.
fn zero_task(task: Task, costs: &[u32; 256], slot: usize) -> bool
    requires { slot + 16 ≤ 256 }
    ensures { result ≡ unused_in task costs.now slot false }
{
    if task.v != 0 || task.d != 0 || task.t != 0 {
        return false;
    }
    zero_from(task.succ, costs, slot, 0)
}

// Whether each unused entry of a table is zero.
pub fn unused_zero(table: Table) -> bool
    ensures { result ≡ unused_zero table }
{
    for i in 0..16 {
        let task = table.tasks[i];
        let zero = if i < usize::from(table.n) {
            zero_from(task.succ, &table.costs, 16 * i, usize::from(task.v))
        } else {
            zero_task(task, &table.costs, 16 * i)
        };
        if !zero {
            return false;
        }
    }
    true
}
