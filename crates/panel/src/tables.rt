// Reading and writing a table file from C.
ghost use Rattle.std.specs.Prelude.{◌≡◌, length};
ghost use Rattle.table.specs.Writing.{written};
ghost use Rattle.panel.specs.Tables.{face_task, table_face, task_of, table_of};
ghost use Rattle.panel.specs.Answers.{read_answer, write_answer};

use crate::{FaceTable, FaceTask, ReadAnswer, WriteAnswer};
use std::array;
use table::{Table, Task};

// A task as it crosses.
impl From<Task> for FaceTask {
    ghost from_gives = { λ a f. f ≡ face_task a };

    fn from(a: Task) -> FaceTask {
        let Task { v, d, t, succ } = a;
        FaceTask {
            v,
            pad: [0; 3],
            d,
            t,
            succ,
        }
    }
}

// A table as it crosses.
impl From<Table> for FaceTable {
    ghost from_gives = { λ t f. f ≡ table_face t };

    fn from(t: Table) -> FaceTable {
        FaceTable {
            m: t.m,
            n: t.n,
            pad: [0; 2],
            tasks: array::from_fn(|i| FaceTask::from(t.tasks[i])),
            costs: t.costs,
        }
    }
}

// Reads a table file.
pub fn mt_read(bytes: &[u8]) -> ReadAnswer
    ensures { result ≡ read_answer bytes.now }
{
    let loaded = table::read(bytes);
    ReadAnswer {
        place: loaded.outcome.place() as u64,
        number: loaded.outcome.number(),
        pad: [0; 3],
        table: FaceTable::from(loaded.table),
    }
}

// The task that crossed.
impl From<FaceTask> for Task {
    ghost from_gives = { λ a t. t ≡ task_of a };

    fn from(a: FaceTask) -> Task {
        let FaceTask { v, d, t, succ, .. } = a;
        Task { v, d, t, succ }
    }
}

// The table that crossed. What stands in its padding is not looked at.
impl From<FaceTable> for Table {
    ghost from_gives = { λ f t. t ≡ table_of f };

    fn from(f: FaceTable) -> Table {
        Table {
            m: f.m,
            n: f.n,
            tasks: array::from_fn(|i| Task::from(f.tasks[i])),
            costs: f.costs,
        }
    }
}

// Writes a table's file to the front of the buffer and leaves the rest; a refusal writes nothing.
pub fn mt_write(table: FaceTable, buffer: &mut [u8]) -> WriteAnswer
    ensures { (result ≡ write_answer (table_of table) (length buffer.old)) × (buffer.new ≡ written (table_of table) buffer.old) }
{
    let w = writer::write(Table::from(table), buffer);
    WriteAnswer {
        place: w.place() as u64,
        number: w.number(),
        pad: [0; 7],
    }
}
