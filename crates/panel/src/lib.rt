// The C face: functions that a program in C or Rust calls, and the answers that they hand back. include/milltundra.h declares them. No struct has
// padding: what would be is a field of zeros, `pad`, so that equal answers are equal bytes;
// and numbers and flags stand for cases, as C has them.
#![tactic(auto)]

mod judging;
mod states;
mod tables;
mod ticks;
mod verdicts;

pub use judging::mt_judge;
pub use tables::{mt_read, mt_write};
pub use ticks::{mt_open, mt_tick, mt_tick_in_place};
pub use verdicts::{mt_quick, mt_report, mt_sharp, mt_sharp_report, mt_verdict};

// A task of a table as it crosses.
#[repr(C)]
#[derive(Clone, Copy)]
pub struct FaceTask {
    pub v: u8,
    pub pad: [u8; 3],
    pub d: u32,
    pub t: u32,
    pub succ: [u16; 16],
}

// A table as it crosses.
#[repr(C)]
#[derive(Clone, Copy)]
pub struct FaceTable {
    pub m: u8,
    pub n: u8,
    pub pad: [u8; 2],
    pub tasks: [FaceTask; 16],
    pub costs: [u32; 256],
}

// Reading's number, place and table.
#[repr(C)]
#[derive(Clone, Copy)]
pub struct ReadAnswer {
    pub place: u64,
    pub number: u8,
    pub pad: [u8; 3],
    pub table: FaceTable,
}

// Writing's number and place.
#[repr(C)]
#[derive(Clone, Copy)]
pub struct WriteAnswer {
    pub place: u64,
    pub number: u8,
    pub pad: [u8; 7],
}

// The verdict's number, task, place and margin, and the task's chain: places from `count` on are 255.
#[repr(C)]
#[derive(Clone, Copy)]
pub struct VerdictAnswer {
    pub place: u64,
    pub margin: i64,
    pub number: u8,
    pub task: u8,
    pub count: u8,
    pub chain: [u8; 16],
    pub pad: [u8; 5],
}

// A task's state: its wait, and for each of four age places the deadline of its job, 0 where there is none, and whether there is one, 0 or 1.
#[repr(C)]
#[derive(Clone, Copy)]
pub struct FaceJobs {
    pub wait: u32,
    pub deadline: [u32; 4],
    pub live: [u8; 4],
}

// The machine's state: `stopped` is 0 for running or 1, and `at` is 0 while it runs.
#[repr(C)]
#[derive(Clone, Copy)]
pub struct FaceState {
    pub work: [u64; 64],
    pub clock: u32,
    pub stopped: u8,
    pub at: u8,
    pub pad: [u8; 2],
    pub tasks: [FaceJobs; 16],
    pub remaining: [u32; 1024],
}

// Opening's number, task, place and state.
#[repr(C)]
#[derive(Clone, Copy)]
pub struct OpenAnswer {
    pub place: u64,
    pub number: u8,
    pub task: u8,
    pub pad: [u8; 6],
    pub state: FaceState,
}

// A tick's number, task, place, set of tasks finished and vertices that ran.
#[repr(C)]
#[derive(Clone, Copy)]
pub struct TickAnswer {
    pub place: u64,
    pub number: u8,
    pub task: u8,
    pub finished: u16,
    pub ran: [machine::Triple; 8],
    pub pad: [u8; 4],
}

// A tick's answer and the next state.
#[repr(C)]
#[derive(Clone, Copy)]
pub struct TickedFace {
    pub answer: TickAnswer,
    pub state: FaceState,
}

// The judge's number, whether the last row missed (0 or 1), its place, its row and the number of rows.
#[repr(C)]
#[derive(Clone, Copy)]
pub struct RulingAnswer {
    pub place: u64,
    pub row: u64,
    pub rows: u64,
    pub number: u8,
    pub missed: u8,
    pub pad: [u8; 6],
}
