// The file of a case, which the next case may take over.
ghost use Rattle.std.specs.Prelude.{◌≡◌, ◌≤◌, [], List, ℕ, length, take, slice_set, IfOk};
ghost use Rattle.cases.specs.Cases.{NextFile};

use std::io;
use std::io::Read;
use std::marker::Model;
use streams::SIZED_ROOM;

// The bytes that stand at a buffer's front: memory is fixed.
#[derive(Drop)]
pub struct CaseFile {
    buf: [u8; SIZED_ROOM],
    len: usize,
}

// Clauses see the file's bytes.
impl Model for CaseFile {
    ghost Value = { List ℕ };

    ghost view = { λ f. take f.len f.buf };

    ghost invariant = { λ f. f.len ≤ 65536 };
}

impl CaseFile {
    // The empty file.
    pub fn new() -> Self
        ensures { result ≡ [] }
    {
        CaseFile {
            buf: [0; SIZED_ROOM],
            len: 0,
        }
    }

    pub fn bytes(&self) -> &[u8]
        ensures { result.now ≡ self.now }
    {
        &self.buf[..self.len]
    }

    // Changes the byte at a place, if the file has one there.
    pub fn put(&mut self, at: usize, b: u8)
        ensures { self.new ≡ slice_set self.old at b }
    {
        if at < self.len {
            self.buf[at] = b;
        }
    }

    // Reads the next case's file: its length in two bytes and its bytes, or length 0 for the file of the case before. False where the
    // input ends.
    pub fn read_next<R: Read>(&mut self, input: &mut R) -> io::Result<bool>
        ensures { IfOk result (λ more. NextFile (R.remaining input.old) (R.remaining input.new) self.old self.new more) }
    {
        let Some(length) = streams::next_u16(input)? else {
            return Ok(false);
        };
        if length > 0 {
            self.len = streams::read_front(input, &mut self.buf, usize::from(length))?;
        }
        Ok(true)
    }
}
