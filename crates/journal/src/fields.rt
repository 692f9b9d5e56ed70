// A row that is whole, and its fields: document 02, M-100. The definitions are in specs/Rows.antt.
#![tactic(auto, unfolding(crate::specs::Rows::row_set, crate::specs::Rows::row_count, crate::specs::Rows::row_task, crate::specs::Rows::row_age, crate::specs::Rows::row_vertex, crate::specs::Rows::row_key, crate::specs::Rows::row_end, crate::specs::Rows::cut_short, crate::specs::Rows::wrong_mark, crate::specs::Listing::row_slot))]

ghost use Rattle.std.specs.Prelude.{◌≡◌, true, ◌||◌, not, ◌-◌, ◌≤◌, ◌<◌, length, ltb, MatchOption};
ghost use Rattle.journal.specs.Rows.{row_set, row_count, row_task, row_age, row_vertex, row_key, row_end, cut_short, wrong_mark, ascending};

// The row that begins at place `at` of a journal. No byte of it lies past the end.
#[derive(Clone, Copy)]
pub(crate) struct Row<'a> {
    bytes: &'a [u8],
    at: usize,
    ghost whole: { row_end bytes.now at ≤ length bytes.now },
}

impl<'a> Row<'a> {
    ghost use Rattle.journal.specs.Listing.{row_slot};

    // The row at a place, which may be past the end; none, 40, if it is cut short.
    pub(crate) fn read(bytes: &'a [u8], at: usize) -> Option<Row<'a>>
        ensures { MatchOption result (cut_short bytes.now at ≡ true) (λ row. (row.bytes.now ≡ bytes.now) × (row.at ≡ at)) }
    {
        let rest = bytes.get(at..)?;
        let count = usize::from(*rest.get(4)?);
        if rest.len() < 5 + 3 * count {
            return None;
        }
        Some(Row { bytes, at })
    }

    // 41.
    pub(crate) fn is_unmarked(&self) -> bool
        ensures { result ≡ wrong_mark self.now.bytes.now self.now.at }
    {
        self.bytes[self.at] != 0x4A || self.bytes[self.at + 1] != 0x52
    }

    // The release set.
    pub(crate) fn set(&self) -> u16
        ensures { result ≡ row_set self.now.bytes.now self.now.at }
    {
        u16::from_le_bytes([self.bytes[self.at + 2], self.bytes[self.at + 3]])
    }

    // The run count.
    pub(crate) fn count(&self) -> usize
        ensures value { result ≡ row_count self.now.bytes.now self.now.at }
        ensures bound { result < 256 }
    {
        usize::from(self.bytes[self.at + 4])
    }

    // The place after the row.
    pub(crate) fn end(&self) -> usize
        ensures { result ≡ row_end self.now.bytes.now self.now.at }
    {
        self.at + 5 + 3 * self.count()
    }

    // The three bytes of triple j: a method each, as the definitions row_task, row_age and row_vertex are three.
    // The task of triple j.
    pub(crate) fn task(&self, j: usize) -> usize
        requires { j < row_count self.now.bytes.now self.now.at }
        ensures value { result ≡ row_task self.now.bytes.now self.now.at j }
        ensures bound { result < 256 }
    {
        usize::from(self.bytes[self.at + 5 + 3 * j])
    }

    // Its age place.
    pub(crate) fn age(&self, j: usize) -> usize
        requires { j < row_count self.now.bytes.now self.now.at }
        ensures value { result ≡ row_age self.now.bytes.now self.now.at j }
        ensures bound { result < 256 }
    {
        usize::from(self.bytes[self.at + 6 + 3 * j])
    }

    // Its vertex.
    pub(crate) fn vertex(&self, j: usize) -> usize
        requires { j < row_count self.now.bytes.now self.now.at }
        ensures value { result ≡ row_vertex self.now.bytes.now self.now.at j }
        ensures bound { result < 256 }
    {
        usize::from(self.bytes[self.at + 7 + 3 * j])
    }

    // The slot of triple j: 16 times age place plus task.
    pub(crate) fn slot(&self, j: usize) -> usize
        requires { j < row_count self.now.bytes.now self.now.at }
        ensures { result ≡ row_slot self.now.bytes.now self.now.at j }
    {
        16 * self.age(j) + self.task(j)
    }

    // The number of triple j's vertex in a choice.
    pub(crate) fn key(&self, j: usize) -> u16
        requires { j < row_count self.now.bytes.now self.now.at }
        ensures { result ≡ row_key self.now.bytes.now self.now.at j }
    {
        (64 * self.task(j) + 16 * self.age(j) + self.vertex(j)) as u16
    }

    // Triple j, by which triples ascend.
    fn triple(&self, j: usize) -> (usize, usize, usize)
        requires { j < row_count self.now.bytes.now self.now.at }
        ensures task { (result.0 ≡ row_task self.now.bytes.now self.now.at j) × (result.0 < 256) }
        ensures age { (result.1 ≡ row_age self.now.bytes.now self.now.at j) × (result.1 < 256) }
        ensures vertex { (result.2 ≡ row_vertex self.now.bytes.now self.now.at j) × (result.2 < 256) }
    {
        (self.task(j), self.age(j), self.vertex(j))
    }

    // Whether the triples ascend strictly.
    fn ascends(&self) -> bool
        ensures { result ≡ ascending self.now.bytes.now self.now.at }
    {
        for j in 0..self.count().saturating_sub(1) {
            if self.triple(j + 1) <= self.triple(j) {
                return false;
            }
        }
        true
    }

    // 42, for m processors.
    pub(crate) fn is_bad_list(&self, m: u8) -> bool
        ensures { result ≡ (ltb m (row_count self.now.bytes.now self.now.at) || not (ascending self.now.bytes.now self.now.at)) }
    {
        usize::from(m) < self.count() || !self.ascends()
    }
}
