// Making a report's memory, and clearing it.
ghost use Rattle.std.specs.Prelude.{◌≡◌, IfOk};
ghost use Rattle.store.specs.Stored.{Cleared, room_of};

use crate::memory::Report;
use std::alloc::{AllocError, Global};

// The most lines that may stand at one time in a reading.
pub const MOST_LINES: usize = 512;

// The longest row that is read, and so the longest kept text.
pub const LONGEST_ROW: usize = 4_096;

impl Report {
    // A cleared report, with memory for any.
    pub fn new(heap: Global) -> Result<Report, AllocError>
        ensures { IfOk result Cleared }
    {
        let lines = Vec::with_capacity(heap, MOST_LINES + 2)?;
        let text = Vec::with_capacity(heap, LONGEST_ROW)?;
        Ok(Report {
            lines,
            text,
            faults: 0,
            row_length: 0,
            frame_length: 0,
        })
    }

    // Forgets what the report holds; its memory stays.
    pub fn clear(&mut self)
        ensures after { Cleared self.new }
        ensures room { room_of self.new ≡ room_of self.old }
    {
        self.lines.clear();
        self.text.clear();
        self.faults = 0;
        self.row_length = 0;
        self.frame_length = 0;
    }
}
