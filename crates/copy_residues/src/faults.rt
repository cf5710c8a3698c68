// Internal to the workspace, not open to callers: what a copy row is found to be by itself. Assumes nothing.

// Why the row check refuses a row. Whoever checks rows hands this on as it is, with the row.
#[derive(Clone, Copy)]
pub enum RowCheckRefusal {
    // 14: a number not below p
    NotElement,
    // 15: a column out of range
    OutOfRange,
    // 16: a residue not 0, the lowest such
    NotZero { index: u64 },
}
