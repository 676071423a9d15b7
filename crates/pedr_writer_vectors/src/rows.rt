// The parts of a row.
use crate::cases;

pub(crate) fn show(row: u64) -> u64 {
    (row - row % cases::SHOW) % cases::DUE
}

pub(crate) fn fill(row: u64) -> u64 {
    (row - row % cases::FILL) % cases::SHOW
}

pub(crate) fn field(row: u64) -> u64 {
    (row - row % cases::FIELD) % cases::FILL
}

// The frame of a new record.
pub(crate) fn frame(row: u64) -> u64 {
    if field(row) == cases::FRAME {
        number(row)
    } else {
        1
    }
}

// The item, from 0; past every array where the row names none.
pub(crate) fn item(row: u64) -> usize {
    ((row % cases::FIELD / cases::ITEM + 999) % 1000) as usize
}

pub(crate) fn number(row: u64) -> u64 {
    row % cases::ITEM
}
