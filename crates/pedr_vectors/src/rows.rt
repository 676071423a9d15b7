// The parts of a row.
use crate::cases;

pub(crate) fn show(row: u64) -> u64 {
    (row - row % cases::SHOW) % cases::DUE
}

pub(crate) fn fill(row: u64) -> u64 {
    (row - row % cases::FILL) % cases::SHOW
}

pub(crate) fn step(row: u64) -> u64 {
    (row - row % cases::STEP) % cases::FILL
}
