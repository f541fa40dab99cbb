// Faults of cell arrays: why a call was refused, and what it named.
// Each stands for one number of the table of refusals.
ghost use Rattle.std.specs.Prelude.{◌≡◌};
ghost use Rattle.cells.specs.Faults.{device_number};

// A refused call, with the page and, where the call named one, the cell.
#[derive(Clone, Copy, PartialEq, Debug)]
pub enum DeviceFault {
    NoPage { page: usize, cell: Option<usize> },
    NoCell { page: usize, cell: usize },
    Worn { page: usize },
}

impl DeviceFault {
    // The number of the table of refusals, by cases, as that table has it.
    pub fn number(self) -> u32
        ensures { result ≡ device_number self }
    {
        match self {
            DeviceFault::NoPage { .. } => 20,
            DeviceFault::NoCell { .. } => 21,
            DeviceFault::Worn { .. } => 22,
        }
    }
}
