// Why a store refuses a call: the record, and the device's fault whole where the device refused. Each stands for one
// number of the table of refusals. And how a refusal gains the place where it is met.
ghost use Rattle.std.specs.Prelude.{◌≡◌, Result};
ghost use Rattle.calls.specs.declared.fault.StoreFault.TheVariants.{Device};
ghost use Rattle.calls.specs.Faults.{number, located};

use cells::fault::DeviceFault;

#[derive(Clone, Copy, PartialEq, Debug)]
pub enum StoreFault {
    NoRecord { record: usize },
    NoValue { record: usize },
    Full { record: usize },
    Fits { record: usize },
    Unreached { record: usize },
    Device { record: usize, fault: DeviceFault },
}

impl StoreFault {
    // The number of the table of refusals, by cases, as that table has it.
    pub fn number(self) -> u32
        ensures { result ≡ number self }
    {
        match self {
            StoreFault::NoRecord { .. } => 40,
            StoreFault::NoValue { .. } => 41,
            StoreFault::Full { .. } => 42,
            StoreFault::Fits { .. } => 43,
            StoreFault::Unreached { .. } => 44,
            StoreFault::Device { fault, .. } => fault.number(),
        }
    }
}

// A device's fault, with the record of the call that met it.
impl From<(usize, DeviceFault)> for StoreFault {
    ghost from_gives = { λ e r. r ≡ Device e.0 e.1 };

    fn from(refusal: (usize, DeviceFault)) -> StoreFault {
        let (record, fault) = refusal;
        StoreFault::Device { record, fault }
    }
}

// Adds a place to a refusal, so that `?` turns the two into the fault of the level above.
pub trait Locate<T, F, P> {
    ghost answer: { Self → Result T F };

    fn located_at(self, place: P) -> Result<T, (P, F)>
        ensures { result ≡ located place (answer self) };
}

impl<T, F, P: Drop> Locate<T, F, P> for Result<T, F> {
    ghost answer = { λ r. r };

    fn located_at(self, place: P) -> Result<T, (P, F)> {
        self.map_err(|fault| (place, fault))
    }
}
