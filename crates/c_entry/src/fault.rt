// Why a call on an image is refused: by the check of the image, by that of the making, or by the store.
// Each refusal stands for the number that it has there.
ghost use Rattle.std.specs.Prelude.{◌≡◌};
ghost use Rattle.c_entry.specs.declared.fault.EntryFault.TheVariants.{Image, Making, Store};
ghost use Rattle.c_entry.specs.Faults.{entry_number};

use calls::fault::StoreFault;
use images::fault::ImageFault;
use store::making::MakingFault;

#[derive(Clone, Copy, PartialEq, Debug)]
pub(crate) enum EntryFault {
    Image(ImageFault),
    Making(MakingFault),
    Store(StoreFault),
}

impl EntryFault {
    // that of the fault within
    pub(crate) fn number(self) -> u32
        ensures { result ≡ entry_number self }
    {
        match self {
            EntryFault::Image(fault) => fault.number(),
            EntryFault::Making(fault) => fault.number(),
            EntryFault::Store(fault) => fault.number(),
        }
    }
}

impl From<MakingFault> for EntryFault {
    ghost from_gives = { λ e r. r ≡ Making e };

    fn from(fault: MakingFault) -> EntryFault {
        EntryFault::Making(fault)
    }
}

impl From<StoreFault> for EntryFault {
    ghost from_gives = { λ e r. r ≡ Store e };

    fn from(fault: StoreFault) -> EntryFault {
        EntryFault::Store(fault)
    }
}
