//! What calls from C keep together, and that they are determined, each on the contract of a
//! function with no code: no caller in C needs it.
ghost use Rattle.c_entry.specs.Determined.{OneImageCall, ImageCallsAgree};
ghost use Rattle.c_entry.specs.Together.{ImageCallsSuffice};

/// Calls from C made one after the other on the bytes of one image, with one group and one number of cells to a record,
/// keep the whole promise together: changes per erase, full exactly when nothing fits, and the rest. Over a bad image, or
/// where no store can be made, each is refused by one and the same number.
pub fn image_calls_suffice()
    ensures { ImageCallsSuffice }
{}

/// A call from C has one answer and leaves the same bytes, whoever makes it with the same code on
/// the same bytes; and so do the same calls made one after the other, each with any kind, parameter
/// and number of cells, with nothing else writing there. So two users who make the same calls on
/// equal images have equal images after each of them.
pub fn image_calls_agree()
    ensures single { OneImageCall }
    ensures list { ImageCallsAgree }
{}
