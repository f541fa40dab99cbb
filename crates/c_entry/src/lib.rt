// Get, put and renew for callers in C, on numbers and on the bytes of a flash image. Each is an export of its own, as C
// calls it by its name. The answer is the value or the count of cells, or 10,000 plus the number of the refusal.
#![tactic(auto)]

mod entry;
mod fault;
pub mod laws;

ghost use Rattle.std.specs.Prelude.{◌≡◌};
ghost use Rattle.calls.specs.declared.call.Call.TheVariants.{Get, Put, Renew};
ghost use Rattle.c_entry.specs.Entry.{code_named, CallsOnImage};

use crate::entry::enter;
use calls::call::Call;

// The value of a record. Here and below a 32-bit number has no `From` into an index; that no cast loses anything is
// proved.
#[unsafe(no_mangle)]
pub extern "C" fn record_store_get(
    kind: u32,
    parameter: u32,
    n: u32,
    record: u32,
    image: &mut [u8],
) -> u32
    ensures answers { CallsOnImage (code_named kind parameter n) (Get «record»)
        image.old image.new result }
    ensures same { image.new ≡ image.old }
{
    let record = record as usize;
    enter(kind, parameter, n, Call::Get { record }, image)
}

// Sets the cells of the plan that takes a record to a value, and answers how many they are.
#[unsafe(no_mangle)]
pub extern "C" fn record_store_put(
    kind: u32,
    parameter: u32,
    n: u32,
    record: u32,
    value: u32,
    image: &mut [u8],
) -> u32
    ensures { CallsOnImage (code_named kind parameter n) (Put «record» value)
        image.old image.new result }
{
    let record = record as usize;
    enter(kind, parameter, n, Call::Put { record, value }, image)
}

// Erases the page of a record, and writes its records again, each by its plan: this one with a new
// value, the others with theirs. It answers how many cells it set.
#[unsafe(no_mangle)]
pub extern "C" fn record_store_renew(
    kind: u32,
    parameter: u32,
    n: u32,
    record: u32,
    value: u32,
    image: &mut [u8],
) -> u32
    ensures { CallsOnImage (code_named kind parameter n) (Renew «record» value)
        image.old image.new result }
{
    let record = record as usize;
    enter(kind, parameter, n, Call::Renew { record, value }, image)
}
