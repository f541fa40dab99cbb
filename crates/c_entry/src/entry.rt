// One call on an image: the checks of the image, of the making and of the call in this order, and then the call.
// Nothing but the image is remembered from one call to the next, and nothing allocates.
ghost use Rattle.std.specs.Prelude.{◌≡◌};
ghost use Rattle.coset.specs.Code.{code};
ghost use Rattle.c_entry.specs.Entry.{code_named, Answers, CallsOnImage, answer_number};

use crate::fault::EntryFault;
use calls::call::Call;
use cells::array::CellArray;
use coset::code::Code;
use group::integers::Integers;
use group::interface::Group;
use group::vectors::Vectors;
use images::flash::FlashPart;
use store::making::check_making;
use store::run::run_call;

// what is added to the number of a refusal: no value and no count is as large
const REFUSED: u32 = 10_000;

// Makes a call with the group of a kind and a parameter. Each kind has a call of its own, so that the compiler makes
// code for its group.
pub(crate) fn enter(kind: u32, parameter: u32, n: u32, call: Call, image: &mut [u8]) -> u32
    ensures { CallsOnImage (code_named kind parameter n) call image.old image.new result }
{
    let n = n as usize;
    number_of(match kind {
        0 => serve(Integers::new(parameter), n, call, image),
        1 => serve(Vectors::new(parameter), n, call, image),
        // the integers modulo 0, which cannot be used
        _ => serve(Integers::new(0), n, call, image),
    })
}

fn serve<G: Group + Drop>(
    group: G,
    n: usize,
    call: Call,
    image: &mut [u8],
) -> Result<u32, EntryFault>
    ensures { Answers (code (G.meaning group) n) call image.old image.new result }
{
    let mut part = FlashPart::over(image);
    // No image that is good is without pages. So a good one is checked once, and a bad one again to ask why.
    if part.pages() == 0 {
        let fault = part.check().unwrap_err();
        return Err(EntryFault::Image(fault));
    }
    let code = Code { group, cells: n };
    check_making(&code, &part)?;
    Ok(run_call(code, &mut part, call)?)
}

// The number that a caller in C gets for an answer.
fn number_of(answer: Result<u32, EntryFault>) -> u32
    ensures { result ≡ answer_number answer }
{
    answer.unwrap_or_else(|fault| REFUSED + fault.number())
}
