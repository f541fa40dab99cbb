//! The start of a script: its head is read, and makes a fresh flash part and a store over it.
//! Where the head is refused, or there is none, the script ends there, with no byte altered.
ghost use Rattle.cells.specs.Rows.{Served};
ghost use Rattle.images.specs.declared.format.Format.TheVariants.{Flash};
ghost use Rattle.images.specs.Check.{image_rows};
ghost use Rattle.coset.specs.Code.{code as coset_code};
ghost use Rattle.commands.specs.Groups.{word_group};
ghost use Rattle.script.specs.Lines.{lines_left};
ghost use Rattle.script.specs.Printing.{Replied};
ghost use Rattle.script.specs.Starting.{AnsweredOver, OpensStore, StartsScript};

use crate::fault::{HeadPlace, ScriptFault};
use crate::lines::Lines;
use crate::output::Output;
use crate::rest::answer_rest;
use calls::fault::Locate;
use commands::fault::LineFault;
use commands::group_word::GroupWord;
use commands::head::Heading;
use coset::code::Code;
use images::flash::{FlashPart, MAX_IMAGE};
use images::fresh::write_blank;
use images::layout::Layout;
use store::making::check_making_at;

// the most bytes of a script
const MAX_SCRIPT: usize = 65_535;

// Reads the head, and answers the lines after it.
pub(crate) fn start<O: Output>(
    script: &[u8],
    image: &mut [u8; MAX_IMAGE],
    out: &mut O,
) -> Result<usize, ScriptFault>
    ensures { StartsScript O.Output script.now image.old image.new out.old out.new result }
{
    if script.len() > MAX_SCRIPT {
        return Err(ScriptFault::at_the_start(LineFault::Size));
    }
    let mut lines = Lines::of(script);
    let Some(head) = lines.next() else {
        return Err(ScriptFault::at_the_start(LineFault::Command));
    };
    let heading = Heading::read(head.bytes).located_at(head.number)?;
    let place = HeadPlace {
        line: head.number,
        heading,
    };
    open_store(place, lines, image, out)
}

// Makes the part and the store of a heading, and answers the lines that are left. All that can refuse it is looked at
// before the fresh image is written.
fn open_store<O: Output>(
    place: HeadPlace,
    lines: Lines,
    image: &mut [u8; MAX_IMAGE],
    out: &mut O,
) -> Result<usize, ScriptFault>
    ensures { OpensStore O.Output place.line place.heading (lines_left lines.entry)
        image.old image.new out.old out.new result }
{
    let Heading {
        group,
        n,
        pages,
        width,
    } = place.heading;
    let layout = Layout::of(pages.index(), width.index()).located_at(place)?;
    let code = Code {
        group,
        cells: n.index(),
    };
    check_making_at(&code, layout.width).located_at(place)?;
    let size = write_blank(image, layout);
    answer_image(code, &mut image[..size], lines, out);
    Ok(size)
}

// Makes a store over a good image, and answers the lines with it.
fn answer_image<O: Output>(code: Code<GroupWord>, image: &mut [u8], lines: Lines, out: &mut O)
    requires { Served (image_rows Flash image.old) }
    ensures { let c = coset_code (word_group code.group) code.cells in
        Replied O.Output out.old out.new
        (AnsweredOver c (lines_left lines.entry) image.old image.new) }
{
    let mut part = FlashPart::over(image);
    answer_rest(code, &mut part, lines, out);
}
