//! That a script is determined, each law on the contract of a function with no code.
ghost use Rattle.script.specs.OneText.{ScriptsAgree, OutputsAgree, WritersAgree};

use crate::output::Output;

/// One script has the same replies whenever it is run, and leaves one image, byte for byte,
/// whatever bytes are lent. Where the same bytes are lent, all of them are the same afterwards. So
/// two writers get one text, or a beginning of it where a fault is answered, as far as they say
/// what they hold.
pub fn scripts_agree()
    ensures replies { ScriptsAgree }
    ensures writers { WritersAgree }
{}

/// And two outputs, of one kind or of two, take one text: that of the replies of the script.
pub fn outputs_agree<O: Output, P: Output>()
    ensures { OutputsAgree O.Output P.Output }
{}
