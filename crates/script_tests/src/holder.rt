//! Scripts over an output that is not the crate's own: it holds the first bytes that it takes, and counts the others.
use crate::whole::{SAMPLE, SAMPLE_PRINTS};
use arrayvec::ArrayVec;
use images::flash::MAX_IMAGE;
use script::output::Output;
use script::script::run_script;
use std::io::Write;
use std::process::Abort;

#[derive(Drop)]
struct Holder {
    held: ArrayVec<u8, 100>,
    // how many bytes it holds at most
    room: usize,
    others: usize,
}

impl Output for Holder {
    ghost use Rattle.std.specs.Prelude.{◌≡◌, ◌++◌};
    ghost use Rattle.std.proofs.Common.{ap, ◌∙◌, append_assoc};

    // Where no byte had to be counted, all of them are held, one after the other.
    ghost takes = { λ before text after. after.others ≡ 0 →
        (before.others ≡ 0) × (after.held.items ≡ before.held.items ++ text) };

    ghost joins = { λ a b c xs ys first second none.
        let later = second none in
        let earlier = first later.0 in
        (earlier.0, later.1 ∙ ap (λ l. l ++ ys) earlier.1 ∙ append_assoc a.held.items xs ys) };

    fn text(&mut self, text: &[u8]) {
        let room = self.room.saturating_sub(self.held.len());
        let count = self.held.write(&text[..room.min(text.len())]).unwrap_or(0);
        self.others = self.others.saturating_add(text.len() - count);
    }
}

// The sample script over an output with this much room.
fn check_room(rt: &impl Abort, room: usize) {
    let mut image = [0; MAX_IMAGE];
    let mut out = Holder {
        held: ArrayVec::new(),
        room,
        others: 0,
    };
    assert_eq!(rt; run_script(SAMPLE, &mut image, &mut out), Some(8));
    let text = SAMPLE_PRINTS.as_bytes();
    let held = room.min(text.len());
    assert_eq!(rt; out.held.as_slice(), &text[..held], "room {room}");
    assert_eq!(rt; out.others, text.len() - held, "room {room}");
    // the image is that of `image_left`
    assert_eq!(rt;
        &image[..8],
        [1, 0, 0, 0, 1, 0, 6, 0xeb].as_slice(),
        "room {room}"
    );
}

// The sample script prints 69 bytes.
#[test]
fn an_output_gets_the_text_in_order(rt: HostRuntime) {
    for room in [0, 1, 10, 68, 69, 70, 100] {
        check_room(&rt, room);
    }
}
