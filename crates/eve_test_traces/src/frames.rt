//! The frames of a trace as they are lent.

use eve_frames::FrameView;
use eve_testing::Text;
use eve_views::Trace;

/// The replica in whose section a byte lies.
fn push_section_of(text: &mut Text, trace: &Trace, offset: u64) {
    match trace.section_of(offset) {
        Some(replica) => text.value(" of ", u64::from(replica)),
        None => {}
    }
}

/// A frame: where it begins, its kind, the length of its body, in whose section its first and its last byte lie, and
/// its bytes.
fn push_frame(text: &mut Text, trace: &Trace, frame: FrameView) {
    let offset = frame.offset();
    let length = frame.body_len() as u64;
    text.value("\n  ", offset);
    text.words(" ");
    text.words(frame.kind_name());
    text.value(" ", length);
    push_section_of(text, trace, offset);
    push_section_of(text, trace, offset.saturating_add(length + 4));
    text.hex(": ", frame.bytes());
}

/// Every frame.
pub fn push_frames(text: &mut Text, trace: &Trace) {
    let mut frames = trace.frames();
    for _ in 0..trace.frame_count() {
        let Some(frame) = frames.next() else {
            break;
        };
        push_frame(text, trace, frame);
    }
}
