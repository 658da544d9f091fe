//! The lines of frames, put one after another and sent many at a time.

ghost use Rattle.std.specs.Prelude.{◌≡◌, ◌<◌, ◌≤◌, ◌+◌, ◌*◌, ◌++◌, List, [], codes, length, take, drop};
ghost use Rattle.std.specs.Prelude.{IfErr, IfSome, IfNone, OnOk, OnErr};
ghost use Rattle.std.specs.Io.KnownBytes.{Appends};
ghost use Rattle.arrayvec.specs.ArrayVec.{array_vec_len};
ghost use Rattle.eve_grammar.specs.Frames.{Frame};
ghost use Rattle.eve_lines.specs.Rest.{words_left};
ghost use Rattle.eve_objects.specs.Bytes.{object_of_view};
ghost use Rattle.eve_objects.specs.FrameObjects.{header_object};
ghost use Rattle.eve_streams.specs.Failures.{after_failure};
ghost use Rattle.eve_streams.specs.Prefix.{AppendsPrefix};
ghost use Rattle.eve_tool.specs.Calls.{FailsLines};
ghost use Rattle.eve_tool.specs.Lines.{line_feed, line_prefix};
ghost use Rattle.eve_tool.specs.Listing.{HasFrames, frame_len, header_line, line_of_view, lines_from, listed_lines};
ghost use Rattle.eve_tool.specs.Listing.{prefix_of_view};
ghost use Rattle.eve_tool.specs.inner.LineSends.{PutsText};
ghost use Rattle.eve_views.specs.Form.{SaysHead};

use crate::fault::ToolFault;
use eve_grammar::{FRAME_HEAD_LEN, HEADER_LEN, Head, u32_at};
use eve_lines::laws::frames_say_their_words;
use eve_lines::{
    FrameWords, LINE_ROOM, LONGEST_PART, Line, put, put_header, put_line_feed, put_number,
    put_numbered,
};
use eve_objects::laws::frames_say_their_members;
use eve_objects::{push_frame, push_header};
use eve_streams::{SendFault, Sink, send_all};
use eve_tool_arguments::Style;
use eve_views::FrameView;
use std::alloc::Global;

/// How the frames of a trace are listed.
#[derive(Clone, Copy)]
pub(crate) enum Listing {
    /// A line for each: the byte at which it begins, its kind's name, and how many bytes its body has.
    Short,
    /// With its fields, in this style.
    Full(Style),
}

/// How many bytes of lines are sent together, about.
const BLOCK: usize = 1024;

/// A frame, and its number among those of its trace, from 0.
#[derive(Drop)]
struct NumberedFrame<'a> {
    number: usize,
    view: FrameView<'a>,
}

/// Appends the prefix of a frame's line: the byte at which it begins, its kind's name, and how many bytes its body has.
fn put_prefix(line: &mut Line, offset: u64, name: &str, body_len: u64)
    requires room { array_vec_len line.old + LONGEST_PART ≤ LINE_ROOM }
    requires short { length name.now ≤ 8 }
    ensures items { line.new.items ≡ line.old.items ++ line_prefix offset name.now body_len }
    ensures len { array_vec_len line.new ≤ array_vec_len line.old + 50 }
{
    put_number(line, offset);
    put(line, " ");
    put(line, name);
    put_numbered(line, " ", body_len);
}

/// Appends the prefix of the line of this frame.
fn put_frame_prefix(line: &mut Line, frame: &FrameView<'_>)
    requires room { array_vec_len line.old + LONGEST_PART ≤ LINE_ROOM }
    ensures items { line.new.items ≡ line.old.items ++ prefix_of_view frame.now }
    ensures len { array_vec_len line.new ≤ array_vec_len line.old + 50 }
{
    put_prefix(
        line,
        frame.offset(),
        frame.kind_name(),
        frame.body_len() as u64,
    );
}

/// Sends what is held, and empties the line.
fn send_held<O: Sink>(line: &mut Line, out: &mut O) -> Result<(), SendFault>
    ensures sent { OnOk result (Appends (O.written out.old) (O.written out.new) line.old.items) }
    ensures empty { OnOk result (line.new.items ≡ []) }
    ensures prefix { OnErr result (AppendsPrefix (O.written out.old) (O.written out.new) line.old.items) }
    ensures fine { OnOk result (O.failures out.new ≡ O.failures out.old) }
    ensures counted { OnErr result (O.failures out.new ≡ after_failure (O.failures out.old)) }
{
    send_all(out, line.as_slice())?;
    line.clear();
    Ok(())
}

/// Sends what is held, where it leaves no room for a prefix and a part of the words.
fn make_room<O: Sink>(line: &mut Line, out: &mut O) -> Result<(), SendFault>
    ensures puts { OnOk result (PutsText (O.written out.old) (O.written out.new) line.old.items line.new.items []) }
    ensures room { OnOk result (array_vec_len line.new + 2 * LONGEST_PART ≤ LINE_ROOM) }
    ensures prefix { OnErr result (AppendsPrefix (O.written out.old) (O.written out.new) line.old.items) }
    ensures fine { OnOk result (O.failures out.new ≡ O.failures out.old) }
    ensures counted { OnErr result (O.failures out.new ≡ after_failure (O.failures out.old)) }
{
    if line.len() > BLOCK {
        return send_held(line, out);
    }
    Ok(())
}

/// Puts the words of a frame that are still to come, in as many parts as it takes.
fn put_words<O: Sink>(
    line: &mut Line,
    words: &mut FrameWords<'_>,
    out: &mut O,
) -> Result<(), SendFault>
    ensures puts { OnOk result (PutsText (O.written out.old) (O.written out.new) line.old.items line.new.items
        (words_left words.old)) }
    ensures prefix { OnErr result (AppendsPrefix (O.written out.old) (O.written out.new)
        (line.old.items ++ words_left words.old)) }
    ensures fine { OnOk result (O.failures out.new ≡ O.failures out.old) }
    ensures counted { OnErr result (O.failures out.new ≡ after_failure (O.failures out.old)) }
{
    'parts: loop {
        make_room(line, out)?;
        if !words.fill(line) {
            return Ok(());
        }
    }
}

/// Puts the end of a line.
fn put_end<O: Sink>(line: &mut Line, out: &mut O) -> Result<(), SendFault>
    ensures puts { OnOk result (PutsText (O.written out.old) (O.written out.new) line.old.items line.new.items
        line_feed) }
    ensures prefix { OnErr result (AppendsPrefix (O.written out.old) (O.written out.new) line.old.items) }
    ensures fine { OnOk result (O.failures out.new ≡ O.failures out.old) }
    ensures counted { OnErr result (O.failures out.new ≡ after_failure (O.failures out.old)) }
{
    make_room(line, out)?;
    put_line_feed(line);
    Ok(())
}

/// Puts the short line of a frame.
fn put_short<O: Sink>(
    line: &mut Line,
    frame: &NumberedFrame<'_>,
    out: &mut O,
) -> Result<(), SendFault>
    ensures puts { OnOk result (PutsText (O.written out.old) (O.written out.new) line.old.items line.new.items
        (line_of_view Listing.Short frame.now.number frame.now.view)) }
    ensures prefix { OnErr result (AppendsPrefix (O.written out.old) (O.written out.new)
        (line.old.items ++ line_of_view Listing.Short frame.now.number frame.now.view)) }
    ensures fine { OnOk result (O.failures out.new ≡ O.failures out.old) }
    ensures counted { OnErr result (O.failures out.new ≡ after_failure (O.failures out.old)) }
{
    make_room(line, out)?;
    put_frame_prefix(line, &frame.view);
    put_line_feed(line);
    Ok(())
}

/// Puts the line for people of a frame, with its fields.
fn put_line<O: Sink>(
    line: &mut Line,
    frame: &NumberedFrame<'_>,
    out: &mut O,
) -> Result<(), SendFault>
    ensures puts { OnOk result (PutsText (O.written out.old) (O.written out.new) line.old.items line.new.items
        (line_of_view (Listing.Full Style.Plain) frame.now.number frame.now.view)) }
    ensures prefix { OnErr result (AppendsPrefix (O.written out.old) (O.written out.new)
        (line.old.items ++ line_of_view (Listing.Full Style.Plain) frame.now.number frame.now.view)) }
    ensures fine { OnOk result (O.failures out.new ≡ O.failures out.old) }
    ensures counted { OnErr result (O.failures out.new ≡ after_failure (O.failures out.old)) }
{
    make_room(line, out)?;
    put_frame_prefix(line, &frame.view);
    let mut words = FrameWords::begin(line, frame.number, frame.view.bytes());
    put_words(line, &mut words, out)?;
    put_end(line, out)
}

/// Sends what is held, and then the object of a frame, which is made in `room`.
fn put_object<O: Sink>(
    alloc: Global,
    line: &mut Line,
    mut room: Vec<u8>,
    frame: &NumberedFrame<'_>,
    out: &mut O,
) -> Result<Vec<u8>, ToolFault>
    ensures puts { OnOk result (PutsText (O.written out.old) (O.written out.new) line.old.items line.new.items
        (object_of_view frame.now.number frame.now.view)) }
    ensures prefix { OnErr result (AppendsPrefix (O.written out.old) (O.written out.new)
        (line.old.items ++ object_of_view frame.now.number frame.now.view)) }
    ensures fine { OnOk result (O.failures out.new ≡ O.failures out.old) }
    ensures stopped { IfErr result (FailsLines (Listing.Full Style.Json) O.failures out.old out.new) }
{
    room.clear();
    let object = push_frame(alloc, room, frame.number, &frame.view)?;
    send_held(line, out)?;
    send_all(out, object.as_slice())?;
    Ok(object)
}

/// Puts the line of a frame, listed so. An object is made in `room`, which it gives back.
fn put_frame<O: Sink>(
    alloc: Global,
    listing: Listing,
    line: &mut Line,
    room: Vec<u8>,
    frame: &NumberedFrame<'_>,
    out: &mut O,
) -> Result<Vec<u8>, ToolFault>
    ensures puts { OnOk result (PutsText (O.written out.old) (O.written out.new) line.old.items line.new.items
        (line_of_view listing frame.now.number frame.now.view)) }
    ensures prefix { OnErr result (AppendsPrefix (O.written out.old) (O.written out.new)
        (line.old.items ++ line_of_view listing frame.now.number frame.now.view)) }
    ensures fine { OnOk result (O.failures out.new ≡ O.failures out.old) }
    ensures stopped { IfErr result (FailsLines listing O.failures out.old out.new) }
{
    match listing {
        Listing::Short => {
            put_short(line, frame, out)?;
            Ok(room)
        }
        Listing::Full(Style::Plain) => {
            put_line(line, frame, out)?;
            Ok(room)
        }
        Listing::Full(Style::Json) => put_object(alloc, line, room, frame, out),
    }
}

/// The frame that begins at this byte, where it lies there as a whole.
#[tactic(auto, unfolding(eve_grammar::specs::Places::number_in))]
fn frame_at(bytes: &[u8], at: usize) -> Option<FrameView<'_>>
    ensures offset { IfSome result (λ frame. frame.offset ≡ at) }
    ensures bytes { IfSome result (λ frame. frame.bytes.now
        ≡ take (frame_len (drop at bytes.now)) (drop at bytes.now)) }
    ensures within { IfSome result (λ frame. at + length frame.bytes.now ≤ length bytes.now) }
    ensures short { IfNone result (length (drop at bytes.now) < frame_len (drop at bytes.now)) }
{
    if at > bytes.len() {
        return None;
    }
    let frame = &bytes[at..];
    if frame.len() < FRAME_HEAD_LEN {
        return None;
    }
    let Some((body_len, body)) = u32_at(&frame[1..]) else {
        return None;
    };
    let body_len = body_len as usize;
    if body.len() < body_len {
        return None;
    }
    Some(FrameView {
        offset: at as u64,
        bytes: &frame[..FRAME_HEAD_LEN + body_len],
    })
}

/// Puts the lines of the frames behind the header.
fn put_frames<O: Sink>(
    alloc: Global,
    listing: Listing,
    line: &mut Line,
    bytes: &[u8],
    out: &mut O,
) -> Result<(), ToolFault>
    ensures puts { (head : Head) (frames : List Frame) → HasFrames bytes.now head frames
        → OnOk result (PutsText (O.written out.old) (O.written out.new) line.old.items line.new.items
        (lines_from listing 0 32 frames)) }
    ensures prefix { (head : Head) (frames : List Frame) → HasFrames bytes.now head frames
        → OnErr result (AppendsPrefix (O.written out.old) (O.written out.new)
        (line.old.items ++ lines_from listing 0 32 frames)) }
    ensures fine { OnOk result (O.failures out.new ≡ O.failures out.old) }
    ensures stopped { IfErr result (FailsLines listing O.failures out.old out.new) }
{
    frames_say_their_words();
    frames_say_their_members();
    let mut room = Vec::new(alloc);
    let mut at = HEADER_LEN;
    'frames: for number in 0..bytes.len() {
        let Some(view) = frame_at(bytes, at) else {
            return Ok(());
        };
        let frame = NumberedFrame { number, view };
        room = put_frame(alloc, listing, line, room, &frame, out)?;
        at += view.bytes.len();
    }
    Ok(())
}

/// Puts the short line of the header: the first.
fn put_short_header(line: &mut Line)
    requires { line.old.items ≡ [] }
    ensures { line.new.items ≡ line_prefix 0 (codes "Header") 32 ++ line_feed }
{
    put_prefix(line, 0, "Header", 32);
    put_line_feed(line);
}

/// Puts the line for people of the header, with its fields: the first.
fn put_header_line(line: &mut Line, head: &Head)
    requires { line.old.items ≡ [] }
    ensures { line.new.items ≡ header_line (Listing.Full Style.Plain) head.now }
{
    put_prefix(line, 0, "Header", 32);
    put_header(line, head);
    put_line_feed(line);
}

/// Sends the object of the header.
fn send_header<O: Sink>(alloc: Global, head: &Head, out: &mut O) -> Result<(), ToolFault>
    ensures sent { OnOk result (Appends (O.written out.old) (O.written out.new) (header_object head.now)) }
    ensures prefix { OnErr result (AppendsPrefix (O.written out.old) (O.written out.new) (header_object head.now)) }
    ensures fine { OnOk result (O.failures out.new ≡ O.failures out.old) }
    ensures stopped { IfErr result (FailsLines (Listing.Full Style.Json) O.failures out.old out.new) }
{
    let object = push_header(Vec::new(alloc), head)?;
    send_all(out, object.as_slice())?;
    Ok(())
}

/// Puts the line of the header, listed so: the first.
fn begin_lines<O: Sink>(
    alloc: Global,
    listing: Listing,
    line: &mut Line,
    head: &Head,
    out: &mut O,
) -> Result<(), ToolFault>
    requires { line.old.items ≡ [] }
    ensures puts { OnOk result (PutsText (O.written out.old) (O.written out.new) [] line.new.items
        (header_line listing head.now)) }
    ensures prefix { OnErr result (AppendsPrefix (O.written out.old) (O.written out.new)
        (header_line listing head.now)) }
    ensures fine { OnOk result (O.failures out.new ≡ O.failures out.old) }
    ensures stopped { IfErr result (FailsLines listing O.failures out.old out.new) }
{
    match listing {
        Listing::Short => {
            put_short_header(line);
            Ok(())
        }
        Listing::Full(Style::Plain) => {
            put_header_line(line, head);
            Ok(())
        }
        Listing::Full(Style::Json) => send_header(alloc, head, out),
    }
}

/// Sends the lines of a header within the limits, and of the frames behind it, listed so.
pub(crate) fn send_lines<O: Sink>(
    alloc: Global,
    listing: Listing,
    bytes: &[u8],
    out: &mut O,
) -> Result<(), ToolFault>
    ensures sent { (head : Head) (frames : List Frame) → SaysHead bytes.now head → HasFrames bytes.now head frames
        → OnOk result (Appends (O.written out.old) (O.written out.new) (listed_lines listing head frames)) }
    ensures prefix { (head : Head) (frames : List Frame) → SaysHead bytes.now head → HasFrames bytes.now head frames
        → OnErr result (AppendsPrefix (O.written out.old) (O.written out.new) (listed_lines listing head frames)) }
    ensures fine { OnOk result (O.failures out.new ≡ O.failures out.old) }
    ensures stopped { IfErr result (FailsLines listing O.failures out.old out.new) }
{
    if bytes.len() < HEADER_LEN {
        return Ok(());
    }
    let Some(head) = Head::read(&bytes[6..24]) else {
        return Ok(());
    };
    let mut line = Line::new();
    begin_lines(alloc, listing, &mut line, &head, out)?;
    put_frames(alloc, listing, &mut line, bytes, out)?;
    send_held(&mut line, out)?;
    Ok(())
}
