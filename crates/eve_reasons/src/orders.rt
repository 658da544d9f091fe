//! Which name or request stands twice.

ghost use Rattle.std.specs.Prelude.{◌≡◌};
ghost use Rattle.eve_reasons.specs.Lines.{and_lines};
ghost use Rattle.eve_reasons.specs.Orders.{same_name_lines, same_request_lines};

use crate::lines::Lines;
use crate::word::Value::{Frame, Name, Number, Request};
use crate::word::Word;
use eve_evidence::ToldRequest;
use eve_grammar::FrameKind;

/// Says a name that stands twice, first at customer `first`, whose frame begins at byte `first_at`.
pub(crate) fn say_same_name(lines: &mut Lines, name: &[u8], first: u32, first_at: u64)
    ensures { lines.new ≡ and_lines (same_name_lines name.now first first_at) lines.old }
{
    lines.say(&[Word("name: ", Name(name))]);
    lines.say(&[
        Word("first: customer ", Number(first as u64)),
        Word(", ", Frame(FrameKind::Customer, first_at)),
    ]);
}

/// Says a request whose client and number stand earlier, first in the Batch frame that begins at byte `first_at`.
pub(crate) fn say_same_request<'e>(
    lines: &mut Lines,
    request: &'e ToldRequest<'e>,
    first: &'e ToldRequest<'e>,
    first_at: u64,
)
    ensures { lines.new ≡ and_lines (same_request_lines request.now first.now first_at) lines.old }
{
    lines.say(&[Word("request: ", Request(request))]);
    lines.say(&[
        Word("first: ", Request(first)),
        Word(", ", Frame(FrameKind::Batch, first_at)),
    ]);
}
