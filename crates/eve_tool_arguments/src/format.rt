//! Formats of traces.

ghost use Rattle.std.specs.Prelude.{◌≡◌, ◌≤◌};
ghost use Rattle.eve_tool_arguments.specs.Formats.{format_named, version_of};

use eve_grammar::NEWEST_VERSION;

/// The format of a workload and of the trace of its run. docs/TRACE.md has both.
#[derive(Clone, Copy)]
pub enum Format {
    /// A replica whose token differs from the majority's stops.
    One,
    /// The state of one that committed is transferred to it, and it goes on.
    Two,
}

impl Format {
    /// The format of that name: `1` or `2`; `None` of another.
    pub fn named(name: &str) -> Option<Self>
        ensures { result ≡ format_named name.now }
    {
        if name == "1" {
            Some(Format::One)
        } else if name == "2" {
            Some(Format::Two)
        } else {
            None
        }
    }

    /// The version that the header of a trace of this format has.
    pub fn version(self) -> u16
        ensures is { result ≡ version_of self }
        ensures known { (1 ≤ result) × (result ≤ NEWEST_VERSION) }
    {
        match self {
            Format::One => 1,
            Format::Two => 2,
        }
    }
}
