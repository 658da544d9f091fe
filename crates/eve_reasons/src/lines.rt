//! Lines that are said one after another, of which one is kept.

ghost use Rattle.std.specs.Prelude.{◌≡◌, ◌<◌};
ghost use Rattle.std.specs.Option.{option_map};
ghost use Rattle.eve_reasons.specs.Lines.{and_line, none_yet};
ghost use Rattle.eve_reasons.specs.Words.{words_room, words_text};

use crate::word::{Word, put_words};
use eve_lines::{LINE_ROOM, Line, put_line_feed};
use std::marker::Model;

/// How many lines there are at most.
pub const MOST_LINES: usize = 64;

/// Lines, of which the one of a number is kept.
#[derive(Drop)]
pub(crate) struct Lines {
    /// How many lines come before that one.
    before: usize,
    /// That line, with its line feed, once it was said.
    line: Option<Line>,
}

impl Model for Lines {
    ghost use Rattle.std.specs.Option.{option_map};
    ghost use Rattle.eve_reasons.specs.Lines.{Kept};

    ghost Value = { Kept };

    ghost view = { λ l. record { before = l.before; line = option_map (λ line. line.items) l.line } };
}

impl Lines {
    /// No line yet. Number `i` is kept, from 0.
    pub(crate) fn keeping(i: usize) -> Lines
        ensures { result ≡ none_yet i }
    {
        Lines {
            before: i,
            line: None,
        }
    }

    /// Says a line of these words.
    #[tactic(auto, unfolding(crate::specs::Lines::and_line))]
    pub(crate) fn say(&mut self, words: &[Word<'_>])
        requires { words_room words.now < LINE_ROOM }
        ensures { self.new ≡ and_line (words_text words.now) self.old }
    {
        if self.before > 0 {
            self.before -= 1;
            return;
        }
        if self.line.is_none() {
            let mut line = Line::new();
            put_words(&mut line, words);
            put_line_feed(&mut line);
            self.line = Some(line);
        }
    }

    /// The line that was kept; none, where there were too few.
    pub(crate) fn kept(self) -> Option<Line>
        ensures { option_map (λ line. line.items) result ≡ self.line }
    {
        let Lines { before: _, line } = self;
        line
    }
}
