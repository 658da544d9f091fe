//! What a frame says, in words.

ghost use Rattle.std.specs.Prelude.{◌≡◌, ◌+◌, ◌<◌, ◌≤◌, ◌++◌, false, IsFalse, IsTrue, length};
ghost use Rattle.arrayvec.specs.ArrayVec.{array_vec_len};
ghost use Rattle.eve_grammar.specs.declared.frame_kind.TheConstants.{FRAME_HEAD_LEN};
ghost use Rattle.eve_lines.specs.Rest.{PutsPart, items_left, short_words, words_in, words_left, words_of_kind};
ghost use Rattle.eve_lines.specs.Words.{list_words};

use crate::heads::{
    begin_access, begin_attempt, begin_batch, begin_rollback, begin_transfer, put_commit,
    put_customer, put_number_frame, put_sent, put_vote,
};
use crate::line::{LINE_ROOM, LONGEST_PART, Line};
use crate::lists::{Items, Numbers};
use crate::table::{Value, put_word};
use eve_grammar::{
    ACCESS_FRAME, ATTEMPT_FRAME, BATCH_FRAME, COMMIT_FRAME, CUSTOMER_FRAME, FRAME_HEAD_LEN,
    REPLICA_FRAME, ROLLBACK_FRAME, SENT_FRAME, TRANSFER_FRAME, VERIFIER_FRAME, VOTE_FRAME,
};

/// The words of a frame that are still to come: what `eve show --long` says of it.
///
/// docs/USING.md, "What `show --long` prints".
#[derive(Drop)]
pub struct FrameWords<'a> {
    pub(crate) numbers: Numbers<'a>,
    pub(crate) items: Items<'a>,
    /// Whether an item came.
    pub(crate) has_begun: bool,
    /// The token behind the items.
    pub(crate) token: Option<&'a [u8]>,
}

/// Appends the words of a frame of this kind without lists, which is frame number `number` of its trace.
fn put_short(line: &mut Line, kind: u8, number: usize, frame: &[u8])
    requires room { array_vec_len line.old + LONGEST_PART ≤ LINE_ROOM }
    requires framed { FRAME_HEAD_LEN ≤ length frame.now }
    ensures { line.new.items ≡ line.old.items ++ short_words kind number frame.now }
{
    match kind {
        COMMIT_FRAME => put_commit(line, frame),
        CUSTOMER_FRAME => put_customer(line, number, frame),
        REPLICA_FRAME => put_number_frame(line, " replica ", frame),
        SENT_FRAME => put_sent(line, frame),
        VERIFIER_FRAME => put_number_frame(line, " verifier ", frame),
        VOTE_FRAME => put_vote(line, frame),
        _ => {}
    }
}

/// Appends the words of a frame of this kind up to its first list, and gives the others. It is frame number `number` of
/// its trace.
fn begin_kind<'a>(line: &mut Line, kind: u8, number: usize, frame: &'a [u8]) -> FrameWords<'a>
    requires room { array_vec_len line.old + LONGEST_PART ≤ LINE_ROOM }
    requires framed { FRAME_HEAD_LEN ≤ length frame.now }
    ensures { line.new.items ++ words_left result ≡ line.old.items ++ words_of_kind kind number frame.now }
{
    match kind {
        ACCESS_FRAME => begin_access(line, frame),
        ATTEMPT_FRAME => begin_attempt(line, frame),
        BATCH_FRAME => begin_batch(line, frame),
        ROLLBACK_FRAME => begin_rollback(line, frame),
        TRANSFER_FRAME => begin_transfer(line, frame),
        _ => {
            put_short(line, kind, number, frame);
            FrameWords::of(Items::None)
        }
    }
}

impl<'a> FrameWords<'a> {
    /// Items alone.
    #[tactic(auto, unfolding(crate::specs::Rest::words_left))]
    pub(crate) fn of(items: Items<'a>) -> FrameWords<'a>
        ensures { words_left result ≡ list_words false (items_left items.entry) }
    {
        FrameWords {
            numbers: Numbers::None,
            items,
            has_begun: false,
            token: None,
        }
    }

    /// Appends the words of a frame up to its first list, and gives the others: none, where its kind is not known or
    /// its body isn't right. It is frame number `number` of its trace, from 0.
    pub fn begin(line: &mut Line, number: usize, frame: &'a [u8]) -> FrameWords<'a>
        requires room { array_vec_len line.old + LONGEST_PART ≤ LINE_ROOM }
        requires framed { FRAME_HEAD_LEN ≤ length frame.now }
        ensures { line.new.items ++ words_left result ≡ line.old.items ++ words_in number frame.now }
    {
        begin_kind(line, frame[0], number, frame)
    }

    /// Appends the next part of them; no, where that was the last.
    #[tactic(auto, unfolding(crate::specs::Rest::words_left))]
    fn put_next(&mut self, line: &mut Line) -> bool
        requires { array_vec_len line.old + LONGEST_PART ≤ LINE_ROOM }
        ensures { PutsPart result line.old.items line.new.items (words_left self.old) (words_left self.new) }
    {
        if let Some(number) = self.numbers.next() {
            put_word(line, " ", Value::Number(u64::from(number)));
            return true;
        }
        if self.items.put_next(line, self.has_begun) {
            self.has_begun = true;
            return true;
        }
        if let Some(token) = self.token {
            put_word(line, " token ", Value::Token(token));
        }
        false
    }

    /// Appends as many of them as there is room for; no, where all have come.
    pub fn fill(&mut self, line: &mut Line) -> bool
        ensures more { IsTrue result → line.new.items ++ words_left self.new ≡ line.old.items ++ words_left self.old }
        ensures all { IsFalse result → line.new.items ≡ line.old.items ++ words_left self.old }
        ensures full { IsTrue result → LINE_ROOM < array_vec_len line.new + LONGEST_PART }
    {
        'parts: while line.len() <= LINE_ROOM - LONGEST_PART {
            if !self.put_next(line) {
                return false;
            }
        }
        true
    }
}
