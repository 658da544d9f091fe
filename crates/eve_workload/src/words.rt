//! Words of a line.

ghost use Rattle.std.specs.Prelude.{◌≡◌, ◌≢◌, ◌↔◌, ℕ, ◌-◌, ◌<◌, ◌≤◌, List, ◌++◌, length, slice_index};
ghost use Rattle.std.specs.Prelude.{IfSome, IfNone, IsTrue, vec_capacity};
ghost use Rattle.std.specs.List.{list_all};
ghost use Rattle.eve_workload.specs.Lines.{text_of_words};
ghost use Rattle.eve_workload.specs.inner.Words.{is_inside, bytes_of, HasLineFeed, IsFirstLine};

const SPACE: u8 = b' ';

const LINE_FEED: u8 = b'\n';

/// How many words a line of a workload has at most.
pub(crate) const MOST_WORDS: usize = 6;

/// How long the text is up to its last line feed, and with it.
pub(crate) fn lines_len(text: &[u8]) -> usize
    ensures within { result ≤ length text.now }
    ensures feed { 0 < result → slice_index text.now (result - 1) ≡ 10 }
    ensures none { (at : ℕ) → result ≤ at → at < length text.now → slice_index text.now at ≢ 10 }
{
    let mut len = text.len();
    while len > 0 && text[len - 1] != LINE_FEED {
        len -= 1;
    }
    len
}

/// The words of the first line, which stand in place of those before, and how long it is with its line feed.
/// `None` where it has more words than a line of a workload, or a byte that stands in none.
pub(crate) fn split_line<'a>(text: &'a [u8], words: &mut Vec<&'a [u8]>) -> Option<usize>
    requires feed { HasLineFeed text.now 0 }
    requires room { MOST_WORDS ≤ vec_capacity words.old }
    ensures found { IfSome result (IsFirstLine text.entry.now (bytes_of words.new.items)) }
    ensures none { IfNone result ((ws : List (List ℕ)) (behind : List ℕ) → length ws ≤ MOST_WORDS
        → IsTrue (list_all (list_all is_inside) ws) → text.entry.now ≢ text_of_words ws ++ behind) }
    ensures room { vec_capacity words.new ≡ vec_capacity words.old }
{
    words.clear();
    let mut from = 0;
    let mut at = 0;
    loop {
        let byte = text[at];
        if !is_inside(byte) {
            words.push_reserved(&text[from..at]);
            if byte == LINE_FEED {
                return Some(at + 1);
            }
            if byte != SPACE {
                return None;
            }
            if words.len() == MOST_WORDS {
                return None;
            }
            from = at + 1;
        }
        at += 1;
    }
}

/// Whether the byte may stand in a word.
fn is_inside(byte: u8) -> bool
    ensures { result ≡ is_inside byte }
{
    byte > SPACE
}

/// Whether the word is this one.
pub(crate) fn says(word: &[u8], text: &[u8]) -> bool
    ensures { IsTrue result ↔ (word.now ≡ text.now) }
{
    word == text
}
