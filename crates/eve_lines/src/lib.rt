//! The words of lines: frames, requests, rows, entries, replies and tokens as text, in a fixed array and without
//! memory.
#![tactic(auto)]

mod frame;
mod heads;
pub mod laws;
mod line;
mod lists;
mod number;
mod table;
mod words;

pub use frame::FrameWords;
pub use heads::put_header;
pub use line::{
    LINE_ROOM, LONGEST_NAME, LONGEST_NUMBER, LONGEST_PART, Line, TOKEN_LEN, put, put_bytes,
    put_line_feed, put_name, put_token,
};
pub use number::{put_number, put_numbered, put_signed};
pub use words::{kind_name, kind_word, mode_word, put_entry, put_reply, put_request};
