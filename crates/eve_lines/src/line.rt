//! A line in a fixed array.

ghost use Rattle.std.specs.Prelude.{◌≡◌, ◌+◌, ◌≤◌, ◌++◌, [], ◌∷◌, length};
ghost use Rattle.arrayvec.specs.ArrayVec.{array_vec_len};
ghost use Rattle.eve_lines.specs.Words.{name_words, token_words};

use arrayvec::ArrayVec;

/// How many bytes of a line are held at once.
pub const LINE_ROOM: usize = 4096;

/// How many bytes are put at most by one call of a part.
pub const LONGEST_PART: usize = 512;

/// A line, or the part of one that is sent at once.
pub type Line = ArrayVec<u8, LINE_ROOM>;

/// How many bytes a number of 64 bits has at most, with its sign.
pub const LONGEST_NUMBER: usize = 20;

/// How many bytes a name has at most.
pub const LONGEST_NAME: usize = 24;

/// How many bytes a token has.
pub const TOKEN_LEN: usize = 32;

/// Appends bytes.
#[inline(always)]
pub fn put_bytes(line: &mut Line, bytes: &[u8])
    requires { array_vec_len line.old + length bytes.now ≤ LINE_ROOM }
    ensures items { line.new.items ≡ line.old.items ++ bytes.now }
    ensures len { array_vec_len line.new ≡ array_vec_len line.old + length bytes.now }
{
    let Ok(()) = line.try_extend_from_slice(bytes) else {
        unreachable!()
    };
}

/// Appends text.
#[inline(always)]
pub fn put(line: &mut Line, text: &str)
    requires { array_vec_len line.old + length text.now ≤ LINE_ROOM }
    ensures items { line.new.items ≡ line.old.items ++ text.now }
    ensures len { array_vec_len line.new ≡ array_vec_len line.old + length text.now }
{
    put_bytes(line, text.as_bytes());
}

/// Appends a name.
#[inline(always)]
pub fn put_name(line: &mut Line, name: &[u8])
    requires { array_vec_len line.old + LONGEST_NAME ≤ LINE_ROOM }
    ensures items { line.new.items ≡ line.old.items ++ name_words name.now }
    ensures len { array_vec_len line.new ≤ array_vec_len line.old + LONGEST_NAME }
{
    let len = name.len().min(LONGEST_NAME);
    put_bytes(line, &name[..len]);
}

/// Appends a token of 32 bytes in 64 hexadecimal digits.
pub fn put_token(line: &mut Line, token: &[u8])
    requires { array_vec_len line.old + 64 ≤ LINE_ROOM }
    ensures items { line.new.items ≡ line.old.items ++ token_words token.now }
    ensures len { array_vec_len line.new ≤ array_vec_len line.old + 64 }
{
    let len = token.len().min(TOKEN_LEN);
    let mut digits = [0; 2 * TOKEN_LEN];
    let text = &mut digits[..2 * len];
    let Ok(()) = hex::encode_to_slice(&token[..len], text) else {
        unreachable!()
    };
    put_bytes(line, text);
}

/// Ends the line.
#[inline(always)]
pub fn put_line_feed(line: &mut Line)
    requires { array_vec_len line.old + 1 ≤ LINE_ROOM }
    ensures items { line.new.items ≡ line.old.items ++ 10 ∷ [] }
    ensures len { array_vec_len line.new ≡ array_vec_len line.old + 1 }
{
    line.push(b'\n');
}
