//! Numbers in decimal digits, which are put one by one where they are few.

ghost use Rattle.std.specs.Prelude.{◌≡◌, ◌+◌, ◌/◌, ◌%◌, ◌<◌, ◌≤◌, ◌++◌, [], ◌∷◌, decimal, length};
ghost use Rattle.std.specs.Fmt.{signed_decimal};
ghost use Rattle.arrayvec.specs.ArrayVec.{array_vec_len};

use crate::line::{LINE_ROOM, LONGEST_NUMBER, Line, put};
use itoa::{Buffer, Integer};

/// Numbers below it have few digits: eight at most.
const FEW_DIGITS: u64 = 100_000_000;

/// The two digits of each number below 100.
static PAIRS: [u8; 200] = *b"\
0001020304050607080910111213141516171819\
2021222324252627282930313233343536373839\
4041424344454647484950515253545556575859\
6061626364656667686970717273747576777879\
8081828384858687888990919293949596979899";

/// Appends the two digits of a number below 100.
#[inline(always)]
fn put_pair(line: &mut Line, pair: u64)
    requires room { array_vec_len line.old + 2 ≤ LINE_ROOM }
    requires small { pair < 100 }
    ensures items { line.new.items ≡ line.old.items ++ (48 + pair / 10) ∷ (48 + pair % 10) ∷ [] }
    ensures len { array_vec_len line.new ≡ array_vec_len line.old + 2 }
{
    let from = pair as usize * 2;
    line.push(PAIRS[from]);
    line.push(PAIRS[from + 1]);
}

/// Appends a number below 100.
#[inline(always)]
fn put_below_100(line: &mut Line, number: u64)
    requires room { array_vec_len line.old + 2 ≤ LINE_ROOM }
    requires small { number < 100 }
    ensures items { line.new.items ≡ line.old.items ++ decimal number }
    ensures len { array_vec_len line.new ≤ array_vec_len line.old + 2 }
{
    if number < 10 {
        line.push(b'0' + number as u8);
        return;
    }
    put_pair(line, number);
}

/// Appends a number below 10,000.
#[inline(always)]
fn put_below_10000(line: &mut Line, number: u64)
    requires room { array_vec_len line.old + 4 ≤ LINE_ROOM }
    requires small { number < 10000 }
    ensures items { line.new.items ≡ line.old.items ++ decimal number }
    ensures len { array_vec_len line.new ≤ array_vec_len line.old + 4 }
{
    if number < 100 {
        return put_below_100(line, number);
    }
    put_below_100(line, number / 100);
    put_pair(line, number % 100);
}

/// Appends a number of any length.
#[inline(never)]
fn put_long<I: Integer>(line: &mut Line, number: I)
    requires { array_vec_len line.old + I.MAX_STR_LEN ≤ LINE_ROOM }
    ensures items { line.new.items ≡ line.old.items ++ I.text number }
    ensures len { array_vec_len line.new ≤ array_vec_len line.old + I.MAX_STR_LEN }
{
    let mut digits = Buffer::new();
    put(line, digits.format(number));
}

/// Appends a number.
pub fn put_number(line: &mut Line, number: u64)
    requires { array_vec_len line.old + LONGEST_NUMBER ≤ LINE_ROOM }
    ensures items { line.new.items ≡ line.old.items ++ decimal number }
    ensures len { array_vec_len line.new ≤ array_vec_len line.old + LONGEST_NUMBER }
{
    if number < 10_000 {
        return put_below_10000(line, number);
    }
    if number >= FEW_DIGITS {
        return put_long(line, number);
    }
    put_below_10000(line, number / 10_000);
    put_pair(line, number % 10_000 / 100);
    put_pair(line, number % 100);
}

/// Appends a word, and a number behind it.
#[inline(always)]
pub fn put_numbered(line: &mut Line, word: &str, number: u64)
    requires { array_vec_len line.old + length word.now + LONGEST_NUMBER ≤ LINE_ROOM }
    ensures items { line.new.items ≡ line.old.items ++ (word.now ++ decimal number) }
    ensures len { array_vec_len line.new ≤ array_vec_len line.old + length word.now + LONGEST_NUMBER }
{
    put(line, word);
    put_number(line, number);
}

/// Appends a number that may be negative.
pub fn put_signed(line: &mut Line, amount: i64)
    requires { array_vec_len line.old + LONGEST_NUMBER ≤ LINE_ROOM }
    ensures items { line.new.items ≡ line.old.items ++ signed_decimal amount }
    ensures len { array_vec_len line.new ≤ array_vec_len line.old + LONGEST_NUMBER }
{
    if amount < 0 {
        return put_long(line, amount);
    }
    put_number(line, amount.unsigned_abs());
}
