//! What shows a fault of the header.

ghost use Rattle.std.specs.Prelude.{◌≡◌, ◌≤◌, ◌+◌, IfSome, IfNone, IsTrue, IsFalse, length, take};
ghost use Rattle.std.specs.List.{AllByRecursion};
ghost use Rattle.eve_grammar.specs.declared.head.Head.{Head as HeadValue};
ghost use Rattle.eve_views.specs.Form.{is_sized, SaysHead};
ghost use Rattle.eve_evidence_form.specs.Header.{decoded, number, head_numbers};
ghost use Rattle.eve_evidence_form.specs.Header.{LiesWithin, IsLengthFault, TellsMagic, IsFirstWrongNumber};

use byteorder::{BigEndian, ByteOrder};
use eve_evidence::{HeadField, LengthFault, item_at};
use eve_grammar::{
    HEADER_LEN, MOST_BATCHES, MOST_BYTES, MOST_REPLICAS, MOST_VERIFIERS, MOST_WINDOW, MOST_WORKERS,
    NEWEST_VERSION, most_customers,
};

/// A number of the header, as it stands there.
///
/// docs/TRACE.md, "Header".
#[derive(Clone, Copy)]
pub struct HeadNumber {
    /// Its name.
    pub field: HeadField,
    /// Its first byte.
    pub at: u64,
    /// What it says.
    pub found: u32,
    /// The least number that it may say.
    pub least: u32,
    /// The greatest number that it may say.
    pub most: u32,
}

/// What is wrong with the length of the bytes, if anything is.
fn wrong_length(bytes: &[u8]) -> Option<LengthFault>
    ensures wrong { IfSome result (IsLengthFault bytes.now) }
    ensures right { IfNone result (IsTrue (is_sized bytes.now)) }
{
    if bytes.len() < HEADER_LEN {
        return Some(LengthFault::TooShort);
    }
    if MOST_BYTES < bytes.len() {
        return Some(LengthFault::TooLong);
    }
    let total = BigEndian::read_u64(&bytes[24..]);
    if total != bytes.len() as u64 {
        return Some(LengthFault::Another(total));
    }
    None
}

/// What is wrong with the length of bytes that are no trace for it.
pub fn length_fault(bytes: &[u8]) -> LengthFault
    requires { IsFalse (is_sized bytes.now) }
    ensures { IsLengthFault bytes.now result }
{
    match wrong_length(bytes) {
        Some(wrong) => wrong,
        None => unreachable!(),
    }
}

/// The first six bytes.
pub fn first_six(bytes: &[u8]) -> [u8; 6]
    requires { 6 ≤ length bytes.now }
    ensures { result ≡ take 6 bytes.now }
{
    let mut found = [0; 6];
    found.copy_from_slice(&bytes[..6]);
    found
}

/// The first six bytes, if there are as many as a header has, and these aren't a trace's.
pub fn other_magic(bytes: &[u8]) -> Option<[u8; 6]>
    ensures { TellsMagic bytes.now result }
{
    if bytes.len() < HEADER_LEN || bytes.starts_with(b"EVESBK") {
        return None;
    }
    Some(first_six(bytes))
}

/// A number of the header that has one byte.
fn byte_number(bytes: &[u8], field: HeadField, at: u64, least: u8, most: u8) -> HeadNumber
    requires { at + 1 ≤ length bytes.now }
    ensures { result ≡ number field at (decoded 1 at bytes.now) least most }
{
    HeadNumber {
        field,
        at,
        found: u32::from(bytes[at as usize]),
        least: u32::from(least),
        most: u32::from(most),
    }
}

/// The numbers of a header, in the order of their bytes.
fn head_numbers(bytes: &[u8]) -> [HeadNumber; 11]
    requires { 24 ≤ length bytes.now }
    ensures { result ≡ head_numbers bytes.now }
{
    let version = BigEndian::read_u16(&bytes[6..]);
    let verifiers = bytes[9];
    [
        HeadNumber {
            field: HeadField::Version,
            at: 6,
            found: u32::from(version),
            least: 1,
            most: u32::from(NEWEST_VERSION),
        },
        byte_number(bytes, HeadField::Replicas, 8, 1, MOST_REPLICAS),
        byte_number(bytes, HeadField::Verifiers, 9, 1, MOST_VERIFIERS),
        byte_number(bytes, HeadField::Quorum, 10, verifiers / 2 + 1, verifiers),
        byte_number(bytes, HeadField::Window, 11, 1, MOST_WINDOW),
        byte_number(bytes, HeadField::Workers, 12, 1, MOST_WORKERS),
        byte_number(bytes, HeadField::Zero, 13, 0, 0),
        byte_number(bytes, HeadField::Zero, 14, 0, 0),
        byte_number(bytes, HeadField::Zero, 15, 0, 0),
        HeadNumber {
            field: HeadField::Customers,
            at: 16,
            found: BigEndian::read_u32(&bytes[16..]),
            least: 1,
            most: most_customers(version),
        },
        HeadNumber {
            field: HeadField::Batches,
            at: 20,
            found: BigEndian::read_u32(&bytes[20..]),
            least: 0,
            most: MOST_BATCHES,
        },
    ]
}

/// Whether a number lies within its range.
fn lies_within(number: &HeadNumber) -> bool
    ensures yes { IsTrue result → LiesWithin number.now }
    ensures no { IsFalse result → ¬ LiesWithin number.now }
{
    number.least <= number.found && number.found <= number.most
}

/// The first number of a header that lies out of its range, if one does.
fn wrong_number(bytes: &[u8]) -> Option<HeadNumber>
    requires { 24 ≤ length bytes.now }
    ensures first { IfSome result (IsFirstWrongNumber bytes.now) }
    ensures none { IfNone result (AllByRecursion LiesWithin (head_numbers bytes.now)) }
{
    let numbers = head_numbers(bytes);
    for i in 0..numbers.len() {
        let number = item_at(&numbers, i);
        if !lies_within(&number) {
            return Some(number);
        }
    }
    None
}

/// The first number that lies out of its range in a header that is wrong.
pub fn head_fault(bytes: &[u8]) -> HeadNumber
    requires long { 24 ≤ length bytes.now }
    requires wrong { (h : HeadValue) → ¬ SaysHead bytes.now h }
    ensures { IsFirstWrongNumber bytes.now result }
{
    match wrong_number(bytes) {
        Some(number) => number,
        None => unreachable!(),
    }
}
