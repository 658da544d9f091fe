//! The header of a trace.

ghost use Rattle.std.specs.Prelude.{◌≡◌, IfOk, IfErr};
ghost use Rattle.eve_views.specs.Form.{is_sized, has_magic};
ghost use Rattle.eve_views.specs.inner.Header.{IsHeader, StopsAtHeader};

use crate::fault::Code;
use byteorder::{BigEndian, ByteOrder};
use eve_grammar::{HEADER_LEN, Head, MOST_BYTES};

/// Whether there are as many bytes as a trace may have and as the header says.
/// Decides F1 Length.
fn is_sized(bytes: &[u8]) -> bool
    ensures { result ≡ is_sized bytes.now }
{
    HEADER_LEN <= bytes.len()
        && bytes.len() <= MOST_BYTES
        && BigEndian::read_u64(&bytes[24..]) == bytes.len() as u64
}

/// Whether the bytes begin as those of a trace.
/// Decides F2 Magic.
fn has_magic(bytes: &[u8]) -> bool
    ensures { result ≡ has_magic bytes.now }
{
    bytes.starts_with(b"EVESBK")
}

/// The head that the header says, or the first fault of the header.
///
/// docs/TRACE.md, "Header".
pub fn head_of(bytes: &[u8]) -> Result<Head, Code>
    ensures head { IfOk result (λ h. IsHeader bytes.now h) }
    ensures fault { IfErr result (StopsAtHeader bytes.now) }
{
    if !is_sized(bytes) {
        return Err(Code::Length);
    }
    if !has_magic(bytes) {
        return Err(Code::Magic);
    }
    match Head::read(&bytes[6..24]) {
        Some(head) => Ok(head),
        None => Err(Code::Head),
    }
}
