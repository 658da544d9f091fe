//! Reading a source to its end, or to a limit.

ghost use Rattle.std.specs.Prelude.{◌≡◌, ◌+◌, ◌≤◌, take, vec_len, IfOk, OnOk, OnErr, IfErr, IfSome};
ghost use Rattle.std.specs.Io.KnownBytes.{Consumes, IsAtEnd};
ghost use Rattle.eve_streams.specs.Failures.{after_failure};
ghost use Rattle.eve_streams.specs.Prefix.{ConsumesSome};

use crate::Source;
use std::alloc::Global;

/// Why a source was not read.
#[derive(Clone, Copy, Debug)]
pub enum ReadFault {
    /// The source failed.
    Read,
    /// Memory ran out.
    Memory,
}

/// How many bytes one fetch has room for.
const CHUNK: usize = 64 * 1024;

/// Reads the source to its end, and no further than `limit + 1` bytes: more than `limit` bytes say that the source has
/// too many. `Read` comes only where the source failed in this call, `Memory` where it ran out. After a fault what was
/// read is lost.
pub fn read_all<S: Source>(alloc: Global, source: &mut S, limit: u32) -> Result<Vec<u8>, ReadFault>
    ensures bytes { IfOk result
        (λ v. IfSome (S.remaining source.old) (λ bytes. v.items ≡ take (limit + 1) bytes)) }
    ensures rest { IfOk result
        (λ v. Consumes (S.remaining source.old) (S.remaining source.new) v.items) }
    ensures within { IfOk result (λ v. vec_len v ≤ limit + 1) }
    ensures end { IfOk result (λ v. vec_len v ≤ limit → IsAtEnd (S.remaining source.new)) }
    ensures fine { OnOk result (S.failures source.new ≡ S.failures source.old) }
    ensures counted { IfErr result
        (λ fault. fault ≡ ReadFault.Read → S.failures source.new ≡ after_failure (S.failures source.old)) }
    ensures no_failure { IfErr result
        (λ fault. fault ≡ ReadFault.Memory → S.failures source.new ≡ S.failures source.old) }
    ensures lost { OnErr result (ConsumesSome (S.remaining source.old) (S.remaining source.new)) }
{
    let most = limit as usize + 1;
    let mut bytes = Vec::new(alloc);
    let mut chunk = [0u8; CHUNK];
    'chunks: while bytes.len() < most {
        let room = CHUNK.min(most - bytes.len());
        let Ok(n) = source.fetch(&mut chunk[..room]) else {
            return Err(ReadFault::Read);
        };
        if n == 0 {
            break;
        }
        let Ok(()) = bytes.extend_from_slice(&chunk[..n]) else {
            return Err(ReadFault::Memory);
        };
    }
    Ok(bytes)
}
