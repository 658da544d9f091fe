//! The workers' lists of records.

ghost use Rattle.std.specs.Prelude.{◌≡◌, ◌<◌, ◌++◌, [], ◌∷◌, map, OnOk, OnErr, slice_set, slice_index_or, vec_len};

use eve_stamps::AccessRecord;
use std::alloc::AllocError;

/// The record goes to the end of the worker's list.
pub fn append(
    noted: &mut Vec<Vec<AccessRecord>>,
    worker: u8,
    made: AccessRecord,
) -> Result<(), AllocError>
    requires there { worker < vec_len noted.old }
    ensures appended { OnOk result (map (λ v. v.items) noted.new.items
        ≡ slice_set (map (λ v. v.items) noted.old.items) worker
        (slice_index_or (map (λ v. v.items) noted.old.items) worker [] ++ made ∷ [])) }
    ensures kept { OnErr result (map (λ v. v.items) noted.new.items ≡ map (λ v. v.items) noted.old.items) }
{
    noted[worker as usize].push(made)?;
    Ok(())
}
