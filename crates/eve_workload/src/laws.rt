//! What follows from the definitions, of all texts and of all requests. The functions do nothing; their contracts are
//! the laws.

ghost use Rattle.std.specs.Prelude.{◌≡◌, List, ℕ, All, IsPermutation};
ghost use Rattle.eve_grammar.specs.Trace.{Asked};
ghost use Rattle.eve_workload.specs.declared.mixer.Mixer.{Mixer};
ghost use Rattle.eve_workload.specs.declared.mixer.Mixer.TheVariants.{First};
ghost use Rattle.eve_workload.specs.Mixers.{cut, batch_with, AreApart};
ghost use Rattle.eve_workload.specs.Workload.{Workload, IsWorkload};
ghost use Rattle.eve_workload.specs.Lines.{workload_text};
ghost use Rattle.eve_workload.specs.Steps.{IsBadLine};

/// A text has at most one bad line in a format.
pub fn bad_lines_are_unique()
    ensures { (format : ℕ) → (text : List ℕ) → (m n : ℕ) → IsBadLine format text m → IsBadLine format text n → m ≡ n }
{}

/// A text is of at most one workload in a format.
pub fn workloads_are_unique()
    ensures { (w v : Workload) → IsWorkload w → IsWorkload v → w.format ≡ v.format
        → workload_text w ≡ workload_text v → w ≡ v }
{}

/// The text of a workload has no bad line in its format.
pub fn workloads_have_no_bad_line()
    ensures { (w : Workload) → IsWorkload w → (n : ℕ) → ¬ IsBadLine w.format (workload_text w) n }
{}

/// No two requests of a parallelBatch that the first mixer made are in conflict.
pub fn parallel_batches_are_apart()
    ensures { (names : List (List ℕ)) → (requests : List Asked) → All (AreApart names) (cut names First requests) }
{}

/// A cut keeps each request, and adds none.
pub fn cuts_keep_requests()
    ensures { (names : List (List ℕ)) → (mixer : Mixer) → (requests : List Asked) →
        IsPermutation requests (batch_with (cut names mixer requests)).requests }
{}
