//! Laws about the definitions. Each body is empty: the contract is the law.

ghost use Rattle.std.specs.Prelude.{ℕ};
ghost use Rattle.eve_grammar.specs.Trace.{Trace};
ghost use Rattle.eve_history.specs.SectionHistory.{IsRightSection};
ghost use Rattle.eve_agree.specs.Tables.{IsRestored, RestoresAreRight};

/// In a right section whose rollbacks restore what they must, the replica works on what is committed after each of
/// them, versions too.
///
/// docs/MODEL.md, "The audit theorem".
pub fn rollbacks_restore_what_is_committed()
    ensures { (t : Trace) (e : ℕ) → IsRightSection t e → RestoresAreRight t e → (k : ℕ) → IsRestored t e k }
{}
