//! Laws about the definitions. Each body is empty: the contract is the law.

ghost use Rattle.std.specs.Prelude.{◌≡◌, ℕ};
ghost use Rattle.eve_grammar.specs.Trace.{Trace};
ghost use Rattle.eve_views.specs.declared.fault.Code.{Code};
ghost use Rattle.eve_views.specs.declared.fault.Code.TheVariants as code;
ghost use Rattle.eve_history.specs.Structure.{StandsInStructure};
ghost use Rattle.eve_chains.specs.Faults.{StandsInRecords, StandsInChains};
ghost use Rattle.eve_evidence.specs.Section.{StandsAlong};

/// A fault of structure, of records or of chains stands at a step of its section: so `section_evidence` shows it. One
/// of a certificate does so where its attempt is right.
///
/// docs/MODEL.md, "Evidence".
pub fn faults_stand_along_the_section()
    ensures structure { (t : Trace) (c : Code) (e at : ℕ) → StandsInStructure c t e at
        → (c ≡ code.Certificate → ¬ StandsInStructure code.Attempt t e at) → StandsAlong c t e at }
    ensures records { (t : Trace) (c : Code) (e at : ℕ) → StandsInRecords c t e at → StandsAlong c t e at }
    ensures chains { (t : Trace) (c : Code) (e at : ℕ) → StandsInChains c t e at → StandsAlong c t e at }
{}
