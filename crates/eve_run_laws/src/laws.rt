//! Laws about the definitions. A body calls the laws that its own stands on: the contract is the law.

ghost use Rattle.std.specs.Prelude.{◌≡◌, ◌⊎◌, ℕ, List};
ghost use Rattle.eve_grammar.specs.Trace.{Trace};
ghost use Rattle.eve_grammar.specs.Limits.{HasLimits};
ghost use Rattle.eve_grammar.specs.Places.{IsBytes};
ghost use Rattle.eve_grammar.specs.FrameOrder.{Spells};
ghost use Rattle.eve_views.specs.declared.fault.Code.TheVariants as code;
ghost use Rattle.eve_views.specs.declared.fault.Fault.{Fault};
ghost use Rattle.eve_views.specs.Form.{IsFaultSomewhere};
ghost use Rattle.eve_workload.specs.declared.mixer.Mixer.{Mixer};
ghost use Rattle.eve_workload.specs.Workload.{Workload, IsWorkload};
ghost use Rattle.eve_replica.specs.Run.{IsTraceOf};
ghost use Rattle.eve_audit.specs.Audited.{IsAudited};
ghost use Rattle.eve_audit.specs.declared.verdict.Summary.{Summary};
ghost use Rattle.eve_audit.specs.declared.verdict.Verdict.TheVariants.{Yes, No};
ghost use Rattle.eve_audit.specs.Verdict.{IsTraceFault, IsVerdict};
ghost use Rattle.eve_tool.specs.Audit.{Audits};
ghost use Rattle.eve_tool.specs.Run.{Runs};
ghost use Rattle.eve_tool_arguments.specs.declared.format.Format.{Format};
ghost use Rattle.eve_run_laws.specs.Collision.{Collides};
ghost use Rattle.eve_run_laws.specs.RolledBack.{AreRolledBackOnce};
ghost use Rattle.eve_agree.specs.Agreement.{StandsInAgreement};

/// No fault stands in the trace of a run but one of agreement, and where one does the trace shows a collision of
/// SHA-256: two replicas committed a batch by one token, though it came to something else in each.
///
/// docs/DEPLOYMENT.md, "A run is accepted".
pub fn faults_of_runs_are_collisions()
    ensures { (w : Workload) (mixer : Mixer) (t : Trace) (f : Fault) → IsWorkload w → IsTraceOf w mixer t → HasLimits t
        → IsTraceFault t f → IsFaultSomewhere StandsInAgreement t f × Collides t }
{
    eve_workload::laws::cuts_keep_requests();
    eve_chains::laws::sound_sections_have_no_fault();
}

/// As the verdict, F80 Outcome comes only where the trace shows a collision of SHA-256, whoever recorded that trace:
/// two replicas committed a batch by one token, though it came to something else in each.
///
/// docs/MODEL.md, "Agreement".
pub fn outcome_verdicts_are_collisions()
    ensures { (bytes : List ℕ) (t : Trace) (f : Fault) → Spells bytes t → IsVerdict bytes (No f)
        → f.code ≡ code.Outcome → Collides t }
{
    eve_grammar::laws::bytes_spell_one_trace();
    eve_audit::laws::faults_of_agreement_come_late();
}

/// The verdict on bytes that spell the trace of a run is yes, or the trace shows two messages that differ and have one
/// SHA-256.
///
/// docs/DEPLOYMENT.md, "A run is accepted".
pub fn runs_are_accepted()
    ensures { (w : Workload) (mixer : Mixer) (t : Trace) (bytes : List ℕ) → IsBytes bytes → IsWorkload w
        → IsTraceOf w mixer t → Spells bytes t → ((s : Summary) × IsVerdict bytes (Yes s)) ⊎ Collides t }
{
    faults_of_runs_are_collisions();
    eve_grammar::laws::bytes_spell_one_trace();
    eve_views::laws::form_is_decided();
    eve_audit::laws::bytes_have_a_verdict();
}

/// A run is SmallBank on one thread, batch by batch in each replica, and all else that a yes says, whether it is
/// audited or not; or its trace shows two messages that differ and have one SHA-256.
///
/// docs/DEPLOYMENT.md, "A run is accepted".
pub fn runs_are_audited()
    ensures { (w : Workload) (mixer : Mixer) (t : Trace) (bytes : List ℕ) → IsBytes bytes → IsWorkload w
        → IsTraceOf w mixer t → Spells bytes t → IsAudited t ⊎ Collides t }
{
    runs_are_accepted();
    eve_audit::laws::a_yes_is_audited();
}

/// Of what the program wrote for `run` with status 0: where it says the verdict on that for `audit`, it is yes and the
/// status is 0, or the trace shows two messages that differ and have one SHA-256.
///
/// docs/DEPLOYMENT.md, "A run is accepted".
pub fn audits_of_runs_end_well()
    ensures { (limit : ℕ) (mixer : Mixer) (format : Format) (input written line : List ℕ) (status ended : ℕ)
        → IsBytes written → (run : Runs limit mixer format input written status) → Audits written line ended
        → (ended ≡ 0) ⊎ Collides run.trace }
{
    runs_are_accepted();
    eve_audit::laws::verdicts_are_unique();
}

/// In a run each batch is at most once the first of those that are rolled back: in no section two rollbacks go back to
/// the same number. Or the trace shows two messages that differ and have one SHA-256.
///
/// docs/DEPLOYMENT.md, "A run is accepted".
pub fn runs_roll_back_a_batch_once()
    ensures { (w : Workload) (mixer : Mixer) (t : Trace) → IsTraceOf w mixer t → HasLimits t
        → AreRolledBackOnce t ⊎ Collides t }
{
    eve_chains::laws::states_are_the_balances();
}
