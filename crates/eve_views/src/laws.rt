//! Laws about the definitions. Each body is empty: the contract is the law.

ghost use Rattle.std.specs.Prelude.{◌≡◌, ◌≤◌, ◌+◌, ◌*◌, ◌⊎◌, ℕ, List, Some};
ghost use Rattle.eve_views.specs.Cut.{part_start};
ghost use Rattle.eve_grammar.specs.Trace.{Trace};
ghost use Rattle.eve_grammar.specs.Places.{IsBytes};
ghost use Rattle.eve_grammar.specs.FrameOrder.{Spells};
ghost use Rattle.eve_views.specs.Form.{IsLeast, Precedes, StandsInForm, IsFaultOutside};
ghost use Rattle.eve_views.specs.First.{first_of};
ghost use Rattle.eve_views.specs.inner.PartPlaces.{StandInOrder};
ghost use Rattle.eve_views.specs.declared.fault.Fault.{Fault};

/// Bytes have a first fault of form, or they spell a trace, and never both.
///
/// docs/MODEL.md, "Faults".
pub fn form_is_decided()
    ensures decided { (bytes : List ℕ) → IsBytes bytes
        → ((f : Fault) × IsLeast (IsFaultOutside StandsInForm bytes) f) ⊎ ((t : Trace) × Spells bytes t) }
    ensures apart { (bytes : List ℕ) (f : Fault) (t : Trace) → IsBytes bytes → IsFaultOutside StandsInForm bytes f
        → ¬ Spells bytes t }
{}

/// The parts of a trace stand one after another, and what they consist of lies in them.
///
/// docs/TRACE.md, "Order of frames" and "Parts".
pub fn parts_stand_in_order()
    ensures { (t : Trace) → StandInOrder t }
{}

/// Faults come one before another: what precedes a fault precedes those that it precedes. The first of two is one of
/// them, and precedes both.
///
/// docs/MODEL.md, "Verdict".
pub fn faults_come_one_before_another()
    ensures further { (f g h : Fault) → Precedes f g → Precedes g h → Precedes f h }
    ensures first { (f g : Fault) → (h : Fault) × (first_of (Some f) (Some g) ≡ Some h) × ((h ≡ f) ⊎ (h ≡ g))
        × Precedes h f × Precedes h g }
{}

/// Parts that `part_at` gives follow one another from 0 on; those of a size that `part_size` gives have all items.
pub fn parts_are_all()
    ensures first { (count size : ℕ) → part_start count size 0 ≡ 0 }
    ensures rising { (count size place : ℕ) → part_start count size place ≤ part_start count size (place + 1) }
    ensures last { (count size parts : ℕ) → count ≤ parts * size → part_start count size parts ≡ count }
{}
