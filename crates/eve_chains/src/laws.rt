//! Laws about the definitions. Each body is empty: the contract is the law.

ghost use Rattle.std.specs.Prelude.{ℕ, ◌≡◌, ◌-◌, ◌∷◌, ◌++◌, suc, List, IsTrue, length, map, Some, AllPairs, ◌≢◌};
ghost use Rattle.eve_grammar.specs.Trace.{Trace, Attempt, Transfer};
ghost use Rattle.eve_grammar.specs.Limits.{HasLimits};
ghost use Rattle.eve_views.specs.declared.fault.Fault.{Fault};
ghost use Rattle.eve_views.specs.Form.{IsFaultIn};
ghost use Rattle.eve_history.specs.SectionHistory.{IsRightSection, ordered, committed_at, names_of};
ghost use Rattle.eve_history.specs.SectionHistory.{is_reached, how_reached_at, ByAttemptsTo};
ghost use Rattle.eve_chains.specs.Visible.{opening_table, executed_by, executed_in, execution, executions, rows_after};
ghost use Rattle.eve_chains.specs.Visible.{transferred_table, before_index, visible_to, entries_before};
ghost use Rattle.eve_chains.specs.Sound.{SettledAreSound, RecordsFit, OfSettledAccesses, EntriesSee};
ghost use Rattle.eve_chains.specs.Faults.{HasNoFault, StandsInChains};
ghost use Rattle.eve_chains.specs.Rows.{bases_of, told_of, all_noted, of_row, IsWrongOnRow, EachSees};
ghost use Rattle.eve_smallbank.specs.Access.{Fits, values_after};
ghost use Rattle.eve_smallbank.specs.Chain.{visible_at, before_rest};
ghost use Rattle.eve_smallbank.specs.Conflict.{IsReordering};
ghost use Rattle.eve_grammar.specs.Certificate.{is_permutation, keeps_groups};
ghost use Rattle.eve_smallbank.specs.declared.versioned.Versioned.{Versioned};
ghost use Rattle.eve_history.specs.Section.{Came, Ran, Transferred, Placed, ByTransfer, batch_at, request_count};
ghost use Rattle.eve_views.specs.declared.fault.Code.TheVariants as code;
ghost use Rattle.eve_history.specs.Order.{StandsInOrders};
ghost use Rattle.eve_chains.specs.Committed.{committed_to, values_to, balances_to, opening_bank, bank_after, Leads};
ghost use Rattle.eve_chains.specs.Committed.{IsSerialBetween};
ghost use Rattle.eve_chains.specs.Committed.{committed_request_ids, batch_request_ids};
ghost use Rattle.eve_chains.specs.Along.{entries_along};
ghost use Rattle.eve_chains.specs.CommittedValues.{settling, values_in, defined};

/// Rows can be judged each by itself: in a right section whose settled records fit, the faults of chains are exactly
/// those that the walks of single rows meet. Where no walk meets one, the settled attempts are sound.
///
/// A walk goes along one row's entries, with no other row in sight, from what the row has at first and after each state
/// that was transferred.
///
/// docs/MODEL.md, "What an entry must see".
pub fn rows_are_judged_by_themselves()
    ensures stands { (t : Trace) (e row : ℕ) (f : Fault) → HasLimits t → IsRightSection t e → RecordsFit t e
        → IsWrongOnRow e (bases_of t e row) (of_row row (all_noted (told_of t e))) f
        → IsFaultIn StandsInChains t e f }
    ensures found { (t : Trace) (e : ℕ) (f : Fault) → HasLimits t → IsRightSection t e → RecordsFit t e
        → IsFaultIn StandsInChains t e f
        → (row : ℕ) × IsWrongOnRow e (bases_of t e row) (of_row row (all_noted (told_of t e))) f }
    ensures sound { (t : Trace) (e : ℕ) → HasLimits t → IsRightSection t e → RecordsFit t e
        → ((row : ℕ) → EachSees (bases_of t e row) (of_row row (all_noted (told_of t e)))) → SettledAreSound t e }
{}

/// A replica whose section is right, and whose settled attempts fit and are chained row by row, committed what
/// SmallBank on one thread gives: batch after batch, and from the opening balances on up to where it had a state
/// transferred first.
///
/// docs/MODEL.md, "The audit theorem".
pub fn serial_order_of_a_section()
    ensures each { (t : Trace) (e : ℕ) → IsRightSection t e → SettledAreSound t e
        → (n : ℕ) (p : Placed) → committed_at t e n ≡ Some p
        → IsSerialBetween (bank_after t e (n - 1)) (bank_after t e n) (execution t p.attempt) }
    ensures all { (t : Trace) (e : ℕ) → IsRightSection t e → SettledAreSound t e
        → (n : ℕ) → ByAttemptsTo t e n
        → Leads (opening_bank t) (executions t (committed_to t e n)) (bank_after t e n) }
{}

/// In whatever order the indexes of a committed batch are listed, the requests with these indexes are those that were
/// executed, in another order: so each such order is one of those that `IsSerialBetween` speaks of.
pub fn each_order_of_the_indexes_is_a_reordering()
    ensures { (t : Trace) (e n : ℕ) (p : Placed) (order : List ℕ) → IsRightSection t e → committed_at t e n ≡ Some p
        → IsTrue (is_permutation (request_count t p.attempt) order)
        → IsReordering (executed_in t p.attempt order) (execution t p.attempt) }
{}

/// The order in which a replica committed a batch keeps the batch's parallelBatches.
pub fn committed_orders_keep_the_groups()
    ensures { (t : Trace) (e n : ℕ) (p : Placed) → IsRightSection t e → committed_at t e n ≡ Some p
        → IsTrue (keeps_groups (batch_at t n).sizes (length (batch_at t n).requests) p.attempt.certificate) }
{}

/// No request takes effect twice in a replica, where no two requests of the batches have one client and number:
/// that is so where no fault of orders stands.
pub fn requests_take_effect_once()
    ensures once { (t : Trace) (e : ℕ) → IsRightSection t e → AllPairs (λ a b. a ≢ b) (batch_request_ids t)
        → AllPairs (λ a b. a ≢ b) (committed_request_ids t e) }
    ensures apart { (t : Trace) → ((at : ℕ) → ¬ StandsInOrders code.SameRequest t at)
        → AllPairs (λ a b. a ≢ b) (batch_request_ids t) }
{}

/// In a right section the settled attempts are sound exactly where each record fits its request and each entry
/// sees what it must. That each request has its record follows from the limits of a trace.
pub fn sound_attempts_fit_and_see()
    ensures fit { (t : Trace) (e : ℕ) → IsRightSection t e → SettledAreSound t e → RecordsFit t e }
    ensures see { (t : Trace) (e : ℕ) → IsRightSection t e → SettledAreSound t e → EntriesSee t e }
    ensures sound { (t : Trace) (e : ℕ) → HasLimits t → IsRightSection t e → RecordsFit t e → EntriesSee t e
        → SettledAreSound t e }
{}

/// Where each record fits and each entry sees what it must, no fault of records or chains stands. Where none
/// stands each entry sees what it must, and no record misses its request.
pub fn faults_tell_what_is_wrong()
    ensures none { (t : Trace) (e : ℕ) → RecordsFit t e → EntriesSee t e → HasNoFault t e }
    ensures see { (t : Trace) (e : ℕ) → HasNoFault t e → EntriesSee t e }
    ensures fit { (t : Trace) (e : ℕ) → HasNoFault t e
        → OfSettledAccesses t e (λ p x. ¬ ¬ Fits (names_of t) (executed_by t p.attempt x)) }
{}

/// In a right section whose settled attempts are sound no fault of records or chains stands.
pub fn sound_sections_have_no_fault()
    ensures { (t : Trace) (e : ℕ) → IsRightSection t e → SettledAreSound t e → HasNoFault t e }
{}

/// The balances after a committed batch are those before it with what its records wrote, in their order.
pub fn balances_advance_along_the_records()
    ensures { (t : Trace) (e n : ℕ) (p : Placed) → HasLimits t → IsRightSection t e → committed_at t e (suc n) ≡ Some p
        → values_to t e (suc n) ≡ values_after (values_to t e n) (entries_along (ordered p.offset p.attempt)) }
{}

/// What the rows have after attempts is what the nearest write of each left, or else the opening balance; behind a
/// state that was transferred, or else that state, whatever came before it. So is what each entry must see: what the
/// nearest write left of the attempts behind any part of the path, or else what the rows had after that part.
///
/// docs/MODEL.md, "What an entry must see".
pub fn rows_have_what_the_nearest_writes_left()
    ensures rows { (t : Trace) (attempts : List Attempt) → rows_after t (map Ran attempts)
        ≡ visible_at (opening_table t) (entries_before t attempts) }
    ensures transferred { (t : Trace) (before : List Came) (rows : List Versioned) (attempts : List Attempt)
        → rows_after t (before ++ Transferred rows ∷ map Ran attempts)
        ≡ visible_at (transferred_table rows) (entries_before t attempts) }
    ensures seen { (t : Trace) (p : Placed) (index : ℕ) (before : List Came) (attempts : List Attempt)
        → p.path ≡ before ++ map Ran attempts
        → visible_to t p index ≡ visible_at (rows_after t before) (before_rest (entries_before t attempts)
        (executed_in t p.attempt (before_index index p.attempt.certificate))) }
{}

/// What is kept of a right section gives the balances after each number, also after one that was skipped: they are
/// those before it.
pub fn settled_values_are_the_banks()
    ensures { (t : Trace) (e n : ℕ) → HasLimits t → IsRightSection t e → values_in (settling t e) n ≡ values_to t e n }
{}

/// After a number that was reached by a state, the balances are the values of that state.
pub fn states_are_the_balances()
    ensures { (t : Trace) (e n at : ℕ) (x : Transfer) → HasLimits t → IsRightSection t e
        → how_reached_at t e n ≡ Some (ByTransfer at x) → balances_to t e n ≡ map (λ v. v.value) x.rows }
{}

/// There are balances after a number exactly where it was reached.
pub fn defined_numbers_are_reached()
    ensures { (t : Trace) (e n : ℕ) → defined (settling t e) n ≡ is_reached t e n }
{}
