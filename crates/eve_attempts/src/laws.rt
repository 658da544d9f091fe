//! Laws about the definitions. Each body is empty: the contract is the law.

ghost use Rattle.std.specs.Prelude.{◌≡◌, List, []};
ghost use Rattle.std.specs.List.{flat_map};
ghost use Rattle.eve_smallbank.specs.Access.{Executed};
ghost use Rattle.eve_smallbank.specs.Chain.{Table, IsChained, table_after_all};
ghost use Rattle.eve_attempts.specs.Ledgers.{values_before};

/// Executed requests whose entries are chained from a table write in it, and going back over their entries from the
/// last gives the table again.
///
/// docs/MODEL.md, "Working table, committed table".
pub fn going_back_gives_the_table_again()
    ensures { (table : Table) (xs : List Executed) → IsChained table [] xs
        → values_before (table_after_all table xs) (flat_map (λ x. x.entries) xs) ≡ table }
{}
