//! Laws about the definitions. Each body is empty: the contract is the law.

ghost use Rattle.std.specs.Prelude.{◌≡◌, ◌↔◌, ℕ, List, [], map};
ghost use Rattle.std.specs.List.{AllByRecursion};
ghost use Rattle.eve_smallbank.specs.SmallBank.{Request};
ghost use Rattle.eve_smallbank.specs.declared.entry.Entry.{Entry};
ghost use Rattle.eve_smallbank.specs.declared.request.Abort.{Abort};
ghost use Rattle.eve_smallbank.specs.declared.request.Reply.TheVariants.{Aborted};
ghost use Rattle.eve_smallbank.specs.declared.rows.Touched.TheVariants.{Refused};
ghost use Rattle.eve_smallbank.specs.Access.{Executed, Fits};
ghost use Rattle.eve_smallbank.specs.Touch.{touched_of, rows_in};
ghost use Rattle.eve_smallbank.specs.Chain.{Table, visible_at, Sees, IsChained, IsRowChained, HasOneEach, IsWalk};
ghost use Rattle.eve_smallbank.specs.Chain.{row_entries};
ghost use Rattle.eve_smallbank.specs.Execution.{executed_on};
ghost use Rattle.eve_smallbank.specs.inner.Seen.{as_seen};
ghost use Rattle.eve_smallbank.specs.SerialOrder.{IsSound, IsSerial};

/// What a request makes of the rows that it meets fits it.
pub fn requests_fit()
    ensures { (names : List (List ℕ)) (table : Table) (request : Request)
        → Fits names (executed_on names table request) }
{}

/// A request that is refused before it touches a row fits with that answer and no entries.
pub fn refused_requests_fit()
    ensures { (names : List (List ℕ)) (request : Request) (why : Abort) → touched_of names request ≡ Refused why
        → Fits names record { request = request; reply = Aborted why; entries = [] } }
{}

/// Executed requests that fit one by one, and whose rows are chained each by itself, are serial.
pub fn serial_order_from_chains()
    ensures { (names : List (List ℕ)) (base : Table) (before : List Entry) (xs : List Executed)
        → IsSound names base before xs → IsSerial names base before xs }
{}

/// Executed requests are chained exactly where each row is chained by itself.
pub fn requests_are_chained_row_by_row()
    ensures { (base : Table) (before : List Entry) (xs : List Executed)
        → IsChained base before xs ↔ ((row : ℕ) → IsRowChained base row before xs) }
{}

/// A row of which no request has two entries is chained where its own entries, gathered along the requests, each see
/// what those before them leave.
pub fn rows_are_chained_by_walks()
    ensures { (base : Table) (row : ℕ) (before : List Entry) (xs : List Executed) → HasOneEach row xs
        → IsWalk (visible_at base before row) (row_entries row xs) → IsRowChained base row before xs }
{}

/// A record that fits and that saw what a table has is what its request makes of that table: reply, rows,
/// kinds and values after follow from the values seen.
pub fn fitting_records_are_unique()
    ensures { (names : List (List ℕ)) (table : Table) (x : Executed) → Fits names x
        → AllByRecursion (Sees table) x.entries → x ≡ executed_on names table x.request }
{}

/// A record that fits is what its request makes of what the record's own entries saw. So whether a record fits is told
/// by what its request makes of them, which fits (`requests_fit`): it does where the two are the same.
pub fn fitting_records_are_of_what_they_saw()
    ensures { (names : List (List ℕ)) (x : Executed) → Fits names x
        → x ≡ executed_on names (as_seen x.entries) x.request }
{}

/// A record that fits has an entry for each row that its request touches, in order, and none where the
/// request is refused.
pub fn fitting_records_touch_their_rows()
    ensures { (names : List (List ℕ)) (x : Executed) → Fits names x
        → map (λ e. e.row) x.entries ≡ map (λ r. r.0) (rows_in (touched_of names x.request)) }
{}
