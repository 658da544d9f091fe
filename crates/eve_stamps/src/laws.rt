//! Laws about stripes. Each body is empty: the contract is the law.

ghost use Rattle.std.specs.Prelude.{◌≡◌, ℕ, List};
ghost use Rattle.eve_smallbank.specs.declared.entry.Entry.{Entry};
ghost use Rattle.eve_smallbank.specs.Chain.{table_after};
ghost use Rattle.eve_stamps.specs.Stripes.{Stripe, IsStripe, rows_now, committed, stripe_with, settled_to};
ghost use Rattle.eve_stamps.specs.Stripes.{without_journal};

/// What is noted is written to the rows.
pub fn rows_take_what_is_noted()
    ensures { (s : Stripe) (tick : ℕ) (entries : List Entry) → rows_now (stripe_with s tick entries)
        ≡ table_after (rows_now s) entries }
{}

/// A stripe that settles keeps its rows as they are now.
pub fn settling_keeps_the_rows()
    ensures { (s : Stripe) (tick : ℕ) → IsStripe s → rows_now (settled_to tick s) ≡ rows_now s }
{}

/// A stripe that is undone has its committed rows.
pub fn undoing_restores_the_base()
    ensures { (s : Stripe) → rows_now (without_journal s) ≡ committed s }
{}
