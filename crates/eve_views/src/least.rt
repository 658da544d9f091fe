//! The least of the numbers that were found.

ghost use Rattle.std.specs.Prelude.{◌≡◌};
ghost use Rattle.eve_views.specs.Least.{lower};

/// The lower of a number and those found before it: never `None`.
pub fn lower(least: Option<u64>, number: u64) -> Option<u64>
    ensures { result ≡ lower least number }
{
    match least {
        Some(before) if before <= number => least,
        _ => Some(number),
    }
}
