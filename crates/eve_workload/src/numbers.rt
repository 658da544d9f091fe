//! Numbers as a workload spells them: decimal, without leading zeros.

ghost use Rattle.std.specs.Prelude.{◌≡◌, ◌≢◌, ◌↔◌, ℕ, ℤ, pos, negsuc, ◌+◌, ◌-◌, ◌*◌, ◌^◌, ◌<◌, ◌<ℤ◌, ◌≤◌, [], ◌∷◌};
ghost use Rattle.std.specs.Prelude.{slice_index, IfSome, IfNone, IsTrue};
ghost use Rattle.std.specs.Fmt.{decimal, signed_decimal};
ghost use Rattle.eve_workload.specs.inner.Words.{BeginsAsNumber};
ghost use Rattle.eve_accounts.specs.Money.{is_balance, is_saving, is_amount};

use eve_accounts::{Amount, Cents, MOST_BALANCE};

const MINUS: u8 = b'-';

const LEAST_SAVING: i64 = 0;

/// The number that the word spells, where it is below 2^64.
pub(crate) fn number(word: &[u8]) -> Option<u64>
    ensures spelled { IfSome result (λ n. word.now ≡ decimal n) }
    ensures small { IfSome result (λ n. n < 2 ^ 64) }
    ensures none { IfNone result ((n : ℕ) → n < 2 ^ 64 → word.now ≢ decimal n) }
{
    if !begins_as_number(word) {
        return None;
    }
    let mut value = 0;
    for digit in word {
        value = with_digit(value, *digit)?;
    }
    Some(value)
}

/// Whether there is a first byte, and no zero before others.
fn begins_as_number(word: &[u8]) -> bool
    ensures { IsTrue result ↔ BeginsAsNumber word.now }
{
    match word {
        [] => false,
        [_] => true,
        [first, ..] => *first != b'0',
    }
}

/// The number with one more digit after it.
fn with_digit(value: u64, digit: u8) -> Option<u64>
    ensures more { IfSome result (λ n. (48 ≤ digit) × (digit ≤ 57) × (n ≡ value * 10 + (digit - 48)) × (n < 2 ^ 64)) }
    ensures none { IfNone result (48 ≤ digit → digit ≤ 57 → 2 ^ 64 ≤ value * 10 + (digit - 48)) }
{
    if !digit.is_ascii_digit() {
        return None;
    }
    value.checked_mul(10)?.checked_add((digit - b'0') as u64)
}

/// The number that the word spells, where it is below 2^32.
pub(crate) fn small_number(word: &[u8]) -> Option<u32>
    ensures spelled { IfSome result (λ n. word.now ≡ decimal n) }
    ensures none { IfNone result ((n : ℕ) → n < 2 ^ 32 → word.now ≢ decimal n) }
{
    let value = number(word)?;
    if value > u32::MAX as u64 {
        return None;
    }
    Some(value as u32)
}

/// The number that the word spells, where it is below 2^8.
pub(crate) fn byte_number(word: &[u8]) -> Option<u8>
    ensures spelled { IfSome result (λ n. word.now ≡ decimal n) }
    ensures small { IfSome result (λ n. n < 2 ^ 8) }
    ensures none { IfNone result ((n : ℕ) → n < 2 ^ 8 → word.now ≢ decimal n) }
{
    let value = number(word)?;
    if value > u8::MAX as u64 {
        return None;
    }
    Some(value as u8)
}

/// The balance that the word spells: a minus sign may stand before a number that isn't zero.
pub(crate) fn balance(word: &[u8]) -> Option<Cents>
    ensures spelled { IfSome result (λ n. word.now ≡ signed_decimal n) }
    ensures none { IfNone result ((z : ℤ) → IsTrue (is_balance z) → word.now ≢ signed_decimal z) }
{
    match behind_minus(word) {
        Some(digits) => negative(digits),
        None => positive(word),
    }
}

/// What stands after a minus sign.
fn behind_minus(word: &[u8]) -> Option<&[u8]>
    ensures some { IfSome result (λ digits. word.now ≡ 45 ∷ digits.now) }
    ensures none { IfNone result (slice_index word.now 0 ≢ 45) }
{
    match word {
        [first, digits @ ..] => { if *first == MINUS { Some(digits) } else { None } }
        [] => None,
    }
}

/// The balance with these digits after a minus sign.
fn negative(digits: &[u8]) -> Option<Cents>
    ensures spelled { IfSome result (λ n. 45 ∷ digits.now ≡ signed_decimal n) }
    ensures none { IfNone result ((z : ℤ) → IsTrue (is_balance z) → 45 ∷ digits.now ≢ signed_decimal z) }
{
    match number(digits) {
        Some(value) => below_zero(value),
        None => None,
    }
}

/// The balance with these digits and no sign.
fn positive(word: &[u8]) -> Option<Cents>
    requires { slice_index word.now 0 ≢ 45 }
    ensures spelled { IfSome result (λ n. word.now ≡ signed_decimal n) }
    ensures none { IfNone result ((z : ℤ) → IsTrue (is_balance z) → word.now ≢ signed_decimal z) }
{
    match number(word) {
        Some(value) => not_below_zero(value),
        None => None,
    }
}

fn below_zero(value: u64) -> Option<Cents>
    ensures some { IfSome result (λ z. (1 ≤ value) × (z ≡ negsuc (value - 1))) }
    ensures none { IfNone result (1 ≤ value → MOST_BALANCE <ℤ pos value) }
{
    if value == 0 || value > i64::MAX as u64 {
        return None;
    }
    Cents::new(-(value as i64))
}

fn not_below_zero(value: u64) -> Option<Cents>
    ensures some { IfSome result (λ z. z ≡ pos value) }
    ensures none { IfNone result (MOST_BALANCE <ℤ pos value) }
{
    if value > i64::MAX as u64 {
        return None;
    }
    Cents::new(value as i64)
}

/// The opening saving balance that the word spells.
pub(crate) fn saving(word: &[u8]) -> Option<Cents>
    ensures spelled { IfSome result (λ n. (word.now ≡ signed_decimal n) × IsTrue (is_saving n)) }
    ensures none { IfNone result ((z : ℤ) → IsTrue (is_saving z) → word.now ≢ signed_decimal z) }
{
    let cents = balance(word)?;
    if cents.get() < LEAST_SAVING {
        return None;
    }
    Some(cents)
}

/// The amount that the word spells.
pub(crate) fn amount(word: &[u8]) -> Option<Amount>
    ensures spelled { IfSome result (λ n. word.now ≡ signed_decimal n) }
    ensures none { IfNone result ((z : ℤ) → IsTrue (is_amount z) → word.now ≢ signed_decimal z) }
{
    let cents = balance(word)?;
    Amount::new(cents.get())
}
