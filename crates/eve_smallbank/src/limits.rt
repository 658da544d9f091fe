//! Numbers that the rules name.

/// What a check costs beyond its amount where the account has less than the amount, in cents.
///
/// docs/MODEL.md, "Transactions".
pub const PENALTY: i64 = 100;
