//! What clients ask for, and the replies.

use eve_accounts::Amount;

/// A transaction of SmallBank (Alomari et al., ICDE 2008) with borrowed names.
///
/// docs/MODEL.md, "Transactions", has the effect of each. Contracts see it by `plain`, with each name
/// as its list of bytes.
#[derive(Clone, Copy)]
pub enum Request<'a> {
    /// Returns the sum of both balances of the customer.
    Balance(&'a [u8]),
    /// Adds the amount to the checking balance.
    DepositChecking(&'a [u8], Amount),
    /// Adds the amount, which may be negative, to the saving balance.
    TransactSaving(&'a [u8], Amount),
    /// Moves all that the first customer has to the checking balance of the second.
    Amalgamate(&'a [u8], &'a [u8]),
    /// Pays a check over the amount from the checking balance.
    WriteCheck(&'a [u8], Amount),
}

/// The reply to a client.
#[derive(Clone, Copy, PartialEq, Eq)]
pub enum Reply {
    /// The transaction took effect.
    Done,
    /// The sum of both balances, in cents.
    Total(i64),
    /// Nothing changed.
    Aborted(Abort),
}

/// Why a transaction changed nothing.
#[derive(Clone, Copy, PartialEq, Eq)]
pub enum Abort {
    /// No customer has the name.
    NoSuchName,
    /// The amount is below 0.
    BadAmount,
    /// The saving balance would fall below 0.
    Insufficient,
    /// A new balance would lie more than 10^15 from zero.
    OutOfRange,
}
