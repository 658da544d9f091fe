//! By which call the evidence of a code is told.

ghost use Rattle.std.specs.Prelude.{◌≡◌};
ghost use Rattle.eve_explain.specs.Explained.{is_of_majority, is_of_orders, is_told_along};

use eve_views::Code;

/// Whether it is a code of structure, records or chains.
pub fn is_told_along(code: Code) -> bool
    ensures { result ≡ is_told_along code }
{
    match code {
        Code::Attempt | Code::Certificate | Code::Access | Code::WorkerOrder => true,
        Code::Commit | Code::Rollback | Code::Transfer => true,
        Code::Record | Code::Version | Code::Value => true,
        _ => false,
    }
}

/// Whether a step that no majority voted for has the code.
pub fn is_of_majority(code: Code) -> bool
    ensures { result ≡ is_of_majority code }
{
    match code {
        Code::NoMajority | Code::RollbackNoMajority | Code::TransferNoMajority => true,
        _ => false,
    }
}

/// Whether the code is of what stands twice.
pub fn is_of_orders(code: Code) -> bool
    ensures { result ≡ is_of_orders code }
{
    match code {
        Code::SameName | Code::SameRequest => true,
        _ => false,
    }
}
