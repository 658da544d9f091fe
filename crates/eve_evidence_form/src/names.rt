//! What shows that a customer's name stands twice.

ghost use Rattle.std.specs.Prelude.{◌≡◌, ◌≢◌, ◌<◌, ◌≤◌, ℕ, IfSome};
ghost use Rattle.std.specs.Prelude.{IfNone, IsTrue, IsFalse, length, take, slice_get, Some};
ghost use Rattle.eve_grammar.specs.Trace.{Customer as CustomerValue};
ghost use Rattle.eve_grammar.specs.Spelling.{customers_at};
ghost use Rattle.eve_views.specs.declared.fault.Code.TheVariants as code;
ghost use Rattle.eve_evidence_form.specs.Names.{NoneNamed, IsFirstNamed, IsNamedAgain};
ghost use Rattle.eve_history.specs.Order.{StandsInOrders};

use eve_views::Trace;

/// The first customer that has a name.
#[derive(Clone, Copy)]
pub struct FirstNamed {
    /// Its number, from 0.
    pub number: u32,
    /// The byte at which its frame begins.
    pub at: u64,
}

/// A name that stands twice.
#[derive(Clone, Copy)]
pub struct NamedAgain<'a> {
    /// The name.
    pub name: &'a [u8],
    /// The first customer that has it.
    pub first: FirstNamed,
}

/// Whether two names are the same.
fn is_same_name(name: &[u8], other: &[u8]) -> bool
    ensures yes { IsTrue result → name.now ≡ other.now }
    ensures no { IsFalse result → name.now ≢ other.now }
{
    name == other
}

/// The first of the first `count` customers that has this name, if one does.
fn first_named(trace: &Trace<'_>, count: u32, name: &[u8]) -> Option<FirstNamed>
    requires { count ≤ length trace.now.customers }
    ensures first { IfSome result (λ f. IsFirstNamed name.now (take count (customers_at trace.now)) f.number f.at) }
    ensures none { IfNone result (NoneNamed name.now (take count (customers_at trace.now))) }
{
    for i in 0..count {
        let customer = trace.customer(i);
        if is_same_name(customer.name(), name) {
            return Some(FirstNamed {
                number: i,
                at: customer.offset(),
            });
        }
    }
    None
}

/// The name of the customer of this number, and the first that has it, if its frame begins at this byte and an earlier
/// customer has its name.
fn named_before<'a>(trace: &Trace<'a>, i: u32, at: u64) -> Option<NamedAgain<'a>>
    requires { i < length trace.now.customers }
    ensures again { IfSome result (λ x. (c : ℕ × CustomerValue) → slice_get (customers_at trace.now) i ≡ Some c
        → (c.0 ≡ at) × (c.1.name ≡ x.name.now)
        × IsFirstNamed x.name.now (take i (customers_at trace.now)) x.first.number x.first.at) }
    ensures none { IfNone result ((c : ℕ × CustomerValue) → slice_get (customers_at trace.now) i ≡ Some c → c.0 ≡ at
        → NoneNamed c.1.name (take i (customers_at trace.now))) }
{
    let customer = trace.customer(i);
    if customer.offset() != at {
        return None;
    }
    let name = customer.name();
    match first_named(trace, i, name) {
        Some(first) => Some(NamedAgain { name, first }),
        None => None,
    }
}

/// The name of the customer whose frame begins at this byte, which an earlier one has, and the first that has it.
///
/// docs/MODEL.md, "Evidence". Two passes over the customers.
pub fn named_again<'a>(trace: &Trace<'a>, at: u64) -> NamedAgain<'a>
    requires { StandsInOrders code.SameName trace.now at }
    ensures { IsNamedAgain trace.now at result.name.now result.first.number result.first.at }
{
    for i in 0..trace.customer_count() {
        if let Some(again) = named_before(trace, i, at) {
            return again;
        }
    }
    unreachable!()
}
