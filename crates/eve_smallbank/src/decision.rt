//! What a request does to the rows that it touches.

ghost use Rattle.std.specs.Prelude.{ℕ, List, length, map, ◌≡◌, ◌+ℤ◌, ◌-ℤ◌, ◌≤ℤ◌, pos, negsuc, int_lt, [], ◌∷◌, IsSome};
ghost use Rattle.std.specs.Prelude.{if◌then◌else◌};
ghost use Rattle.eve_smallbank.specs.SmallBank.{check_cost, plain};
ghost use Rattle.eve_smallbank.specs.Access.{Executed, Fits};
ghost use Rattle.eve_smallbank.specs.Touch.{touched_of, rows_in};
ghost use Rattle.eve_smallbank.specs.Decide.{IsExact, executed_from};
ghost use Rattle.eve_smallbank.specs.inner.FromValues.{only_read, written, abort_after, done_within, decided_from};

use crate::{Abort, Kind, PENALTY, Reply, Request, Touched, UpToThree};
use eve_accounts::{Amount, Cents};

/// What becomes of one row.
#[derive(Clone, Copy)]
pub struct Effect {
    /// Whether the row is read or written.
    pub kind: Kind,
    /// The row's value afterwards; a read leaves what it saw.
    pub after: Cents,
}

/// The reply to a request, and what becomes of each row that it touches, in their order.
#[derive(Clone, Copy)]
pub struct Decision {
    /// The reply.
    pub reply: Reply,
    /// One effect for each row.
    pub effects: UpToThree<Effect>,
}

/// What the request does where the rows that it touches have these values, one for each row.
///
/// docs/MODEL.md, "Transactions". `touched` is the answer of `touched` for this request, and `seen` has one
/// value for each of its rows, in their order: none where the request is refused.
#[inline(always)]
pub fn decide(request: &Request, touched: &Touched, seen: &[Cents]) -> Decision
    // The rows are those that `touched` gave for this request and the customers.
    requires touched { (names : List (List ℕ)) × (touched.now ≡ touched_of names (plain request.now)) }
    requires values { length seen.now ≡ length (rows_in touched.now) }

    ensures exact { (names : List (List ℕ)) → touched.now ≡ touched_of names (plain request.now)
        → IsExact names (plain request.now) (rows_in touched.now) seen.now result }
    ensures each { length result.effects ≡ length seen.now }

    // Whatever versions the rows have, the record fits, and no other that saw these values does.
    ensures fits { (names : List (List ℕ)) (versions : List ℕ) → touched.now ≡ touched_of names (plain request.now)
        → length versions ≡ length seen.now
        → Fits names (executed_from (plain request.now) (rows_in touched.now) versions seen.now result) }
    ensures only { (names : List (List ℕ)) (x : Executed) → touched.now ≡ touched_of names (plain request.now)
        → x.request ≡ plain request.now → map (λ e. e.seen) x.entries ≡ seen.now → Fits names x
        → x ≡ executed_from (plain request.now) (rows_in touched.now) (map (λ e. e.version) x.entries) seen.now result }
{
    match touched {
        Touched::Refused(why) => abort(*why, UpToThree::new()),
        Touched::Rows(_) => decide_rows(request, seen),
    }
}

/// Decides a request that is not refused.
#[inline(always)]
fn decide_rows(request: &Request, seen: &[Cents]) -> Decision
    requires { IsSome (decided_from (plain request.now) seen.now) }
    ensures { decided_from (plain request.now) seen.now ≡ Some result }
{
    match (request, seen) {
        (Request::Balance(_), [saving, checking]) => total(*saving, *checking),
        (Request::DepositChecking(_, amount), [checking]) => deposit_checking(*checking, *amount),
        (Request::TransactSaving(_, amount), [saving]) => transact_saving(*saving, *amount),
        (Request::Amalgamate(_, _), [saving, checking]) => amalgamate_itself(*saving, *checking),
        (Request::Amalgamate(_, _), [saving, checking, receiver]) => amalgamate(
            *saving, *checking, *receiver,
        ),
        (Request::WriteCheck(_, amount), [saving, checking]) => write_check(
            *saving, *checking, *amount,
        ),
        _ => unreachable!(),
    }
}

fn total(saving: Cents, checking: Cents) -> Decision
    ensures { result ≡ record {
      reply = Reply.Total (saving +ℤ checking);
      effects = only_read saving ∷ only_read checking ∷ [];
    } }
{
    Decision {
        reply: Reply::Total(sum(saving, checking)),
        effects: UpToThree::two(read(saving), read(checking)),
    }
}

fn deposit_checking(checking: Cents, amount: Amount) -> Decision
    ensures { let after = checking +ℤ amount in result ≡ done_within (checking ∷ []) after (written after ∷ []) }
{
    match Cents::new(raised(checking, amount)) {
        Some(after) => done(UpToThree::one(write(after))),
        None => abort(Abort::OutOfRange, UpToThree::one(read(checking))),
    }
}

fn transact_saving(saving: Cents, amount: Amount) -> Decision
    ensures { let after = saving +ℤ amount in
        result ≡ (if int_lt after (pos 0) then abort_after Abort.Insufficient (saving ∷ [])
        else done_within (saving ∷ []) after (written after ∷ [])) }
{
    let after = raised(saving, amount);
    if is_below(after, 0) {
        return abort(Abort::Insufficient, UpToThree::one(read(saving)));
    }
    match Cents::new(after) {
        Some(after) => done(UpToThree::one(write(after))),
        None => abort(Abort::OutOfRange, UpToThree::one(read(saving))),
    }
}

/// Amalgamates a customer with itself.
fn amalgamate_itself(saving: Cents, checking: Cents) -> Decision
    ensures { let after = pos 0 +ℤ (saving +ℤ checking) in
        result ≡ done_within (saving ∷ checking ∷ []) after (written (pos 0) ∷ written after ∷ []) }
{
    match Cents::new(sum(saving, checking)) {
        Some(after) => done(UpToThree::two(write(Cents::ZERO), write(after))),
        None => abort(
            Abort::OutOfRange,
            UpToThree::two(read(saving), read(checking)),
        ),
    }
}

fn amalgamate(saving: Cents, checking: Cents, receiver: Cents) -> Decision
    ensures { let after = receiver +ℤ (saving +ℤ checking) in
        result ≡ done_within (saving ∷ checking ∷ receiver ∷ []) after
        (written (pos 0) ∷ written (pos 0) ∷ written after ∷ []) }
{
    match Cents::new(sum_of_three(receiver, saving, checking)) {
        Some(after) => done(UpToThree::three(write(Cents::ZERO), write(Cents::ZERO), write(after))),
        None => abort(
            Abort::OutOfRange,
            UpToThree::three(read(saving), read(checking), read(receiver)),
        ),
    }
}

fn write_check(saving: Cents, checking: Cents, amount: Amount) -> Decision
    ensures { let after = checking -ℤ check_cost (record { saving = saving; checking = checking }) amount in
        result ≡ done_within (saving ∷ checking ∷ []) after (only_read saving ∷ written after ∷ []) }
{
    match Cents::new(after_check(saving, checking, amount)) {
        Some(after) => done(UpToThree::two(read(saving), write(after))),
        None => abort(
            Abort::OutOfRange,
            UpToThree::two(read(saving), read(checking)),
        ),
    }
}

/// The checking balance after a check, in cents: the penalty comes where the sum of both balances is less than the
/// amount.
fn after_check(saving: Cents, checking: Cents, amount: Amount) -> i64
    ensures { result ≡ checking -ℤ check_cost (record { saving = saving; checking = checking }) amount }
{
    if is_below(sum(saving, checking), amount.get()) {
        lowered_with_penalty(checking, amount)
    } else {
        lowered(checking, amount)
    }
}

fn done(effects: UpToThree<Effect>) -> Decision
    ensures { result ≡ record { reply = Reply.Done; effects = effects } }
{
    Decision {
        reply: Reply::Done,
        effects,
    }
}

/// Nothing changes; what was read is kept.
fn abort(why: Abort, reads: UpToThree<Effect>) -> Decision
    ensures { result ≡ record { reply = Reply.Aborted why; effects = reads } }
{
    Decision {
        reply: Reply::Aborted(why),
        effects: reads,
    }
}

fn read(value: Cents) -> Effect
    ensures { result ≡ only_read value }
{
    Effect {
        kind: Kind::Read,
        after: value,
    }
}

fn write(value: Cents) -> Effect
    ensures { result ≡ written value }
{
    Effect {
        kind: Kind::Write,
        after: value,
    }
}

fn is_below(a: i64, b: i64) -> bool
    ensures { result ≡ int_lt a b }
{
    a < b
}

fn sum(a: Cents, b: Cents) -> i64
    ensures value { result ≡ a +ℤ b }
    ensures low { negsuc 1999999999999999 ≤ℤ result }
    ensures high { result ≤ℤ pos 2000000000000000 }
{
    a.get() + b.get()
}

fn sum_of_three(a: Cents, b: Cents, c: Cents) -> i64
    ensures { result ≡ a +ℤ (b +ℤ c) }
{
    a.get() + sum(b, c)
}

fn raised(balance: Cents, amount: Amount) -> i64
    ensures { result ≡ balance +ℤ amount }
{
    balance.get() + amount.get()
}

fn lowered(balance: Cents, amount: Amount) -> i64
    ensures { result ≡ balance -ℤ amount }
{
    balance.get() - amount.get()
}

fn lowered_with_penalty(balance: Cents, amount: Amount) -> i64
    ensures { result ≡ balance -ℤ (amount +ℤ PENALTY) }
{
    balance.get() - (amount.get() + PENALTY)
}
