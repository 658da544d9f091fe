//! What a line says.

ghost use Rattle.std.specs.Prelude.{◌≡◌, ◌≢◌, ℕ, List, [], ◌∷◌, IfSome, IfNone, IsTrue, codes, length};
ghost use Rattle.eve_smallbank.specs.SmallBank.{Request as RequestValue, plain};
ghost use Rattle.eve_grammar.specs.Trace.{Customer, Asked as AskedValue};
ghost use Rattle.eve_grammar.specs.Limits.{is_customer, is_asked, is_request};
ghost use Rattle.eve_workload.specs.declared.deployment.Deployment.{Deployment as DeploymentValue};
ghost use Rattle.eve_workload.specs.Lines.{Line as LineValue, HeadLine, CustomerLine, RequestLine, request_words};
ghost use Rattle.eve_workload.specs.Lines.{line_words};
ghost use Rattle.eve_workload.specs.Workload.{is_deployment};
ghost use Rattle.eve_workload.specs.Steps.{is_line};
ghost use Rattle.eve_workload.specs.inner.Words.{bytes_of};
ghost use Rattle.eve_workload.specs.inner.Decoded.{line_decoded};

use crate::deployment::Deployment;
use crate::numbers::{amount, balance, byte_number, number, saving, small_number};
use crate::words::says;
use eve_accounts::{Cents, is_name};
use eve_grammar::Asked;
use eve_smallbank::Request;

/// What the line of a customer says.
#[derive(Clone, Copy)]
pub(crate) struct CustomerFields<'a> {
    pub name: &'a [u8],
    pub saving: Cents,
    pub checking: Cents,
}

/// What a line says. Contracts see it by `line_decoded`.
#[derive(Clone, Copy)]
pub(crate) enum Line<'a> {
    Head(Deployment),
    Customer(CustomerFields<'a>),
    Batch,
    Request(Asked<'a>),
}

/// What a line of these words says; `None` where it is no line that may stand in a workload.
pub(crate) fn line_of<'a>(words: &[&'a [u8]]) -> Option<Line<'a>>
    ensures some { IfSome result (λ l. (line_words (line_decoded l) ≡ bytes_of words.now)
        × IsTrue (is_line (line_decoded l))) }
    ensures none { IfNone result ((l : LineValue) → IsTrue (is_line l) → line_words l ≢ bytes_of words.now) }
{
    match words.len() {
        1 => batch_line(words[0]),
        4 => line_of_four(words),
        5 => line_of_five(words),
        6 => line_of_six(words),
        _ => None,
    }
}

fn line_of_four<'a>(words: &[&'a [u8]]) -> Option<Line<'a>>
    requires { length words.now ≡ 4 }
    ensures some { IfSome result (λ l. (line_words (line_decoded l) ≡ bytes_of words.now)
        × IsTrue (is_line (line_decoded l))) }
    ensures none { IfNone result ((l : LineValue) → IsTrue (is_line l) → line_words l ≢ bytes_of words.now) }
{
    let four = four_of(words);
    if says(four.first, b"customer") {
        customer_line(four.second, four.third, four.fourth)
    } else {
        short_line(four.first, four.second, four.third, four.fourth)
    }
}

/// The words of a customer, or of a request with one name.
#[derive(Clone, Copy)]
struct Four<'a> {
    first: &'a [u8],
    second: &'a [u8],
    third: &'a [u8],
    fourth: &'a [u8],
}

fn four_of<'a>(words: &[&'a [u8]]) -> Four<'a>
    requires { length words.now ≡ 4 }
    ensures { bytes_of words.now ≡ result.first.now ∷ result.second.now ∷ result.third.now ∷ result.fourth.now ∷ [] }
{
    Four {
        first: words[0],
        second: words[1],
        third: words[2],
        fourth: words[3],
    }
}

fn line_of_five<'a>(words: &[&'a [u8]]) -> Option<Line<'a>>
    requires { length words.now ≡ 5 }
    ensures some { IfSome result (λ l. (line_words (line_decoded l) ≡ bytes_of words.now)
        × IsTrue (is_line (line_decoded l))) }
    ensures none { IfNone result ((a : AskedValue) → IsTrue (is_asked a)
        → line_words (RequestLine a) ≢ bytes_of words.now) }
{
    let five = five_of(words);
    long_line(five.kind, five.client, five.number, five.name, five.last)
}

/// The words of a request with a name, and an amount or another name.
#[derive(Clone, Copy)]
struct Five<'a> {
    kind: &'a [u8],
    client: &'a [u8],
    number: &'a [u8],
    name: &'a [u8],
    last: &'a [u8],
}

fn five_of<'a>(words: &[&'a [u8]]) -> Five<'a>
    requires { length words.now ≡ 5 }
    ensures { bytes_of words.now ≡ result.kind.now ∷ result.client.now ∷ result.number.now ∷ result.name.now
        ∷ result.last.now ∷ [] }
{
    Five {
        kind: words[0],
        client: words[1],
        number: words[2],
        name: words[3],
        last: words[4],
    }
}

fn line_of_six<'a>(words: &[&'a [u8]]) -> Option<Line<'a>>
    requires { length words.now ≡ 6 }
    ensures some { IfSome result (λ l. (line_words (line_decoded l) ≡ bytes_of words.now)
        × IsTrue (is_line (line_decoded l))) }
    ensures none { IfNone result ((d : DeploymentValue) → IsTrue (is_deployment d)
        → line_words (HeadLine d) ≢ bytes_of words.now) }
{
    let six = six_of(words);
    head_line(
        six.kind,
        six.replicas,
        six.verifiers,
        six.quorum,
        six.window,
        six.workers,
    )
}

/// The words of a head.
#[derive(Clone, Copy)]
struct Six<'a> {
    kind: &'a [u8],
    replicas: &'a [u8],
    verifiers: &'a [u8],
    quorum: &'a [u8],
    window: &'a [u8],
    workers: &'a [u8],
}

fn six_of<'a>(words: &[&'a [u8]]) -> Six<'a>
    requires { length words.now ≡ 6 }
    ensures { bytes_of words.now ≡ result.kind.now ∷ result.replicas.now ∷ result.verifiers.now ∷ result.quorum.now
        ∷ result.window.now ∷ result.workers.now ∷ [] }
{
    Six {
        kind: words[0],
        replicas: words[1],
        verifiers: words[2],
        quorum: words[3],
        window: words[4],
        workers: words[5],
    }
}

fn batch_line<'a>(kind: &[u8]) -> Option<Line<'a>>
    ensures some { IfSome result (λ l. (line_words (line_decoded l) ≡ kind.now ∷ [])
        × IsTrue (is_line (line_decoded l))) }
    ensures none { IfNone result (codes "batch" ≢ kind.now) }
{
    if says(kind, b"batch") {
        Some(Line::Batch)
    } else {
        None
    }
}

fn head_line<'a>(
    kind: &[u8],
    replicas: &[u8],
    verifiers: &[u8],
    quorum: &[u8],
    window: &[u8],
    workers: &[u8],
) -> Option<Line<'a>>
    ensures some { IfSome result (λ l.
        (line_words (line_decoded l) ≡ kind.now ∷ replicas.now ∷ verifiers.now ∷ quorum.now ∷ window.now ∷ workers.now
        ∷ [])
        × IsTrue (is_line (line_decoded l))) }
    ensures none { IfNone result ((d : DeploymentValue) → IsTrue (is_deployment d) →
        line_words (HeadLine d) ≢ kind.now ∷ replicas.now ∷ verifiers.now ∷ quorum.now ∷ window.now
        ∷ workers.now ∷ []) }
{
    if !says(kind, b"eve") {
        return None;
    }
    let deployment = Deployment {
        replicas: byte_number(replicas)?,
        verifiers: byte_number(verifiers)?,
        quorum: byte_number(quorum)?,
        window: byte_number(window)?,
        workers: byte_number(workers)?,
    };
    if deployment.is_right() {
        Some(Line::Head(deployment))
    } else {
        None
    }
}

fn customer_line<'a>(name: &'a [u8], saved: &[u8], checked: &[u8]) -> Option<Line<'a>>
    ensures some { IfSome result (λ l.
        (line_words (line_decoded l) ≡ codes "customer" ∷ name.entry.now ∷ saved.now ∷ checked.now ∷ [])
        × IsTrue (is_line (line_decoded l))) }
    ensures none { IfNone result ((c : Customer) → IsTrue (is_customer c) →
        line_words (CustomerLine c) ≢ codes "customer" ∷ name.entry.now ∷ saved.now ∷ checked.now ∷ []) }
{
    if !is_name(name) {
        return None;
    }
    Some(Line::Customer(CustomerFields {
        name,
        saving: saving(saved)?,
        checking: balance(checked)?,
    }))
}

/// The request with one name and no amount.
fn short_line<'a>(kind: &[u8], client: &[u8], count: &[u8], name: &'a [u8]) -> Option<Line<'a>>
    ensures some { IfSome result (λ l.
        (line_words (line_decoded l) ≡ kind.now ∷ client.now ∷ count.now ∷ name.entry.now ∷ [])
        × IsTrue (is_line (line_decoded l))) }
    ensures none { IfNone result ((a : AskedValue) → IsTrue (is_asked a) →
        line_words (RequestLine a) ≢ kind.now ∷ client.now ∷ count.now ∷ name.entry.now ∷ []) }
{
    if !says(kind, b"balance") || !is_name(name) {
        return None;
    }
    Some(Line::Request(Asked {
        client: small_number(client)?,
        number: number(count)?,
        request: Request::Balance(name),
    }))
}

/// A request with a name, and an amount or another name.
fn long_line<'a>(
    kind: &[u8],
    client: &[u8],
    count: &[u8],
    name: &'a [u8],
    last: &'a [u8],
) -> Option<Line<'a>>
    ensures some { IfSome result (λ l.
        (line_words (line_decoded l) ≡ kind.now ∷ client.now ∷ count.now ∷ name.entry.now ∷ last.entry.now ∷ [])
        × IsTrue (is_line (line_decoded l))) }
    ensures none { IfNone result ((a : AskedValue) → IsTrue (is_asked a) →
        line_words (RequestLine a) ≢ kind.now ∷ client.now ∷ count.now ∷ name.entry.now ∷ last.entry.now ∷ []) }
{
    let client = small_number(client)?;
    let number = number(count)?;
    let Some(request) = long_request(kind, name, last) else {
        return None;
    };
    Some(Line::Request(Asked {
        client,
        number,
        request,
    }))
}

fn long_request<'a>(kind: &[u8], name: &'a [u8], last: &'a [u8]) -> Option<Request<'a>>
    ensures some { IfSome result (λ r. IsTrue (is_request (plain r)) × ((client number : List ℕ) →
        request_words client number (plain r) ≡ kind.now ∷ client ∷ number ∷ name.entry.now ∷ last.entry.now ∷ [])) }
    ensures none { IfNone result ((r : RequestValue) (client number other others : List ℕ) → IsTrue (is_request r) →
        request_words client number r ≢ kind.now ∷ other ∷ others ∷ name.entry.now ∷ last.entry.now ∷ []) }
{
    if !is_name(name) {
        return None;
    }
    if says(kind, b"amalgamate") {
        return if is_name(last) {
            Some(Request::Amalgamate(name, last))
        } else {
            None
        };
    }
    let amount = amount(last)?;
    if says(kind, b"deposit") {
        Some(Request::DepositChecking(name, amount))
    } else if says(kind, b"transact") {
        Some(Request::TransactSaving(name, amount))
    } else if says(kind, b"check") {
        Some(Request::WriteCheck(name, amount))
    } else {
        None
    }
}
