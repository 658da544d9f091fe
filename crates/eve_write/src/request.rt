//! Requests with names of their own.

ghost use Rattle.std.specs.Prelude.{◌≡◌, ◌+◌, ◌≤◌, IsTrue, length};
ghost use Rattle.std.specs.List.{flat_map, list_all};
ghost use Rattle.arrayvec.specs.ArrayVec.{array_vec_len};
ghost use Rattle.eve_smallbank.specs.SmallBank.{plain};
ghost use Rattle.eve_grammar.specs.Spelling.{asked_text};
ghost use Rattle.eve_grammar.specs.Limits.{is_asked, is_request};
ghost use Rattle.eve_write.specs.Data.{transaction, asked};
ghost use Rattle.eve_write.specs.Writes.{Puts};

use crate::fields::put_request;
use crate::pieces::put;
use crate::right::Judge;
use crate::short::{MOST_GATHERED, Short};
use arrayvec::ArrayVec;
use eve_accounts::{Amount, Name};
use eve_grammar::{Head, MOST_REQUESTS};
use eve_smallbank::Request;

/// A transaction of SmallBank (Alomari et al., ICDE 2008) with names of its own.
///
/// docs/MODEL.md, "Transactions", has the effect of each. Contracts see it by `transaction`.
#[derive(Clone, Copy)]
pub enum TransactionData {
    /// Both balances of the customer, added up.
    Balance(Name),
    /// The amount comes to the checking balance.
    DepositChecking(Name, Amount),
    /// The amount, which may be below 0, comes to the saving balance.
    TransactSaving(Name, Amount),
    /// All that the first customer has comes to the checking balance of the second.
    Amalgamate(Name, Name),
    /// A check over the amount is paid from the checking balance.
    WriteCheck(Name, Amount),
}

/// A request of a client. Contracts see it by `asked`.
#[derive(Clone, Copy)]
pub struct RequestData {
    /// The client.
    pub client: u32,
    /// The client's number for it.
    pub number: u64,
    /// What is asked for.
    pub transaction: TransactionData,
}

impl RequestData {
    /// What is asked for, with borrowed names.
    pub fn request(&self) -> Request<'_>
        ensures { plain result ≡ (asked self.now).request }
    {
        match &self.transaction {
            TransactionData::Balance(name) => Request::Balance(name.as_slice()),
            TransactionData::DepositChecking(name, amount) => {
                Request::DepositChecking(name.as_slice(), *amount)
            }
            TransactionData::TransactSaving(name, amount) => {
                Request::TransactSaving(name.as_slice(), *amount)
            }
            TransactionData::Amalgamate(from, to) => {
                Request::Amalgamate(from.as_slice(), to.as_slice())
            }
            TransactionData::WriteCheck(name, amount) => {
                Request::WriteCheck(name.as_slice(), *amount)
            }
        }
    }
}

/// Appends a request after its client and number.
fn put_asked<const N: usize>(frame: &mut ArrayVec<u8, N>, asks: &RequestData)
    requires right { IsTrue (is_asked (asked asks.now)) }
    requires room { array_vec_len frame.old + 63 ≤ N }
    ensures { Puts frame.old.items frame.new.items (asked_text (asked asks.now)) }
{
    put(frame, &asks.client.to_be_bytes());
    put(frame, &asks.number.to_be_bytes());
    put_request(frame, asks.request());
}

impl Short for RequestData {
    ghost text = { λ r. asked_text (asked r) };

    ghost fits = { λ r. is_asked (asked r) };

    fn put(&self, texts: &mut ArrayVec<u8, MOST_GATHERED>) {
        put_asked(texts, self);
    }
}

/// How long a request is in bytes, its client and number included.
fn len_of_request(request: &RequestData) -> u32
    requires { IsTrue (is_asked (asked request.now)) }
    ensures len { result ≡ length (asked_text (asked request.now)) }
    ensures small { result ≤ 65 }
{
    match request.request() {
        Request::Balance(name) => 14 + name.len() as u32,
        Request::Amalgamate(from, to) => 15 + from.len() as u32 + to.len() as u32,
        Request::DepositChecking(name, _)
        | Request::TransactSaving(name, _)
        | Request::WriteCheck(name, _) => 22 + name.len() as u32,
    }
}

/// How long at most `MOST_REQUESTS` requests are together in bytes.
pub(crate) fn len_of_requests(requests: &[RequestData]) -> u32
    requires few { length requests.now ≤ MOST_REQUESTS }
    requires right { IsTrue (list_all (λ r. is_asked (asked r)) requests.now) }
    ensures len { result ≡ length (flat_map (λ r. asked_text (asked r)) requests.now) }
    ensures small { result ≤ 65536 }
{
    let mut len = 0;
    for request in requests {
        len += len_of_request(request);
    }
    len
}

/// A transaction lies within the limits as it stands.
fn request_fits(asks: &TransactionData)
    ensures { IsTrue (is_request (transaction asks.now)) }
{
    match asks {
        TransactionData::Balance(name) => {
            name.as_slice();
        }
        TransactionData::Amalgamate(from, to) => {
            from.as_slice();
            to.as_slice();
        }
        TransactionData::DepositChecking(name, amount)
        | TransactionData::TransactSaving(name, amount)
        | TransactionData::WriteCheck(name, amount) => {
            name.as_slice();
            amount.get();
        }
    }
}

impl Judge for RequestData {
    ghost right = { λ h r. is_asked (asked r) };

    fn is_right(&self, _head: &Head) -> bool {
        let _client = self.client;
        let _number = self.number;
        request_fits(&self.transaction);
        true
    }
}
