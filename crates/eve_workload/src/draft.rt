//! A workload, as far as its lines have been read.

ghost use Rattle.std.specs.Prelude.{◌≡◌, ◌≤◌, ℕ, ◌+◌, List, [], not, true, if◌then◌else◌, length, IfOk, OnOk, IsTrue};
ghost use Rattle.std.specs.Prelude.{vec_capacity};
ghost use Rattle.eve_accounts.specs.Names.{same_name};
ghost use Rattle.eve_grammar.specs.Trace.{Customer, Asked as AskedValue};
ghost use Rattle.eve_grammar.specs.Limits.{is_customer, is_asked};
ghost use Rattle.eve_grammar.specs.Bodies.{borrowed_asked};
ghost use Rattle.eve_workload.specs.declared.deployment.Deployment.{Deployment as DeploymentValue};
ghost use Rattle.eve_workload.specs.Lines.{Line as LineValue, HeadLine, CustomerLine, BatchLine, RequestLine};
ghost use Rattle.eve_workload.specs.Workload.{is_deployment};
ghost use Rattle.eve_workload.specs.Steps.{may_follow, may_end, is_line};
ghost use Rattle.eve_workload.specs.inner.Decoded.{borrowed_customer, line_decoded};
ghost use Rattle.eve_workload.specs.inner.Drafts.{last_in, next_of, has_name, IsSmall, Keeps, Takes};
ghost use Rattle.eve_workload.specs.inner.Drafts.{TakesLine};
ghost use Rattle.eve_workload.specs.inner.Words.{HasLineFeed};
ghost use Rattle.eve_workload.specs.declared.words.TheConstants.{MOST_WORDS};

use crate::deployment::Deployment;
use crate::line::{CustomerFields, Line, line_of};
use crate::request_ids::RequestIds;
use crate::requests::add_to_last;
use crate::words::split_line;
use eve_accounts::Name;
use eve_grammar::{Asked, MOST_BATCHES, MOST_REQUESTS, most_customers};
use eve_write::{CustomerData, RequestData};
use std::alloc::{AllocError, Global};
use std::collections::BTreeSet;

/// What the last line was.
#[derive(Clone, Copy)]
pub(crate) enum Last {
    Nothing,
    Head,
    Customer,
    Batch,
    Request,
}

/// What the lines that were read say.
#[derive(Drop)]
pub(crate) struct Draft<'a> {
    // The format in which they are read.
    pub format: u16,
    pub last: Last,
    pub deployment: Deployment,
    pub customers: Vec<CustomerData>,
    pub names: BTreeSet<&'a [u8]>,
    // The requests of each batch.
    pub batches: Vec<Vec<RequestData>>,
    pub request_ids: RequestIds,
    // How many requests there are.
    pub requests: u32,
    // How many of them the last batch has.
    pub count: u32,
}

impl<'a> Draft<'a> {
    /// Nothing was read, and what comes is read in this format.
    pub(crate) fn new(alloc: Global, format: u16) -> Draft<'a>
        ensures keeps { Keeps result [] }
        ensures format { result.format ≡ format }
    {
        Draft {
            format,
            last: Last::Nothing,
            deployment: Deployment {
                replicas: 0,
                verifiers: 0,
                quorum: 0,
                window: 0,
                workers: 0,
            },
            customers: Vec::new(alloc),
            names: BTreeSet::new(alloc),
            batches: Vec::new(alloc),
            request_ids: RequestIds::new(alloc),
            requests: 0,
            count: 0,
        }
    }

    /// Takes the first line of a text, and says how long it is; `None` where it is no line that may stand here.
    pub(crate) fn take_line(
        &mut self,
        alloc: Global,
        text: &'a [u8],
        words: &mut Vec<&'a [u8]>,
    ) -> Result<Option<usize>, AllocError>
        requires keeps { (before : List LineValue) × Keeps self.old before }
        requires feed { HasLineFeed text.now 0 }
        requires room { MOST_WORDS ≤ vec_capacity words.old }
        ensures accepted { IfOk result (λ accepted. (before : List LineValue) → Keeps self.old before
            → TakesLine self.new before text.entry.now accepted) }
        ensures format { OnOk result (self.new.format ≡ self.old.format) }
        ensures room { vec_capacity words.new ≡ vec_capacity words.old }
    {
        let Some(len) = split_line(text, words) else {
            return Ok(None);
        };
        let Some(line) = line_of(words.as_slice()) else {
            return Ok(None);
        };
        let accepted = self.take(alloc, &line)?;
        Ok(if accepted { Some(len) } else { None })
    }

    /// Takes a line, or says that it may not stand here.
    fn take(&mut self, alloc: Global, line: &Line<'a>) -> Result<bool, AllocError>
        requires keeps { (before : List LineValue) × Keeps self.old before }
        requires right { IsTrue (is_line (line_decoded line.now)) }
        ensures accepted { IfOk result (λ accepted. (before : List LineValue) → Keeps self.old before
            → Takes self.new before (line_decoded line.now) accepted) }
        ensures format { OnOk result (self.new.format ≡ self.old.format) }
    {
        match line {
            Line::Head(deployment) => Ok(self.take_head(*deployment)),
            Line::Customer(customer) => self.take_customer(customer),
            Line::Batch => self.take_batch(alloc),
            Line::Request(asked) => self.take_request(asked),
        }
    }

    fn take_head(&mut self, deployment: Deployment) -> bool
        requires { IsTrue (is_deployment deployment) }
        ensures accepted { (before : List LineValue) → Keeps self.old before
            → Takes self.new before (HeadLine deployment) result }
        ensures format { self.new.format ≡ self.old.format }
    {
        if !self.last.takes_head() {
            return false;
        }
        self.deployment = deployment;
        self.last = Last::Head;
        true
    }

    fn take_customer(&mut self, customer: &CustomerFields<'a>) -> Result<bool, AllocError>
        requires { IsTrue (is_customer (borrowed_customer customer.now)) }
        ensures accepted { IfOk result (λ accepted. (before : List LineValue) → Keeps self.old before
            → Takes self.new before (CustomerLine (borrowed_customer customer.now)) accepted) }
        ensures format { OnOk result (self.new.format ≡ self.old.format) }
    {
        if !self.last.takes_customer() {
            return Ok(false);
        }
        if self.customers.len() >= most_customers(self.format) as usize {
            return Ok(false);
        }
        let name = customer.name;
        if !add_name(&mut self.names, name)? {
            return Ok(false);
        }
        self.customers.push(CustomerData {
            name: Name::of(name),
            saving: customer.saving,
            checking: customer.checking,
        })?;
        self.last = Last::Customer;
        Ok(true)
    }

    fn take_batch(&mut self, alloc: Global) -> Result<bool, AllocError>
        ensures accepted { IfOk result (λ accepted. (before : List LineValue) → Keeps self.old before
            → Takes self.new before BatchLine accepted) }
        ensures format { OnOk result (self.new.format ≡ self.old.format) }
    {
        if !self.last.takes_batch() {
            return Ok(false);
        }
        if self.batches.len() >= MOST_BATCHES as usize {
            return Ok(false);
        }
        self.batches.push(Vec::new(alloc))?;
        self.count = 0;
        self.last = Last::Batch;
        Ok(true)
    }

    fn take_request(&mut self, asked: &Asked<'a>) -> Result<bool, AllocError>
        requires keeps { (before : List LineValue) × Keeps self.old before }
        requires right { IsTrue (is_asked (borrowed_asked asked.now)) }
        ensures accepted { IfOk result (λ accepted. (before : List LineValue) → Keeps self.old before
            → Takes self.new before (RequestLine (borrowed_asked asked.now)) accepted) }
        ensures format { OnOk result (self.new.format ≡ self.old.format) }
    {
        if !self.last.takes_request() {
            return Ok(false);
        }
        if self.count as usize >= MOST_REQUESTS {
            return Ok(false);
        }
        let id = (asked.client, asked.number);
        if !self.request_ids.add(id, self.batches.as_slice())? {
            return Ok(false);
        }
        add_to_last(&mut self.batches, asked)?;
        self.requests += 1;
        self.count += 1;
        self.last = Last::Request;
        Ok(true)
    }

    /// The number of the next line, from 1.
    pub(crate) fn next_line(&self) -> u32
        requires { IsSmall self.now }
        ensures { (before : List LineValue) → Keeps self.now before → result ≡ length before + 1 }
    {
        let first = self.last.next_line();
        first + (self.customers.len() + self.batches.len()) as u32 + self.requests
    }
}

impl Last {
    fn takes_head(self) -> bool
        ensures { (before : List LineValue) (d : DeploymentValue) → self ≡ last_in before
            → result ≡ may_follow before (HeadLine d) }
    {
        matches!(self, Last::Nothing)
    }

    fn takes_customer(self) -> bool
        ensures { (before : List LineValue) (c : Customer) → self ≡ last_in before
            → result ≡ may_follow before (CustomerLine c) }
    {
        matches!(self, Last::Head | Last::Customer)
    }

    fn takes_batch(self) -> bool
        ensures { (before : List LineValue) → self ≡ last_in before → result ≡ may_follow before BatchLine }
    {
        matches!(self, Last::Customer | Last::Request)
    }

    fn takes_request(self) -> bool
        ensures { (before : List LineValue) (a : AskedValue) → self ≡ last_in before
            → result ≡ may_follow before (RequestLine a) }
    {
        matches!(self, Last::Batch | Last::Request)
    }

    /// Whether a text may end after this line.
    pub(crate) fn may_end(self) -> bool
        ensures { (before : List LineValue) → self ≡ last_in before → result ≡ may_end before }
    {
        matches!(self, Last::Customer | Last::Request)
    }

    /// The number of the line after the head, or of the head.
    fn next_line(self) -> u32
        ensures next { (before : List LineValue) → self ≡ last_in before → result ≡ next_of before }
        ensures small { result ≤ 2 }
    {
        match self {
            Last::Nothing => 1,
            _ => 2,
        }
    }
}

/// Adds a name; whether it is new.
fn add_name<'a>(names: &mut BTreeSet<&'a [u8]>, name: &'a [u8]) -> Result<bool, AllocError>
    ensures new { IfOk result (λ new. new ≡ not (has_name names.old.keys name.entry.now)) }
    ensures kept { IfOk result (λ new. (other : List ℕ) →
        has_name names.new.keys other ≡ (if same_name name.entry.now other then true
        else has_name names.old.keys other)) }
{
    Ok(names.insert(name)?)
}
