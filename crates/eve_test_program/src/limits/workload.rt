//! Workloads as large as is wanted, in which no two requests of a batch conflict: so every replica does the same,
//! however its threads run.

use crate::bytes::Bytes;
use std::alloc::Global;

/// How large a workload is.
#[derive(Clone, Copy)]
pub(crate) struct Size {
    /// The replicas.
    pub(crate) replicas: u8,
    /// The verifiers.
    pub(crate) verifiers: u8,
    /// How many of them decide.
    pub(crate) quorum: u8,
    /// How many batches are attempted before the first is decided.
    pub(crate) window: u8,
    /// The workers of a replica.
    pub(crate) workers: u8,
    /// The customers: as many as a batch has requests, or more.
    pub(crate) customers: u32,
    /// The batches.
    pub(crate) batches: u32,
    /// The requests of each batch.
    pub(crate) requests: u32,
    /// Whose the requests are.
    pub(crate) clients: Clients,
}

/// The clients of a workload.
#[derive(Clone, Copy)]
pub(crate) enum Clients {
    /// One client, with the number of its first request: the next one's is one more, and after the greatest comes 0.
    One(u32),
    /// One for each batch, from 0 on.
    EachBatch,
    /// One for each request, from this one on.
    EachRequest(u32),
}

impl Size {
    /// The client of a request, and the client's number for it.
    fn id_of(&self, batch: u32, request: u32) -> (u32, u32) {
        let count = self.batches.wrapping_mul(self.requests);
        let place = batch.wrapping_mul(self.requests).wrapping_add(request);
        match self.clients {
            Clients::One(first) => {
                let number = first.wrapping_add(place).checked_rem(count);
                (0, number.unwrap_or(0))
            }
            Clients::EachBatch => (batch, request),
            Clients::EachRequest(first) => (first.wrapping_add(place), 0),
        }
    }
}

/// The text of a workload: each request is of the customer after the one before, and the kinds take turns.
pub(crate) fn workload(alloc: Global, size: &Size) -> Bytes {
    let mut text = Bytes::none(alloc);
    write_head(&mut text, size);
    write_batches(&mut text, size);
    text
}

/// Writes the numbers of a workload, and its customers.
fn write_head(text: &mut Bytes, size: &Size) {
    text.number("eve ", u64::from(size.replicas));
    text.number(" ", u64::from(size.verifiers));
    text.number(" ", u64::from(size.quorum));
    text.number(" ", u64::from(size.window));
    text.number(" ", u64::from(size.workers));
    text.words("\n");
    for customer in 0..u64::from(size.customers) {
        text.number("customer c", customer);
        text.number(" ", customer);
        text.number(" -", customer + 1);
        text.words("\n");
    }
}

/// Writes the batches of a workload.
fn write_batches(text: &mut Bytes, size: &Size) {
    let mut customer = 0;
    for batch in 0..size.batches {
        text.words("batch\n");
        for request in 0..size.requests {
            let (client, number) = size.id_of(batch, request);
            write_request(text, client, number, customer);
            customer = customer.saturating_add(1);
            if customer >= size.customers {
                customer = 0;
            }
        }
    }
}

/// Writes a request of a customer.
fn write_request(text: &mut Bytes, client: u32, number: u32, customer: u32) {
    let (kind, amount) = match number % 4 {
        0 => ("deposit ", " 5\n"),
        1 => ("transact ", " 7\n"),
        2 => ("check ", " 3\n"),
        _ => ("balance ", "\n"),
    };
    text.number(kind, u64::from(client));
    text.number(" ", u64::from(number));
    text.number(" c", u64::from(customer));
    text.words(amount);
}
