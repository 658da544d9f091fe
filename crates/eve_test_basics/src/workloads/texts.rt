//! Texts that are read and cut.

ghost use Rattle.std.specs.Prelude.{◌≤◌, length};

use crate::cases::bytes_of;
use eve_accounts::Names;
use eve_testing::Text;
use eve_workload::{Mixer, Workload, WorkloadFault, mix};
use eve_write::{BatchData, CustomerData, RequestData};
use std::alloc::Global;
use std::hash::RandomState;

/// The bytes of a text as it is written on a line: `/` stands for a line feed.
pub fn text_of(alloc: Global, written: &str, said: &mut Text) -> Vec<u8> {
    let mut bytes = bytes_of(alloc, written, said);
    for byte in &mut bytes {
        if *byte == b'/' {
            *byte = b'\n';
        }
    }
    bytes
}

/// Says what the text comes to in this format.
pub fn read(alloc: Global, name: &str, text: &[u8], format: u16, said: &mut Text) {
    said.words(name);
    said.words(": ");
    let wrong = wrong_line(alloc, text, format, said);
    tell_wrong(wrong, said);
}

/// The line of the text that isn't right in this format, if there is one.
fn wrong_line(alloc: Global, text: &[u8], format: u16, said: &mut Text) -> Option<u32> {
    match Workload::read(alloc, text, format) {
        Ok(_) => None,
        Err(WorkloadFault::Line(number)) => Some(number),
        Err(WorkloadFault::Memory) => {
            said.refused();
            None
        }
    }
}

/// Says `right`, or the line that isn't.
fn tell_wrong(wrong: Option<u32>, said: &mut Text) {
    match wrong {
        None => said.words("right\n"),
        Some(number) => {
            said.value("line ", number);
            said.words("\n");
        }
    }
}

/// Says what each prefix of the text comes to; prefixes of one answer that follow one another stand on one line.
pub fn cut(alloc: Global, name: &str, text: &[u8], said: &mut Text) {
    let mut from = 0;
    let mut wrong = wrong_line(alloc, &text[..0], 1, said);
    for len in 0..text.len() {
        let next = wrong_line(alloc, &text[..len + 1], 1, said);
        if next != wrong {
            tell_prefixes(name, from, len, said);
            tell_wrong(wrong, said);
            from = len + 1;
            wrong = next;
        }
    }
    tell_prefixes(name, from, text.len(), said);
    tell_wrong(wrong, said);
}

/// Says of which prefixes something is told.
fn tell_prefixes(name: &str, from: usize, to: usize, said: &mut Text) {
    said.words(name);
    said.value(", ", from);
    said.value(" to ", to);
    said.words(" bytes: ");
}

/// The customers' names. They differ, so lack of memory alone keeps one out.
pub fn names_of<'a>(
    alloc: Global,
    keys: RandomState,
    customers: &'a [CustomerData],
    said: &mut Text,
) -> Names<'a> {
    let mut names = Names::new(alloc, keys, 4096);
    for customer in customers {
        said.stored(names.add(customer.name.as_slice()));
    }
    names
}

/// Cuts each batch of the text by both mixers.
pub fn mixed(alloc: Global, keys: RandomState, name: &str, text: &[u8], said: &mut Text) {
    said.words(name);
    said.words(":");
    match Workload::read(alloc, text, 1) {
        Ok(workload) => tell_batches(alloc, keys, &workload, said),
        Err(WorkloadFault::Line(_)) => said.words(" not right"),
        Err(WorkloadFault::Memory) => said.refused(),
    }
    said.words("\n");
}

fn tell_batches(alloc: Global, keys: RandomState, workload: &Workload, said: &mut Text) {
    let names = names_of(alloc, keys, workload.customers(), said);
    for n in 0..workload.batches() {
        let requests = workload.batch(n + 1);
        said.words(if n > 0 { "; first" } else { " first" });
        tell_mixed(alloc, requests, &names, Mixer::First, said);
        said.words(", whole");
        tell_mixed(alloc, requests, &names, Mixer::Whole, said);
    }
}

/// Cuts these requests.
fn tell_mixed(alloc: Global, requests: &[RequestData], names: &Names, mixer: Mixer, said: &mut Text)
    requires some { 1 ≤ length requests.now }
    requires few { length requests.now ≤ 256 }
{
    match mix(alloc, requests, names, mixer) {
        Ok(batch) => list(&batch, said),
        Err(_) => said.refused(),
    }
}

/// Lists the numbers of the requests of each parallelBatch.
fn list(batch: &BatchData, said: &mut Text) {
    let mut requests = batch.requests.iter();
    for size in &batch.sizes {
        said.words(" [");
        for place in 0..*size {
            if let Some(request) = requests.next() {
                said.value(if place > 0 { " " } else { "" }, request.number);
            }
        }
        said.words("]");
    }
}
