//! Texts with the greatest numbers of customers, requests and batches.

use crate::workloads::texts::{names_of, read};
use eve_testing::Text;
use eve_workload::{Mixer, Workload, mix};
use std::alloc::Global;
use std::hash::RandomState;

/// A text, and how it is made: between a prefix and an end `count` times the same with another number.
struct Made {
    name: &'static str,
    format: u16,
    prefix: &'static str,
    count: u32,
    before_number: &'static str,
    behind_number: &'static str,
    end: &'static str,
    is_cut: bool,
}

/// Texts that are read, at a limit and one past it; and two of one batch, which is cut.
static MADE: [Made; 11] = [
    Made {
        name: "4096 customers",
        format: 1,
        prefix: "eve 1 1 1 1 1\n",
        count: 4096,
        before_number: "customer c",
        behind_number: " 0 0\n",
        end: "",
        is_cut: false,
    },
    Made {
        name: "4097 customers",
        format: 1,
        prefix: "eve 1 1 1 1 1\n",
        count: 4097,
        before_number: "customer c",
        behind_number: " 0 0\n",
        end: "",
        is_cut: false,
    },
    Made {
        name: "4097 customers in format 2",
        format: 2,
        prefix: "eve 1 1 1 1 1\n",
        count: 4097,
        before_number: "customer c",
        behind_number: " 0 0\n",
        end: "",
        is_cut: false,
    },
    Made {
        name: "65536 customers in format 2",
        format: 2,
        prefix: "eve 1 1 1 1 1\n",
        count: 65536,
        before_number: "customer c",
        behind_number: " 0 0\n",
        end: "",
        is_cut: false,
    },
    Made {
        name: "65537 customers in format 2",
        format: 2,
        prefix: "eve 1 1 1 1 1\n",
        count: 65537,
        before_number: "customer c",
        behind_number: " 0 0\n",
        end: "",
        is_cut: false,
    },
    Made {
        name: "256 requests",
        format: 1,
        prefix: ONE_BATCH,
        count: 256,
        before_number: "balance 7 ",
        behind_number: " ann\n",
        end: "",
        is_cut: false,
    },
    Made {
        name: "65535 batches",
        format: 1,
        prefix: ONE_CUSTOMER,
        count: 65535,
        before_number: BATCH,
        behind_number: " ann\n",
        end: "",
        is_cut: false,
    },
    Made {
        name: "65536 batches",
        format: 1,
        prefix: ONE_CUSTOMER,
        count: 65535,
        before_number: BATCH,
        behind_number: " ann\n",
        end: "batch\n",
        is_cut: false,
    },
    Made {
        name: "65535 batches and the first request again",
        format: 1,
        prefix: ONE_CUSTOMER,
        count: 65535,
        before_number: BATCH,
        behind_number: " ann\n",
        end: "balance 7 0 ann\n",
        is_cut: false,
    },
    Made {
        name: "256 deposits of one customer",
        format: 1,
        prefix: ONE_BATCH,
        count: 256,
        before_number: "deposit 7 ",
        behind_number: " ann 5\n",
        end: "",
        is_cut: true,
    },
    Made {
        name: "256 balances of one customer",
        format: 1,
        prefix: ONE_BATCH,
        count: 256,
        before_number: "balance 7 ",
        behind_number: " ann\n",
        end: "",
        is_cut: true,
    },
];

const ONE_CUSTOMER: &str = "eve 1 1 1 1 1\ncustomer ann 0 0\n";

const ONE_BATCH: &str = "eve 1 1 1 1 1\ncustomer ann 0 0\nbatch\n";

const BATCH: &str = "batch\nbalance 7 ";

/// Says what texts at the limits come to, and one past them.
pub fn greatest(alloc: Global, keys: RandomState, said: &mut Text) {
    for made in &MADE {
        tell(alloc, keys, made, said);
    }
}

/// Says what a text comes to, or how it is cut.
fn tell(alloc: Global, keys: RandomState, made: &Made, said: &mut Text) {
    let text = text_of(alloc, made);
    said.fail_as(&text);
    if made.is_cut {
        tell_cut(alloc, keys, made.name, text.as_str().as_bytes(), said);
    } else {
        read(
            alloc,
            made.name,
            text.as_str().as_bytes(),
            made.format,
            said,
        );
    }
}

fn text_of(alloc: Global, made: &Made) -> Text {
    let mut text = Text::new(alloc);
    text.words(made.prefix);
    for number in 0..made.count {
        text.value(made.before_number, number);
        text.words(made.behind_number);
    }
    text.words(made.end);
    text
}

/// Says into how many parallelBatches the first mixer cuts the first batch of a text.
fn tell_cut(alloc: Global, keys: RandomState, name: &str, text: &[u8], said: &mut Text) {
    said.words(name);
    match Workload::read(alloc, text, 1) {
        Ok(workload) => tell_parallel_batches(alloc, keys, &workload, said),
        Err(_) => said.refused(),
    }
    said.words(" parallelBatches\n");
}

fn tell_parallel_batches(alloc: Global, keys: RandomState, workload: &Workload, said: &mut Text) {
    if workload.batches() == 0 {
        return;
    }
    let names = names_of(alloc, keys, workload.customers(), said);
    match mix(alloc, workload.batch(1), &names, Mixer::First) {
        Ok(batch) => said.value(": ", batch.sizes.len()),
        Err(_) => said.refused(),
    }
}
