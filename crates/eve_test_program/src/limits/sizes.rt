//! How large the runs are.

use crate::limits::workload::{Clients, Size};

/// All that the header counts at its greatest but the batches, in batches of 256 requests.
pub(crate) static GREATEST: Size = Size {
    replicas: 8,
    verifiers: 16,
    quorum: 9,
    window: 8,
    workers: 8,
    customers: 4096,
    batches: 2,
    requests: 256,
    clients: Clients::EachBatch,
};

/// More than a thousand batches, each decided by all verifiers.
pub(crate) static LONGEST: Size = Size {
    replicas: 8,
    verifiers: 16,
    quorum: 16,
    window: 8,
    workers: 1,
    customers: 2,
    batches: 1030,
    requests: 1,
    clients: Clients::EachBatch,
};

/// More than a thousand windows, each of one batch.
pub(crate) static WINDOWS: Size = Size {
    replicas: 1,
    verifiers: 1,
    quorum: 1,
    window: 1,
    workers: 1,
    customers: 2,
    batches: 1060,
    requests: 1,
    clients: Clients::EachBatch,
};

/// A hundred batches, in the last third of which the numbers of the one client begin at 0.
pub(crate) static FALLING: Size = Size {
    replicas: 2,
    verifiers: 1,
    quorum: 1,
    window: 8,
    workers: 1,
    customers: 2,
    batches: 100,
    requests: 1,
    clients: Clients::One(32),
};

/// A client for each of 5,120 requests, past those of which the greatest numbers are kept.
pub(crate) static CLIENTS: Size = Size {
    replicas: 1,
    verifiers: 1,
    quorum: 1,
    window: 8,
    workers: 1,
    customers: 256,
    batches: 20,
    requests: 256,
    clients: Clients::EachRequest(4096),
};

/// More than four megabytes, and more than fifty thousand replies sent.
pub(crate) static WIDEST: Size = Size {
    replicas: 8,
    verifiers: 16,
    quorum: 9,
    window: 8,
    workers: 2,
    customers: 256,
    batches: 28,
    requests: 256,
    clients: Clients::EachBatch,
};

/// One window of 256 requests a batch, over all rows that there may be.
pub(crate) static WINDOW: Size = Size {
    replicas: 8,
    verifiers: 16,
    quorum: 9,
    window: 8,
    workers: 1,
    customers: 4096,
    batches: 8,
    requests: 256,
    clients: Clients::EachBatch,
};

/// As many customers as there may be, which is in format 2.
pub(crate) static CUSTOMERS: Size = Size {
    replicas: 1,
    verifiers: 1,
    quorum: 1,
    window: 1,
    workers: 1,
    customers: 65_536,
    batches: 1,
    requests: 256,
    clients: Clients::EachBatch,
};
