//! The parts of a trace that was read, copied.

ghost use Rattle.std.specs.Prelude.{◌<◌, length};

use crate::transfers::copy_of;
use eve_accounts::Name;
use eve_frames::{AccessView, AttemptView, BatchView, CommitView, RollbackView};
use eve_grammar::Choice;
use eve_smallbank::{Entry, Request, UpToThree};
use eve_views::{Accesses, Step as Seen, Trace};
use eve_write::{
    AccessList, AttemptData, BatchData, ChoiceData, CommitData, CustomerData, Parts, RequestData,
    RollbackData, SentData, Step, TransactionData, VoteData,
};
use std::alloc::{AllocError, Global};
use std::sync::Arc;

/// A trace that was read has right names alone.
fn name_of(bytes: &[u8]) -> Result<Name, AllocError> {
    Name::new(bytes).ok_or(AllocError)
}

fn transaction_of(request: Request<'_>) -> Result<TransactionData, AllocError> {
    Ok(match request {
        Request::Balance(name) => TransactionData::Balance(name_of(name)?),
        Request::DepositChecking(name, amount) => {
            TransactionData::DepositChecking(name_of(name)?, amount)
        }
        Request::TransactSaving(name, amount) => {
            TransactionData::TransactSaving(name_of(name)?, amount)
        }
        Request::Amalgamate(from, to) => TransactionData::Amalgamate(name_of(from)?, name_of(to)?),
        Request::WriteCheck(name, amount) => TransactionData::WriteCheck(name_of(name)?, amount),
    })
}

fn batch_of(alloc: Global, batch: BatchView<'_>) -> Result<BatchData, AllocError> {
    let mut sizes = Vec::new(alloc);
    for group in 0..batch.groups() {
        sizes.push(batch.group(group))?;
    }
    let mut requests = Vec::new(alloc);
    for asked in batch.requests() {
        let transaction = transaction_of(asked.request)?;
        requests.push(RequestData {
            client: asked.client,
            number: asked.number,
            transaction,
        })?;
    }
    Ok(BatchData { sizes, requests })
}

fn token_of(bytes: &[u8]) -> [u8; 32] {
    let mut token = [0; 32];
    if bytes.len() == 32 {
        token.copy_from_slice(bytes);
    }
    token
}

/// The access's entries.
fn entries_of(access: &AccessView<'_>) -> UpToThree<Entry> {
    match access.len() {
        0 => UpToThree::new(),
        1 => UpToThree::one(access.entry(0)),
        2 => UpToThree::two(access.entry(0), access.entry(1)),
        _ => UpToThree::three(access.entry(0), access.entry(1), access.entry(2)),
    }
}

fn accesses_of(alloc: Global, seen: &Accesses<'_, '_>) -> Result<AccessList, AllocError> {
    let mut accesses = AccessList::with_capacity(alloc, seen.len(), seen.len())?;
    for place in 0..seen.len() {
        let access = seen.get(place);
        let entries = entries_of(&access);
        accesses.push(access.worker(), access.place(), access.index(), &entries)?;
    }
    Ok(accesses)
}

fn attempt_of(
    alloc: Global,
    attempt: AttemptView<'_>,
    seen: &Accesses<'_, '_>,
) -> Result<AttemptData, AllocError> {
    let mut certificate = Vec::new(alloc);
    for index in attempt.certificate() {
        certificate.push(index)?;
    }
    let mut replies = Vec::new(alloc);
    for reply in attempt.replies() {
        replies.push(reply)?;
    }
    let accesses = accesses_of(alloc, seen)?;
    Ok(AttemptData {
        seq: attempt.seq(),
        view: attempt.view(),
        serial: attempt.is_serial(),
        certificate,
        replies,
        token: token_of(attempt.token()),
        accesses,
    })
}

fn rollback_of(alloc: Global, rollback: RollbackView<'_>) -> Result<RollbackData, AllocError> {
    let mut restores = Vec::new(alloc);
    for restore in rollback.restores() {
        restores.push(restore)?;
    }
    Ok(RollbackData {
        to: rollback.to(),
        view: rollback.view(),
        restores,
    })
}

fn commit_of(commit: CommitView<'_>) -> CommitData {
    CommitData {
        seq: commit.seq(),
        view: commit.view(),
        token: token_of(commit.token()),
    }
}

fn step_of(alloc: Global, seen: Seen<'_, '_>) -> Result<Step, AllocError> {
    Ok(match seen {
        Seen::Attempt(attempt, accesses) => Step::Attempt(attempt_of(alloc, attempt, &accesses)?),
        Seen::Commit(commit) => Step::Commit(commit_of(commit)),
        Seen::Rollback(rollback) => Step::Rollback(rollback_of(alloc, rollback)?),
        Seen::Transfer(transfer) => { Step::Transfer(Arc::new(alloc, copy_of(alloc, &transfer)?)?) }
    })
}

fn section_of(alloc: Global, trace: &Trace<'_>, replica: u8) -> Result<Vec<Step>, AllocError>
    requires { replica < length trace.now.sections }
{
    let mut seen = trace.section(replica);
    let mut steps = Vec::new(alloc);
    for _ in 0..trace.frame_count() {
        match seen.next() {
            Some(step) => steps.push(step_of(alloc, step)?)?,
            None => break,
        }
    }
    Ok(steps)
}

fn votes_of(alloc: Global, trace: &Trace<'_>, verifier: u8) -> Result<Vec<VoteData>, AllocError>
    requires { verifier < length trace.now.verifiers }
{
    let seen = trace.votes(verifier);
    let mut votes = Vec::new(alloc);
    for place in 0..seen.len() {
        let vote = seen.get(place);
        let (choice, token) = match vote.choice() {
            Choice::ForRollback => (ChoiceData::ForRollback, [0; 32]),
            Choice::ForCommit(token) => (ChoiceData::ForCommit, token_of(token)),
        };
        votes.push(VoteData {
            seq: vote.seq(),
            view: vote.view(),
            choice,
            token,
        })?;
    }
    Ok(votes)
}

fn customers_of(alloc: Global, trace: &Trace<'_>) -> Result<Vec<CustomerData>, AllocError> {
    let mut customers = Vec::new(alloc);
    for place in 0..trace.customer_count() {
        let customer = trace.customer(place);
        customers.push(CustomerData {
            name: name_of(customer.name())?,
            saving: customer.saving(),
            checking: customer.checking(),
        })?;
    }
    Ok(customers)
}

fn sent_of(alloc: Global, trace: &Trace<'_>) -> Result<Vec<SentData>, AllocError> {
    let mut all = Vec::new(alloc);
    for place in 0..trace.sent_count() {
        let sent = trace.sent(place);
        all.push(SentData {
            client: sent.client(),
            number: sent.number(),
            replica: sent.replica(),
            seq: sent.seq(),
            reply: sent.reply(),
        })?;
    }
    Ok(all)
}

fn batches_of(alloc: Global, trace: &Trace<'_>) -> Result<Vec<BatchData>, AllocError> {
    let mut batches = Vec::new(alloc);
    for batch in 0..trace.batch_count() {
        batches.push(batch_of(alloc, trace.batch(batch + 1))?)?;
    }
    Ok(batches)
}

fn sections_of(alloc: Global, trace: &Trace<'_>) -> Result<Vec<Vec<Step>>, AllocError> {
    let mut sections = Vec::new(alloc);
    for replica in 0..trace.section_count() {
        sections.push(section_of(alloc, trace, replica)?)?;
    }
    Ok(sections)
}

fn verifiers_of(alloc: Global, trace: &Trace<'_>) -> Result<Vec<Vec<VoteData>>, AllocError> {
    let mut verifiers = Vec::new(alloc);
    for verifier in 0..trace.verifier_count() {
        verifiers.push(votes_of(alloc, trace, verifier)?)?;
    }
    Ok(verifiers)
}

/// All parts of a trace.
pub(crate) fn parts_of(alloc: Global, trace: &Trace<'_>) -> Result<Parts, AllocError> {
    let head = trace.head();
    let mut parts = Parts {
        version: head.version,
        quorum: head.quorum,
        window: head.window,
        workers: head.workers,
        customers: Vec::new(alloc),
        batches: Vec::new(alloc),
        sections: Vec::new(alloc),
        verifiers: Vec::new(alloc),
        sent: Vec::new(alloc),
    };
    parts.customers = customers_of(alloc, trace)?;
    parts.batches = batches_of(alloc, trace)?;
    parts.sections = sections_of(alloc, trace)?;
    parts.verifiers = verifiers_of(alloc, trace)?;
    parts.sent = sent_of(alloc, trace)?;
    Ok(parts)
}
