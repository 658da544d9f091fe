//! The votes of a run, which are those of each verifier.

ghost use Rattle.std.specs.Prelude.{◌≡◌, ◌≤◌, [], ◌∷◌, ◌++◌, map, OnOk};
ghost use Rattle.eve_grammar.specs.Trace.{ForCommit, ForRollback};
ghost use Rattle.eve_write.specs.Data.{vote as plain};
ghost use Rattle.eve_replica.specs.inner.RunInvariant.{AreVotesOn};

use eve_grammar::token_fits;
use eve_write::{ChoiceData, VoteData};
use std::alloc::AllocError;

/// Adds a vote for the commit of a batch.
pub(crate) fn vote_for_commit(
    votes: &mut Vec<VoteData>,
    batches: usize,
    seq: u32,
    view: u32,
    token: [u8; 32],
) -> Result<(), AllocError>
    requires seq { (1 ≤ seq) × (seq ≤ batches) }
    requires votes { AreVotesOn batches votes.old.items }
    ensures on { OnOk result (AreVotesOn batches votes.new.items) }
    ensures added { OnOk result (map plain votes.new.items ≡ map plain votes.old.items
        ++ record { seq = seq; view = view; choice = ForCommit token } ∷ []) }
{
    token_fits(&token);
    votes.push(VoteData {
        seq,
        view,
        choice: ChoiceData::ForCommit,
        token,
    })?;
    Ok(())
}

/// Adds a vote for the rollback of a batch.
pub(crate) fn vote_for_rollback(
    votes: &mut Vec<VoteData>,
    batches: usize,
    seq: u32,
    view: u32,
) -> Result<(), AllocError>
    requires seq { (1 ≤ seq) × (seq ≤ batches) }
    requires votes { AreVotesOn batches votes.old.items }
    ensures on { OnOk result (AreVotesOn batches votes.new.items) }
    ensures added { OnOk result (map plain votes.new.items ≡ map plain votes.old.items
        ++ record { seq = seq; view = view; choice = ForRollback } ∷ []) }
{
    votes.push(VoteData {
        seq,
        view,
        choice: ChoiceData::ForRollback,
        token: [0; 32],
    })?;
    Ok(())
}
