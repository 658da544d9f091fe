//! Laws about the definitions. Each body is empty: the contract is the law.
//!
//! The views read at the format's own limits. What fits the limits of one trace, which has fewer rows,
//! batches and replicas, is read just the same.

ghost use Rattle.std.specs.Prelude.{◌≡◌, ◌≤◌, ◌<◌, ◌^◌, ℕ, IsTrue, List, [], is_some};
ghost use Rattle.eve_grammar.specs.Trace.{Customer, Batch, Attempt, Access, Commit, Rollback, Transfer};
ghost use Rattle.eve_grammar.specs.Trace.{Vote, Sent};
ghost use Rattle.eve_grammar.specs.Frames.{OfCustomer, OfBatch, OfAttempt, OfAccess, OfCommit, OfRollback, OfVote};
ghost use Rattle.eve_grammar.specs.Frames.{OfTransfer, OfSent, without_accesses};
ghost use Rattle.eve_grammar.specs.Limits.{is_number, is_customer, is_batch, is_attempt, is_access, is_commit};
ghost use Rattle.eve_grammar.specs.Limits.{is_rollback, is_transfer, is_vote, is_sent};
ghost use Rattle.eve_grammar.specs.Readers.{transfer_of};
ghost use Rattle.eve_grammar.specs.Spelling.{frame_text};
ghost use Rattle.eve_grammar.specs.Places.{IsBytes};
ghost use Rattle.eve_grammar.specs.declared.limits.TheConstants.{MOST_ROWS, MOST_REPLICAS, MOST_BATCHES};
ghost use Rattle.eve_frames.specs.Views.{has_customer_body, has_batch_body};
ghost use Rattle.eve_frames.specs.Views.{has_attempt_body, has_access_body, has_commit_body, has_rollback_body};
ghost use Rattle.eve_frames.specs.Views.{has_vote_body, has_sent_body, customer_in, batch_in, attempt_in, access_in};
ghost use Rattle.eve_frames.specs.Views.{commit_in, rollback_in, vote_in, sent_in, Says};
ghost use Rattle.eve_frames.specs.Views.{body_in, state_rows_in, has_transfer_body, transfer_in};

/// The frames of customers and batches say them.
pub fn inputs_are_read_again()
    ensures customers { (c : Customer) → IsTrue (is_customer c)
        → Says has_customer_body customer_in (frame_text (OfCustomer c)) c }
    ensures batches { (number : ℕ) (b : Batch) → number < 2 ^ 32 → IsTrue (is_batch b)
        → Says has_batch_body batch_in (frame_text (OfBatch number b)) (number, b) }
{}

/// The frames of a replica's section say its steps, those of attempts all but their accesses.
pub fn steps_are_read_again()
    ensures attempts { (a : Attempt) → IsTrue (is_attempt a)
        → Says has_attempt_body attempt_in (frame_text (OfAttempt a)) (without_accesses a) }
    ensures accesses { (rows : ℕ) (x : Access) → IsTrue (is_access rows x) → rows ≤ MOST_ROWS
        → Says has_access_body access_in (frame_text (OfAccess x)) x }
    ensures commits { (c : Commit) → IsTrue (is_commit c) → Says has_commit_body commit_in (frame_text (OfCommit c)) c }
    ensures rollbacks { (rows : ℕ) (r : Rollback) → IsTrue (is_rollback rows r) → rows ≤ MOST_ROWS
        → Says has_rollback_body rollback_in (frame_text (OfRollback r)) r }
    ensures transfers { (rows : ℕ) (x : Transfer) → IsTrue (is_transfer rows x)
        → Says has_transfer_body transfer_in (frame_text (OfTransfer x)) x }
{}

/// The frames of votes and of replies sent say them.
pub fn outcomes_are_read_again()
    ensures votes { (batches : ℕ) (v : Vote) → IsTrue (is_vote batches v) → batches ≤ MOST_BATCHES
        → Says has_vote_body vote_in (frame_text (OfVote v)) v }
    ensures sent { (replicas batches : ℕ) (s : Sent) → IsTrue (is_sent replicas batches s) → replicas ≤ MOST_REPLICAS
        → batches ≤ MOST_BATCHES → Says has_sent_body sent_in (frame_text (OfSent s)) s }
{}

/// The body of a Transfer frame that was tested for some number of rows has that number, which no header has to tell.
pub fn transfers_tell_their_rows()
    ensures { (rows : ℕ) (bytes : List ℕ) → IsTrue (is_some (transfer_of rows (body_in bytes)))
        → state_rows_in bytes ≡ rows }
{}

/// What the frames say fits the format's limits.
pub fn frames_say_what_fits()
    ensures customers { (bytes : List ℕ) → IsBytes bytes → IsTrue (has_customer_body bytes)
        → IsTrue (is_customer (customer_in bytes)) }
    ensures batches { (bytes : List ℕ) → IsBytes bytes → IsTrue (has_batch_body bytes)
        → IsTrue (is_number 4 (batch_in bytes).0) × IsTrue (is_batch (batch_in bytes).1) }
    ensures attempts { (bytes : List ℕ) → IsBytes bytes → IsTrue (has_attempt_body bytes)
        → IsTrue (is_attempt (attempt_in bytes)) × ((attempt_in bytes).accesses ≡ []) }
    ensures accesses { (bytes : List ℕ) → IsBytes bytes → IsTrue (has_access_body bytes)
        → IsTrue (is_access MOST_ROWS (access_in bytes)) }
    ensures commits { (bytes : List ℕ) → IsBytes bytes → IsTrue (has_commit_body bytes)
        → IsTrue (is_commit (commit_in bytes)) }
    ensures rollbacks { (bytes : List ℕ) → IsBytes bytes → IsTrue (has_rollback_body bytes)
        → IsTrue (is_rollback MOST_ROWS (rollback_in bytes)) }
    ensures transfers { (bytes : List ℕ) → IsBytes bytes → IsTrue (has_transfer_body bytes)
        → IsTrue (is_transfer (state_rows_in bytes) (transfer_in bytes)) }
    ensures votes { (bytes : List ℕ) → IsBytes bytes → IsTrue (has_vote_body bytes)
        → IsTrue (is_vote MOST_BATCHES (vote_in bytes)) }
    ensures sent { (bytes : List ℕ) → IsBytes bytes → IsTrue (has_sent_body bytes)
        → IsTrue (is_sent MOST_REPLICAS MOST_BATCHES (sent_in bytes)) }
{}
