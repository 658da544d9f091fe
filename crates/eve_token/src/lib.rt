//! Tokens: the hash by which replicas compare what they made of a batch.
#![tactic(auto)]

ghost use Rattle.std.specs.Prelude.{◌≡◌, ◌≤◌, ◌<◌, ◌*◌, ◌++◌, ◌⊎◌, ℕ, List, length, take, codes};
ghost use Rattle.std.specs.List.{flat_map};
ghost use Rattle.byteorder.specs.Endian.{big_bytes};
ghost use Rattle.sha2.specs.Hashers.{Holds256};
ghost use Rattle.eve_smallbank.specs.declared.request.Reply.{Reply as ReplyValue};
ghost use Rattle.eve_smallbank.specs.Spelling.{money_text, reply_text};
ghost use Rattle.eve_token.specs.Token.{flat_token, token_of};

pub mod laws;
mod merkle;
mod spell;
mod token_rows;
mod tree;

use crate::merkle::root_over;
pub use crate::merkle::{token_of, token_of_root_and_spelled};
use crate::spell::Spell;
pub use crate::token_rows::TokenRows;
pub use crate::tree::RowTree;
use eve_accounts::Balances;
use eve_smallbank::Reply;
use sha2::{Digest, Sha256};

/// How many bytes go to the hasher at once: 144 balances or 128 replies.
const BLOCK: usize = 1152;

/// The token of an attempt, by the version of the trace: of the batch's number, the balances of all rows after the
/// attempt, in row order, and the replies, in request order.
///
/// docs/TRACE.md, "Token" and "Merkle token", has the bytes, and FIPS 180-4 the hash. It allocates nothing.
pub fn token(version: u16, seq: u32, balances: &Balances, replies: &[Reply]) -> [u8; 32]
    requires version { (version ≡ 1) ⊎ (version ≡ 2) }
    requires rows { version ≡ 2 → 0 < length balances.now }
    requires replies { version ≡ 2 → 0 < length replies.now }
    ensures { result ≡ token_of version seq balances.now replies.now }
{
    if version == 1 {
        hash_flat(seq, balances, replies)
    } else {
        token_of(seq, &root_over(0, balances.as_slice()), replies)
    }
}

/// The token of version 1, where the replies stand spelled: nine bytes each, in request order.
///
/// docs/TRACE.md, "Token". It allocates nothing.
pub fn token_of_spelled(seq: u32, balances: &Balances, spelled: &[u8]) -> [u8; 32]
    ensures { (replies : List ReplyValue) → spelled.now ≡ flat_map reply_text replies
        → result ≡ token_of 1 seq balances.now replies }
{
    let mut hasher = hash_balances(seq, balances);
    hasher.update(spelled);
    hasher.finalize()
}

/// The token of version 1.
fn hash_flat(seq: u32, balances: &Balances, replies: &[Reply]) -> [u8; 32]
    ensures { result ≡ flat_token seq balances.now replies.now }
{
    let mut hasher = hash_balances(seq, balances);
    hash_all(&mut hasher, replies);
    hasher.finalize()
}

/// A hasher that holds what a token of version 1 says before its replies.
fn hash_balances(seq: u32, balances: &Balances) -> Sha256
    ensures { Holds256 result (codes "EVESB1" ++ (big_bytes 4 seq ++ flat_map money_text balances.now)) }
{
    let mut hasher = Sha256::new();
    hasher.update(b"EVESB1");
    hasher.update(seq.to_be_bytes());
    hash_all(&mut hasher, balances.as_slice());
    hasher
}

/// The message that the hasher holds grows by the bytes of all items.
fn hash_all<T: Spell>(hasher: &mut Sha256, items: &[T])
    ensures { (m : List ℕ) → Holds256 hasher.old m
        → Holds256 hasher.new (m ++ flat_map T.text items.now) }
{
    let mut block = [0; BLOCK];
    for chunk in items.chunks(BLOCK / T::LEN) {
        spell_all(chunk, &mut block);
        hasher.update(&block[..chunk.len() * T::LEN]);
    }
}

/// Writes the bytes of all items, one after another, from the start of `out`.
fn spell_all<T: Spell>(items: &[T], out: &mut [u8])
    requires { length items.now * T.LEN ≤ length out.old }
    ensures { take (length items.now * T.LEN) out.new ≡ flat_map T.text items.now }
{
    for (i, item) in items.iter().enumerate() {
        item.spell(&mut out[i * T::LEN..]);
    }
}
