//! Roots of Merkle trees, from scratch.

ghost use Rattle.std.specs.Prelude.{◌≡◌, ◌≤◌, ◌<◌, ◌+◌, ◌*◌, ◌^◌, ◌++◌, List, length, codes};
ghost use Rattle.std.specs.List.{flat_map};
ghost use Rattle.byteorder.specs.Endian.{big_bytes};
ghost use Rattle.sha2.specs.Sha256.{sha256};
ghost use Rattle.eve_smallbank.specs.declared.request.Reply.{Reply as ReplyValue};
ghost use Rattle.eve_smallbank.specs.Spelling.{reply_text};
ghost use Rattle.eve_token.specs.Merkle.{leaf_hash, node_hash, leaf_hashes, merkle_root, IsGreatestPowerBelow};
ghost use Rattle.eve_token.specs.Token.{token_from_root};

use crate::spell::Spell;
use byteorder::{BigEndian, ByteOrder};
use eve_smallbank::Reply;
use sha2::{Digest, Sha256};

/// How many bytes the longest leaf's text has: a reply.
const TEXT: usize = 9;

/// How many bytes the longest leaf's message has: the byte 00, a number and a text.
const LEAF: usize = 5 + TEXT;

/// The hash of a leaf: of the byte 00, the leaf's number as a u32, and its text.
pub(crate) fn hash_leaf<T: Spell>(number: usize, leaf: &T) -> [u8; 32]
    ensures { result ≡ leaf_hash number (T.text leaf.now) }
{
    let mut text = [0; TEXT];
    leaf.spell(&mut text);
    hash_text(number, &text[..T::LEN])
}

/// The hash of a leaf, by its text.
fn hash_text(number: usize, text: &[u8]) -> [u8; 32]
    requires { length text.now ≤ TEXT }
    ensures { result ≡ leaf_hash number text.now }
{
    let mut message = [0; LEAF];
    // Of a number past u32 the low four bytes, as in the definition.
    BigEndian::write_u32(&mut message[1..], (number % (1 << 32)) as u32);
    message[5..5 + text.len()].copy_from_slice(text);
    Sha256::digest(&message[..5 + text.len()])
}

/// The hash of a node: of the byte 01, the left hash and the right hash.
pub(crate) fn hash_node(left: &[u8; 32], right: &[u8; 32]) -> [u8; 32]
    ensures { result ≡ node_hash left.now right.now }
{
    let mut pair = [1; 65];
    pair[1..33].copy_from_slice(left);
    pair[33..].copy_from_slice(right);
    Sha256::digest(&pair)
}

/// The greatest power of two below the number of leaves: how many of them go to the left.
pub(crate) fn left_part(leaves: usize) -> usize
    requires { 1 < leaves }
    ensures { IsGreatestPowerBelow result leaves }
{
    1 << (leaves - 1).ilog2()
}

/// The root over the leaves, of which the first has this number.
///
/// It calls itself for the left part and for the others, and so no deeper than the tree is high.
pub(crate) fn root_over<T: Spell>(number: usize, leaves: &[T]) -> [u8; 32]
    requires some { 0 < length leaves.now }
    requires numbers { number + length leaves.now ≤ 2 ^ 63 }
    ensures { result ≡ merkle_root (leaf_hashes T.text number leaves.now) }
{
    if let [leaf] = leaves {
        return hash_leaf(number, leaf);
    }
    let part = left_part(leaves.len());
    let (left, others) = leaves.split_at(part);
    let left_root = root_over(number, left);
    let right_root = root_over(number + part, others);
    hash_node(&left_root, &right_root)
}

/// The root over replies that stand spelled, nine bytes each, of which the first has this number.
///
/// It calls itself as `root_over` does.
fn root_over_spelled(number: usize, leaves: usize, spelled: &[u8]) -> [u8; 32]
    requires some { 0 < leaves }
    requires numbers { number + leaves ≤ 2 ^ 63 }
    requires there { TEXT * leaves ≤ length spelled.now }
    ensures { (replies : List ReplyValue) → length replies ≡ leaves → spelled.now ≡ flat_map reply_text replies
        → result ≡ merkle_root (leaf_hashes reply_text number replies) }
{
    if leaves == 1 {
        return hash_text(number, &spelled[..TEXT]);
    }
    let part = left_part(leaves);
    let (left, others) = spelled.split_at(TEXT * part);
    let left_root = root_over_spelled(number, part, left);
    let right_root = root_over_spelled(number + part, leaves - part, others);
    hash_node(&left_root, &right_root)
}

/// The token of version 2, of the root over the rows and that over the replies.
fn token_of_roots(seq: u32, root: &[u8; 32], replies_root: &[u8; 32]) -> [u8; 32]
    ensures { result ≡ sha256 (codes "EVESB2" ++ (big_bytes 4 seq ++ (root.now ++ replies_root.now))) }
{
    let mut message = [0; 74];
    message[..6].copy_from_slice(b"EVESB2");
    BigEndian::write_u32(&mut message[6..], seq);
    message[10..42].copy_from_slice(root);
    message[42..].copy_from_slice(replies_root);
    Sha256::digest(&message)
}

/// The token of version 2, of an attempt whose rows have this root.
///
/// docs/TRACE.md, "Merkle token", has the bytes; the replies are in request order. It allocates nothing.
pub fn token_of(seq: u32, root: &[u8; 32], replies: &[Reply]) -> [u8; 32]
    requires some { 0 < length replies.now }
    ensures { result ≡ token_from_root seq root.now replies.now }
{
    token_of_roots(seq, root, &root_over(0, replies))
}

/// The token of version 2, of an attempt whose rows have this root, where the replies stand spelled: nine bytes each,
/// in request order.
///
/// docs/TRACE.md, "Merkle token". It allocates nothing.
pub fn token_of_root_and_spelled(seq: u32, root: &[u8; 32], spelled: &[u8]) -> [u8; 32]
    requires some { (replies : List ReplyValue) × (0 < length replies)
        × (spelled.now ≡ flat_map reply_text replies) }
    ensures { (replies : List ReplyValue) → spelled.now ≡ flat_map reply_text replies
        → result ≡ token_from_root seq root.now replies }
{
    let leaves = spelled.len() / TEXT;
    token_of_roots(seq, root, &root_over_spelled(0, leaves, spelled))
}
