//! Laws about the definitions. Each body is empty: the contract is the law.

ghost use Rattle.std.specs.Prelude.{◌≡◌, ◌<◌, ℕ, ℤ, List, [], ◌∷◌, length, take, drop};
ghost use Rattle.std.specs.List.{flat_map};
ghost use Rattle.eve_smallbank.specs.declared.request.Reply.{Reply};
ghost use Rattle.eve_smallbank.specs.Spelling.{reply_text};
ghost use Rattle.eve_token.specs.Merkle.{node_hash, levels_up, merkle_root, IsGreatestPowerBelow};
ghost use Rattle.eve_token.specs.Token.{rows_root, token_from_root, token_of};

/// The root of more hashes than one is the node of two roots: that of the first k, where k is the greatest power of
/// two below their number, and that of the others.
pub fn roots_are_split()
    ensures { (hashes : List (List ℕ)) (k : ℕ) → IsGreatestPowerBelow k (length hashes)
        → merkle_root hashes ≡ node_hash (merkle_root (take k hashes)) (merkle_root (drop k hashes)) }
{}

/// Of n hashes, at least one, n levels up one is left, which is the root.
pub fn one_hash_is_left()
    ensures { (hashes : List (List ℕ)) → 0 < length hashes
        → levels_up (length hashes) hashes ≡ merkle_root hashes ∷ [] }
{}

/// The token of version 2 is made of the rows' root.
pub fn tokens_are_made_of_roots()
    ensures { (seq : ℕ) (balances : List ℤ) (replies : List Reply)
        → token_of 2 seq balances replies ≡ token_from_root seq (rows_root balances) replies }
{}

/// Replies that are spelled alike have one token.
pub fn replies_are_hashed_as_spelled()
    ensures { (version seq : ℕ) (balances : List ℤ) (replies others : List Reply)
        → flat_map reply_text replies ≡ flat_map reply_text others
        → token_of version seq balances replies ≡ token_of version seq balances others }
{}
