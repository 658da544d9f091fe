//! A decision on a batch.

ghost use Rattle.std.specs.Prelude.{◌≡◌, length};

/// A view in which a batch is decided as commit.
#[derive(Clone, Copy)]
pub struct Decided {
    /// The view.
    pub view: u32,
    /// The token with which it is decided.
    pub token: [u8; 32],
    /// How many verifiers count for it.
    pub votes: u8,
}

/// A token as an array.
pub(crate) fn array_of(token: &[u8]) -> [u8; 32]
    requires { length token.now ≡ 32 }
    ensures { result ≡ token.now }
{
    let mut array = [0; 32];
    array.copy_from_slice(token);
    array
}
