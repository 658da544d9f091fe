//! Money in cents, rows, customers by name, and their balances.
#![tactic(auto)]

mod balances;
mod keyed_hash;
mod limits;
mod money;
mod name;
mod name_key;
mod names;
mod row;
mod set_row;

pub use balances::Balances;
pub use keyed_hash::KeyedHash;
pub use limits::{
    FIRST_NAME_BYTE, LAST_NAME_BYTE, MOST_AMOUNT, MOST_BALANCE, MOST_NAME_BYTES, MOST_NAMED_ROWS,
    MOST_NAMES,
};
pub use money::{Amount, Cents};
pub use name::Name;
pub use names::{NameFault, Names, is_name};
pub use row::Row;
pub use set_row::SetRow;
