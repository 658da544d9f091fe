//! Money, rows and balances.

use crate::cases::{
    change_of, last_at, number_at, number_of, row_in, set_row, whole_of, word_at, words_from,
};
use eve_accounts::{Amount, Balances, Cents, MOST_NAMES, Row};
use eve_testing::Text;
use std::alloc::Global;

/// Tells what a line about money asks for; false where it asks for something else.
pub(crate) fn tell(alloc: Global, what: &str, words: &[&str], said: &mut Text) -> bool {
    match what {
        "cents" => tell_money(false, last_at(words, 1, said), said),
        "amount" => tell_money(true, last_at(words, 1, said), said),
        "rows" => tell_rows(last_at(words, 1, said), said),
        "balances" => tell_balances(alloc, words, said),
        _ => return false,
    }
    true
}

/// Tells a number of cents, if a balance or an amount may have it.
fn tell_money(is_amount: bool, number: &str, said: &mut Text) {
    let number = whole_of(number, said);
    let cents = if is_amount {
        match Amount::new(number) {
            Some(amount) => Some(amount.get()),
            None => None,
        }
    } else {
        match Cents::new(number) {
            Some(cents) => Some(cents.get()),
            None => None,
        }
    };
    match cents {
        Some(cents) => {
            said.value(" ", cents);
            said.words(" cents");
        }
        None => said.words(" out of range"),
    }
}

/// Tells the numbers of a customer's rows.
fn tell_rows(customer: &str, said: &mut Text) {
    let customer = number_of(customer, said);
    if customer >= MOST_NAMES {
        return said.needs(false);
    }
    said.value(" saving ", Row::saving(customer).number());
    said.value(", checking ", Row::checking(customer).number());
}

/// Tells of the given number of balances, some of which are set, and of a copy of them.
fn tell_balances(alloc: Global, words: &[&str], said: &mut Text) {
    let count = number_at(words, 1, said);
    let Ok(mut balances) = Balances::new(alloc, count as usize) else {
        return said.refused();
    };
    for word in words_from(words, 2) {
        set_row(&mut balances, change_of(word, said), said);
    }
    tell_all(&balances, said);
    said.words("; copied");
    match balances.copy(alloc) {
        Ok(copy) => tell_all(&copy, said),
        Err(_) => said.refused(),
    }
}

/// Tells the balance of each row.
fn tell_each(balances: &Balances, said: &mut Text) {
    for number in 0..u32::MAX {
        let Some(row) = row_in(balances, number) else {
            break;
        };
        said.value(", ", balances.get(row).get());
    }
}

/// Tells each balance, by its row and in the slice of all.
fn tell_all(balances: &Balances, said: &mut Text) {
    said.value(" ", balances.len());
    said.value(", empty ", balances.is_empty());
    tell_each(balances, said);
    said.words(", all");
    for cents in balances.as_slice() {
        said.value(" ", cents.get());
    }
}
