//! Names, one by one and in a list with a limit.

use crate::cases::{bytes_at, bytes_of, number_at, words_from};
use eve_accounts::{MOST_NAMES, Name, NameFault, Names, is_name};
use eve_testing::Text;
use std::alloc::Global;
use std::hash::RandomState;
use std::io::ErrorKind;

/// Tells what a line about names asks for; false where it asks for something else.
pub(crate) fn tell(rt: &HostRuntime, what: &str, words: &[&str], said: &mut Text) -> bool {
    match what {
        "names" => tell_list(rt, words, said),
        "name" => tell_name(bytes_at(rt.alloc(), words, 1, said), said),
        _ => return false,
    }
    true
}

/// Tells what comes of a list with a limit.
fn tell_list(rt: &HostRuntime, words: &[&str], said: &mut Text) {
    let alloc = rt.alloc();
    let limit = number_at(words, 1, said);
    said.needs(limit <= MOST_NAMES);
    let all = each_of(alloc, words_from(words, 2), said);
    match RandomState::new(rt) {
        Ok(random) => {
            let mut names = Names::new(alloc, random, limit.min(MOST_NAMES));
            tell_names(&mut names, all.as_slice(), said);
        }
        Err(fault) => said.fail(fault),
    }
}

/// The bytes of each word.
fn each_of(alloc: Global, words: &[&str], said: &mut Text) -> Vec<Vec<u8>> {
    let mut all = Vec::new(alloc);
    for word in words {
        let bytes = bytes_of(alloc, word, said);
        said.stored(all.push(bytes));
    }
    all
}

/// Tells what adding each name answers, its number then, and how many there are; and each name's number at the end.
fn tell_names<'a>(names: &mut Names<'a>, all: &'a [Vec<u8>], said: &mut Text) {
    said.value(" empty ", names.is_empty());
    for name in all {
        let name = name.as_slice();
        let answer = added(names, name, said);
        said.answer("; ", answer);
        said.answer(" ", names.number(name));
        said.value(" ", names.len());
    }
    tell_numbers(names, all, said);
}

/// Adds a name. Where memory is refused, nothing may have changed (else the line fails as `AlreadyExists`), and it is
/// added once more.
fn added<'a>(names: &mut Names<'a>, name: &'a [u8], said: &mut Text) -> Result<u32, NameFault> {
    let before = names.len();
    let answer = names.add(name);
    let Err(NameFault::Memory) = answer else {
        return answer;
    };
    if names.number(name).is_some() || names.len() != before {
        said.fail(ErrorKind::AlreadyExists.into());
    }
    let answer = names.add(name);
    if let Err(NameFault::Memory) = answer {
        said.refused();
    }
    answer
}

/// Tells each name's number at the end.
fn tell_numbers(names: &Names, all: &[Vec<u8>], said: &mut Text) {
    said.value("; empty ", names.is_empty());
    said.words(", numbers");
    for name in all {
        said.answer(" ", names.number(name.as_slice()));
    }
}

/// Tells whether these bytes are a name, and the bytes of the one that is made of them.
fn tell_name(bytes: Vec<u8>, said: &mut Text) {
    let bytes = bytes.as_slice();
    let is_name = is_name(bytes);
    said.value(" ", is_name);
    match Name::new(bytes) {
        Some(name) => {
            let name = name.as_slice();
            said.value(", ", name.len());
            said.value(" bytes, the same ", name == bytes);
        }
        None => said.words(", none"),
    }
    if is_name {
        said.value(", and ", Name::of(bytes).as_slice() == bytes);
    }
}
