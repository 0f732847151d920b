// The arguments of a program as numbers.
#![tactic(auto)]

ghost use Rattle.arguments.specs.Word.{ReadsWord, ReadsSome};

use price_list::numbers::scan_digits;
use std::env::FillError;
use std::rt::Env;

// The longest word that is read as a number.
const MAX_WORD: usize = 64;

// A word of the arguments as a number, if it is one: that of `scan_digits`, which stands for all larger ones too.
fn number_in(word: &[u8]) -> Option<u32>
    ensures { ReadsWord word.now result }
{
    if word.is_empty() {
        return None;
    }
    let digits = scan_digits(word, 0);
    if digits.end != word.len() {
        return None;
    }
    Some(digits.value)
}

// A missing argument is read as the empty word, and so is one that is too long: neither is a number.
pub fn number_at(env: &impl Env, i: usize) -> Option<u32>
    ensures { ReadsSome result }
{
    let mut word = [0u8; MAX_WORD];
    let length = env.arg(i, &mut word).unwrap_or(0);
    number_in(&word[..length])
}

fn is_given(env: &impl Env, i: usize) -> bool {
    match env.arg(i, &mut []) {
        Ok(_) => true,
        Err(FillError::TooLong) => true,
        Err(FillError::NotPresent) => false,
    }
}

// How many arguments the program was started with, its own name among them.
pub fn argument_count(env: &impl Env) -> usize {
    for i in 0..usize::MAX {
        if !is_given(env, i) {
            return i;
        }
    }
    usize::MAX
}
