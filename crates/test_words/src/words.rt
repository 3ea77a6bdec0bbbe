//! Words of a line.
ghost use Rattle.std.specs.Prelude.{◌≡◌, ◌==◌, ◌<◌, IfOk, IfSome};
ghost use Rattle.std.specs.List.{before_first, after_first};
ghost use Rattle.test_words.specs.Words.{AreNumbers};

use std::alloc::{AllocError, Global};
use std::str::FromStr;

/// Returns a line up to the first `between` and after it, or the whole line and nothing if it has none.
pub fn parts(line: &str, between: char) -> (&str, &str)
    requires { between < 128 }
    ensures before { result.0.now ≡ before_first (λ byte. byte == between) line.now }
    ensures after { result.1.now ≡ after_first (λ byte. byte == between) line.now }
{
    match line.split_once(between) {
        Some(both) => both,
        None => (line, ""),
    }
}

/// Returns numbers, each a word; `None` if one is none.
pub fn numbers<T: FromStr + Drop>(alloc: Global, words: &str) -> Result<Option<Vec<T>>, AllocError>
where
    T::Err: Drop,
    ensures { IfOk result (λ read. IfSome read (λ all. AreNumbers T.from_str_gives words.now all.items)) }
{
    let mut numbers = Vec::new(alloc);
    for word in words.split_whitespace() {
        match word.parse::<T>() {
            Ok(number) => numbers.push(number)?,
            Err(_) => return Ok(None),
        }
    }
    Ok(Some(numbers))
}
