//! The words of the command line.

ghost use Rattle.std.specs.Prelude.{◌≡◌, IfSome};
ghost use Rattle.std.specs.Vec.Iter.{into_iter_items};

use std::alloc::Global;
use std::env;
use std::env::Args;
use std::io::ErrorKind;
use std::rt::Env;

/// The words after the program's name.
#[derive(Drop)]
pub(crate) enum Words {
    Text(Vec<String>),
    /// Some word isn't UTF-8.
    NotText,
    NoMemory,
}

/// All that is left of the arguments, in order, if there is memory for it.
fn rest_of(alloc: Global, mut args: Args) -> Option<Vec<String>>
    ensures all { IfSome result (λ words. words.items ≡ into_iter_items args) }
{
    let mut words = Vec::new(alloc);
    while let Some(word) = args.next() {
        words.push(word).ok()?;
    }
    Some(words)
}

/// Asks the runtime for the words.
pub(crate) fn words_of<R: Env + AllocGlobal>(rt: &R) -> Words {
    let mut args = match env::args(rt) {
        Ok(args) => args,
        Err(error) if error.kind() == ErrorKind::InvalidData => return Words::NotText,
        Err(_) => return Words::NoMemory,
    };
    drop(args.next());
    match rest_of(rt.alloc(), args) {
        Some(words) => Words::Text(words),
        None => Words::NoMemory,
    }
}
