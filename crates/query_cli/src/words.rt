//! The words of the command line.

ghost use Rattle.std.specs.Prelude.{◌≡◌, ◌≢◌, [], IfErr, IfOk, IsErr, IsOkAnd};
ghost use Rattle.std.specs.IoError.{error_kind};
ghost use Rattle.std.specs.Vec.Iter.{into_iter_items};

use std::alloc::{AllocError, Global};
use std::io::ErrorKind;
use std::rt::Env;
use std::{env, io};

/// The words of the command line, the program's name first. Where one of them isn't UTF-8 there are none at
/// all, which the program refuses as it refuses every other list of words that it can't read.
///
/// # Errors
///
/// Where memory is refused.
pub fn words<R: Env + AllocGlobal>(rt: &R) -> Result<Vec<String>, AllocError> {
    words_of(rt.alloc(), env::args(rt))
}

/// All words, in order.
fn gathered(alloc: Global, all: env::Args) -> Result<Vec<String>, AllocError>
    ensures { IfOk result (λ words. words.items ≡ into_iter_items all) }
{
    let mut words = Vec::new(alloc);
    for word in all {
        words.push(word)?;
    }
    Ok(words)
}

/// The words that were found, or none where one of them isn't text. Every other cause is want of memory.
fn words_of(alloc: Global, found: io::Result<env::Args>) -> Result<Vec<String>, AllocError>
    ensures words { IfOk found (λ all. IfOk result (λ words. words.items ≡ into_iter_items all)) }
    ensures not_text { IfErr found (λ error. error_kind error ≡ ErrorKind.InvalidData → IsOkAnd result (λ words. words.items ≡ [])) }
    ensures refused { IfErr found (λ error. error_kind error ≢ ErrorKind.InvalidData → IsErr result) }
{
    match found {
        Ok(all) => gathered(alloc, all),
        Err(error) => match error.kind() {
            ErrorKind::InvalidData => Ok(Vec::new(alloc)),
            _ => Err(AllocError),
        },
    }
}
