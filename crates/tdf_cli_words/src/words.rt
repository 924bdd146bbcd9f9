//! The call of the crate.

ghost use Rattle.std.specs.Prelude.{◌≡◌, ◌⊎◌, Err, IfOk, Ok, Some, None};
ghost use Rattle.tdf_cli_words.specs.Jobs.{IsWithin};
ghost use Rattle.tdf_cli_words.specs.Words.{taken_of, texts_of};
ghost use Rattle.tdf_cli_words.specs.declared.asked.Settings.{Settings};
ghost use Rattle.tdf_cli_words.specs.declared.asked.WordsErr.TheVariants.{Usage, Memory};

use crate::asked::{Settings, WordsErr};
use crate::command::read_texts;
use crate::jobs::settings_given;
use std::alloc::Global;

/// What the words ask for: the words after the program's name.
///
/// Options stand as `--stop 3us` or `--stop=3us`, in any order, before or after the job, each at most once.
///
/// # Errors
/// `Usage` exactly where the words are not taken, and else only `Memory`: out of memory.
#[tactic(auto, using(crate::proofs::Taken::unmatched, crate::proofs::Taken::matched))]
pub fn settings(alloc: Global, words: &Vec<String>) -> Result<Settings, WordsErr>
    ensures settings { IfOk result (λ s. taken_of (texts_of words.now.items) ≡ Some s) }
    ensures within { IfOk result IsWithin }
    ensures usage { result ≡ Err Usage → taken_of (texts_of words.now.items) ≡ None }

    // Each answer comes wherever its cause is there, but for want of memory.
    ensures settings_always { (s : Settings) → taken_of (texts_of words.now.items) ≡ Some s
        → (result ≡ Ok s) ⊎ (result ≡ Err Memory) }
    ensures usage_always { taken_of (texts_of words.now.items) ≡ None
        → (result ≡ Err Usage) ⊎ (result ≡ Err Memory) }
{
    let given = match read_texts(alloc, words) {
        Ok(given) => given,
        Err(why) => return Err(why),
    };
    match settings_given(&given) {
        Some(settings) => Ok(settings),
        None => Err(WordsErr::Usage),
    }
}
