//! Labels.

ghost use Rattle.std.specs.List.{list_all};
ghost use Rattle.std.specs.Prelude.{◌≡◌, IfOk, length, map};
ghost use Rattle.tdf_lang_lexer.specs.Token.{tok};
ghost use Rattle.tdf_tables.specs.Words.{words_of};
ghost use Rattle.tdf_tables.specs.machine.Scan.{are_one_name, is_label};

use crate::table::cut_word;
use std::alloc::Global;
use tdf_base::{Memory, Resolution, Version};
use tdf_lang_lexer::{Dialect, Token, push_tokens};

fn are_one_name(tokens: &[Token]) -> bool
    ensures { result ≡ are_one_name (map tok tokens.now) }
{
    match tokens {
        [Token::Name(_)] => true,
        _ => false,
    }
}

/// Whether the word is a name, and no reserved word of the versions 1 and 2.
#[tactic(auto, using(crate::proofs::LabelLaws::label_token))]
fn is_label<'t>(word: &'t [u8], tokens: &mut Vec<Token<'t>>) -> Result<bool, Memory>
    ensures { IfOk result (λ b. b ≡ is_label word.entry.now) }
{
    let names = Dialect {
        version: Version::V1,
        resolution: Resolution::Ps,
    };
    tokens.clear();
    push_tokens(names, &[word], tokens)?;
    Ok(are_one_name(tokens.as_slice()))
}

/// Whether each word is a label.
pub(crate) fn are_labels<'t>(alloc: Global, text: &'t [u8]) -> Result<bool, Memory>
    ensures { IfOk result (λ b. b ≡ list_all is_label (words_of text.entry.now)) }
{
    let mut tokens = Vec::new(alloc);
    let mut rest = text;
    while let Some((label, after)) = cut_word(rest) {
        if !is_label(label, &mut tokens)? {
            return Ok(false);
        }
        rest = after;
    }
    Ok(true)
}
