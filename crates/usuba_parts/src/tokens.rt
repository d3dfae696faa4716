//! The actions of tokens.

ghost use Rattle.std.specs.Prelude.{◌≡◌, IsTrue, OnOk, is_some};
ghost use Rattle.usuba_parts.specs.TokenActions as actions;

use crate::part::{Part, Parts};
use std::alloc::AllocError;
use usuba_tokens::TypeWord;
use usuba_trees::Word;

pub fn skip(parts: &mut Parts) -> Result<(), AllocError>
    requires { IsTrue (is_some (actions.act_skip parts.old)) }
    ensures { OnOk result (actions.act_skip parts.old ≡ Some parts.new) }
{
    parts.pop_mark();
    let part = parts.pop();
    parts.push(part)
}

pub fn inner(parts: &mut Parts) -> Result<(), AllocError>
    requires { IsTrue (is_some (actions.act_inner parts.old)) }
    ensures { OnOk result (actions.act_inner parts.old ≡ Some parts.new) }
{
    parts.pop_mark();
    let part = parts.pop();
    parts.pop_mark();
    parts.push(part)
}

pub fn name_of_type_word(parts: &mut Parts) -> Result<(), AllocError>
    requires { IsTrue (is_some (actions.act_name_of_type_word parts.old)) }
    ensures { OnOk result (actions.act_name_of_type_word parts.old ≡ Some parts.new) }
{
    let (word, place) = parts.pop_type_word();
    let TypeWord { text, .. } = word;
    parts.push(Part::Word(Word { text, place }))
}
