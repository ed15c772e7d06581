//! Calls that make types in a table in which each form is made once.

ghost use Rattle.std.specs.Prelude.{◌≡◌, true, IfOk};
ghost use Rattle.xd_syntax.specs.Keywords.{is_type_name};
ghost use Rattle.xd_syntax.specs.Types.{BelongsTo};

use std::alloc::Global;
use xd_calls_lines::{Call, CallError, words};
use xd_doc::Label;
use xd_same_types::{Pool, alt, alt_of_all, any_type, name_type, node, seq, star, words_type};
use xd_shown::{free_names, none_around};
use xd_syntax::{TypeForm, TypeId};
use xd_type_text::type_text;

/// `empty`, `text`, `any`, `words CLASS`; `alt ONE TWO`, `alt_of_all ONE TWO`, `seq ONE TWO` and
/// `star ONE` of types by their numbers, which are from 0 on; `name`, the first name that is free,
/// and `none`, the label `none` around it. Each shows the text of the type.
pub fn pool(pool: &mut Pool, call: &Call<'_>, out: &mut Vec<u8>) -> Result<(), CallError> {
    let id = make(pool, call)?;
    type_text(call.alloc, &pool.types, id, out)?;
    out.push(b'\n')?;
    Ok(())
}

fn make(pool: &mut Pool, call: &Call<'_>) -> Result<TypeId, CallError>
    ensures { IfOk result (BelongsTo pool.new.types) }
{
    match call.name {
        "empty" => Ok(node(pool, TypeForm::Empty)?),
        "text" => Ok(node(pool, TypeForm::Text)?),
        "any" => Ok(any_type(call.alloc, pool)?),
        "words" => Ok(words_type(call.alloc, pool, &words(call.alloc, call.word(0)?)?)?),
        "name" => Ok(name_type(pool, free_name(call.alloc)?)?),
        "none" => Ok(none_around(call.alloc, pool, &free_name(call.alloc)?)?),
        "star" => {
            let one = numbered(pool, call, 0)?;
            Ok(star(call.alloc, pool, one)?)
        }
        _ => make_of_two(pool, call),
    }
}

/// The first name that is free.
fn free_name(alloc: Global) -> Result<Label, CallError>
    ensures { IfOk result (λ name. is_type_name name ≡ true) }
{
    let names = free_names(alloc, &[], 1)?;
    Ok(names[0].share()?)
}

fn make_of_two(pool: &mut Pool, call: &Call<'_>) -> Result<TypeId, CallError>
    ensures { IfOk result (BelongsTo pool.new.types) }
{
    let one = numbered(pool, call, 0)?;
    let two = numbered(pool, call, 1)?;
    match call.name {
        "alt" => Ok(alt(call.alloc, pool, one, two)?),
        "alt_of_all" => Ok(alt_of_all(call.alloc, pool, one, &[two])?),
        "seq" => Ok(seq(call.alloc, pool, one, two)?),
        _ => Err(CallError::Call),
    }
}

/// The type of the number that stands at this word.
fn numbered(pool: &Pool, call: &Call<'_>, word: usize) -> Result<TypeId, CallError>
    ensures { IfOk result (BelongsTo pool.now.types) }
{
    let number = call.size(word)?;
    if number >= pool.types.len() {
        return Err(CallError::Unknown);
    }
    Ok(TypeId::of(number))
}
