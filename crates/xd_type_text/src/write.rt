//! Types as text, with a stack of what is still to be written.

ghost use Rattle.std.specs.Prelude.{◌≡◌, ◌+◌, ◌*◌, ◌<◌, ◌++◌, ◌∷◌, [], cond, OnOk, OnErr, IfOk};
ghost use Rattle.std.specs.List.{AllByRecursion};
ghost use Rattle.xd_syntax.specs.Types.{BelongsTo, tree};
ghost use Rattle.xd_syntax.specs.Tree.{is_empty};
ghost use Rattle.xd_syntax.specs.TreeForms.{size};
ghost use Rattle.xd_syntax.specs.TypeText.{text_at_level, type_text, postfix_wants};
ghost use Rattle.xd_type_text.specs.declared.level.Level.TheVariants as levels;
ghost use Rattle.xd_type_text.specs.declared.waiting.Waiting.TheVariants as waits;
ghost use Rattle.xd_type_text.specs.Waiting.{level_of, waiting_text, PieceBelongs, IsOpened, PushesParts, work};

use crate::classes::{write_class, write_words};
use crate::level::{Joined, Level};
use crate::waiting::Waiting;
use std::alloc::Global;
use xd_doc::NoMemory;
use xd_syntax::{TypeForm, TypeId, Types};

/// Appends the canonical text of a type: the shortest one, without spaces.
///
/// Parts that are open stand on a stack of their own, so a type may nest to any depth. After
/// `NoMemory` `out` is as it was.
pub fn type_text(
    alloc: Global,
    types: &Types,
    id: TypeId,
    out: &mut Vec<u8>,
) -> Result<(), NoMemory>
    requires { BelongsTo types.now id }
    ensures ok { OnOk result (out.new.items ≡ out.old.items ++ type_text (tree types.now id)) }
    ensures err { OnErr result (out.new.items ≡ out.old.items) }
{
    let made = text_of(alloc, types, id)?;
    out.extend_from_slice(&made)?;
    Ok(())
}

fn text_of(alloc: Global, types: &Types, id: TypeId) -> Result<Vec<u8>, NoMemory>
    requires { BelongsTo types.now id }
    ensures { IfOk result (λ made. made.items ≡ type_text (tree types.now id)) }
{
    let mut made = Vec::new(alloc);
    let mut stack = Vec::new(alloc);
    stack.push(Waiting::Part(Level::Any, id))?;
    while let Some(piece) = stack.pop() {
        match piece {
            Waiting::Mark(mark) => made.push(mark)?,
            Waiting::Parts(joined, parts) => push_parts(joined, parts, &mut stack)?,
            Waiting::Part(level, part) => write_part(types, level, part, &mut made, &mut stack)?,
        }
    }
    Ok(made)
}

/// The first part is to be written next, and after it the others.
fn push_parts<'a>(
    joined: Joined,
    parts: &'a [TypeId],
    stack: &mut Vec<Waiting<'a>>,
) -> Result<(), NoMemory>
    ensures { OnOk result (PushesParts joined parts.now stack.old.items stack.new.items) }
{
    let Some((part, others)) = parts.split_first() else {
        return Ok(());
    };
    if others.is_empty() {
        stack.push(Waiting::Part(joined.last(), *part))?;
        return Ok(());
    }
    stack.push(Waiting::Parts(joined, others))?;
    stack.push(Waiting::Mark(joined.mark()))?;
    stack.push(Waiting::Part(joined.inner(), *part))?;
    Ok(())
}

/// Appends the front of a type, up to its first part; the rest waits.
fn write_part<'a>(
    types: &'a Types,
    level: Level,
    id: TypeId,
    out: &mut Vec<u8>,
    stack: &mut Vec<Waiting<'a>>,
) -> Result<(), NoMemory>
    requires here { BelongsTo types.now id }
    requires belong { AllByRecursion (PieceBelongs types.now) stack.old.items }
    ensures { OnOk result (IsOpened types.now (text_at_level (level_of level) (tree types.now id)) (8 * size (tree types.now id)) out.old.items out.new.items stack.old.items stack.new.items) }
{
    match types.node(id).form() {
        TypeForm::Empty => out.extend_from_slice(b"()")?,
        TypeForm::Text => out.extend_from_slice(b"String")?,
        TypeForm::Words(words) => write_words(words, out)?,
        TypeForm::Name(name) => out.extend_from_slice(name.as_str().as_bytes())?,
        TypeForm::Elem(class, content) => {
            write_class(class, out)?;
            out.push(b'[')?;
            stack.push(Waiting::Mark(b']'))?;
            push_content(types, *content, stack)?;
        }
        TypeForm::Seq(parts) => {
            open(level.sequence_wants(), out, stack)?;
            stack.push(Waiting::Parts(Joined::Sequence, parts.as_slice()))?;
        }
        TypeForm::Alt(parts) => {
            open(level.alternative_wants(), out, stack)?;
            stack.push(Waiting::Parts(Joined::Alternative, parts.as_slice()))?;
        }
        TypeForm::Star(part) => push_postfix(level, *part, b'*', out, stack)?,
        TypeForm::Plus(part) => push_postfix(level, *part, b'+', out, stack)?,
        TypeForm::Opt(part) => push_postfix(level, *part, b'?', out, stack)?,
    }
    Ok(())
}

/// The part is to be written next, and after it its operator.
fn push_postfix<'a>(
    level: Level,
    part: TypeId,
    operator: u8,
    out: &mut Vec<u8>,
    stack: &mut Vec<Waiting<'a>>,
) -> Result<(), NoMemory>
    ensures out { OnOk result (out.new.items ≡ out.old.items ++ cond (postfix_wants (level_of level)) (40 ∷ []) []) }
    ensures stack { OnOk result (stack.new.items ≡ ((stack.old.items ++ cond (postfix_wants (level_of level)) (waits.Mark 41 ∷ []) []) ++ waits.Mark operator ∷ []) ++ waits.Part levels.Primary part ∷ []) }
{
    open(level.postfix_wants(), out, stack)?;
    stack.push(Waiting::Mark(operator))?;
    stack.push(Waiting::Part(Level::Primary, part))?;
    Ok(())
}

/// Opens parentheses where they are wanted, which are closed after what is pushed next.
fn open<'a>(wanted: bool, out: &mut Vec<u8>, stack: &mut Vec<Waiting<'a>>) -> Result<(), NoMemory>
    ensures out { OnOk result (out.new.items ≡ out.old.items ++ cond wanted (40 ∷ []) []) }
    ensures stack { OnOk result (stack.new.items ≡ stack.old.items ++ cond wanted (waits.Mark 41 ∷ []) []) }
{
    if wanted {
        out.push(b'(')?;
        stack.push(Waiting::Mark(b')'))?;
    }
    Ok(())
}

/// The content of an element is to be written next, or nothing where it is empty.
fn push_content<'a>(
    types: &Types,
    content: TypeId,
    stack: &mut Vec<Waiting<'a>>,
) -> Result<(), NoMemory>
    requires { BelongsTo types.now content }
    ensures { OnOk result (stack.new.items ≡ stack.old.items ++ cond (is_empty (tree types.now content)) [] (waits.Part levels.Any content ∷ [])) }
{
    match types.node(content).form() {
        TypeForm::Empty => Ok(()),
        _ => Ok(stack.push(Waiting::Part(Level::Any, content))?),
    }
}
