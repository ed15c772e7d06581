//! The two formats.

ghost use Rattle.std.specs.Prelude.{◌≡◌, ◌≢◌, ◌+◌, ◌<◌, ◌^◌, ◌∷◌, List, codes, map, length, IfOk, IfErr, MatchOption};
ghost use Rattle.std.specs.List.{AllZip};
ghost use Rattle.xd_syntax.specs.Tree.{Tree};
ghost use Rattle.xd_syntax.specs.SoundTables.{IsTypeAt};
ghost use Rattle.xd_meaning.specs.Violation.{Lined};
ghost use Rattle.xd_proof.specs.Lines.{SpellsNumber};
ghost use Rattle.xd_proof.specs.Form.{AreProof, types_from};
ghost use Rattle.xd_proof.specs.Parts.{SpellParts};
ghost use Rattle.xd_proof.specs.Goals.{AreGoalsAt};
ghost use Rattle.xd_proof_read.specs.Naming.{GrowsTypes, IsTypeRead, SpellsTypeOf};
ghost use Rattle.xd_proof_read.specs.BadLines.{IsBadTypeLine, IsBehind, IsFirstBad, IsTypeLine, ProofLines, TellsLine, title_of};

use crate::error::ProofError;
use crate::goals::read_goals;
use crate::naming::{Naming, read_spelled};
use std::alloc::Global;
use xd_doc::NoMemory;
use xd_proof::{Proof, before_mark, behind_word, read_number, read_numbered};
use xd_sound::SoundProgram;
use xd_syntax::TypeId;

/// Reads the lines of a proof text, in the format that the first one names.
pub(crate) fn read_lines(
    alloc: Global,
    sound: &mut SoundProgram,
    lines: &[&[u8]],
) -> Result<Proof, ProofError>
    requires { length lines.now + 2 < 2 ^ 64 }
    ensures ok { IfOk result (λ proof. (goals : List Lined) × AreProof (SpellsTypeOf sound.old) (map (λ line. line.now) lines.now) goals × AreGoalsAt sound.new.types proof goals) }
    ensures bad { IfErr result (TellsLine (IsFirstBad (ProofLines (SpellsTypeOf sound.old)) (map (λ line. line.now) lines.now))) }
    ensures grows { GrowsTypes sound.old sound.new }
{
    let Some((title, rest)) = lines.split_first() else {
        return Err(ProofError::Form(1));
    };
    match format_of(title) {
        Some(Format::First) => read_first(alloc, sound, rest),
        Some(Format::Second) => read_second(alloc, sound, rest),
        None => Err(ProofError::Form(1)),
    }
}

/// What a title says.
#[derive(Clone, Copy)]
enum Format {
    First,
    Second,
}

/// The format that the title names.
fn format_of(title: &[u8]) -> Option<Format>
    ensures { MatchOption result ((f : Format) → title.now ≢ title_of f) (λ f. title.now ≡ title_of f) }
{
    if title == b"xduce-proof 1".as_slice() {
        return Some(Format::First);
    }
    if title == b"xduce-proof 2".as_slice() {
        return Some(Format::Second);
    }
    None
}

/// Reads the lines after the title of the first format.
fn read_first(alloc: Global, sound: &mut SoundProgram, lines: &[&[u8]]) -> Result<Proof, ProofError>
    requires { length lines.now + 2 < 2 ^ 64 }
    ensures ok { IfOk result (λ proof. (goals : List Lined) × AreProof (SpellsTypeOf sound.old) (codes "xduce-proof 1" ∷ map (λ line. line.now) lines.now) goals × AreGoalsAt sound.new.types proof goals) }
    ensures bad { IfErr result (TellsLine (IsFirstBad (ProofLines (SpellsTypeOf sound.old)) (codes "xduce-proof 1" ∷ map (λ line. line.now) lines.now))) }
    ensures grows { GrowsTypes sound.old sound.new }
{
    read_goals(alloc, sound, &Naming::Spelled, lines, 1)
}

/// Reads the lines after the title of the second format.
fn read_second(
    alloc: Global,
    sound: &mut SoundProgram,
    lines: &[&[u8]],
) -> Result<Proof, ProofError>
    requires { length lines.now + 2 < 2 ^ 64 }
    ensures ok { IfOk result (λ proof. (goals : List Lined) × AreProof (SpellsTypeOf sound.old) (codes "xduce-proof 2" ∷ map (λ line. line.now) lines.now) goals × AreGoalsAt sound.new.types proof goals) }
    ensures bad { IfErr result (TellsLine (IsFirstBad (ProofLines (SpellsTypeOf sound.old)) (codes "xduce-proof 2" ∷ map (λ line. line.now) lines.now))) }
    ensures grows { GrowsTypes sound.old sound.new }
{
    let Some((first, rest)) = lines.split_first() else {
        return Err(ProofError::Form(2));
    };
    let Some(count) = read_numbered(b"types".as_slice(), first) else {
        return Err(ProofError::Form(2));
    };
    let many = rest.len().min(count as usize);
    let (typed, goals) = rest.split_at(many);
    let types = read_types(alloc, sound, typed, 2)?;
    if many < count as usize {
        return Err(ProofError::Form(many as u64 + 3));
    }
    read_goals(alloc, sound, &Naming::Numbered(types), goals, count + 2)
}

/// Reads lines of types, numbered from 1. So many lines stand before them.
fn read_types(
    alloc: Global,
    sound: &mut SoundProgram,
    lines: &[&[u8]],
    before: u64,
) -> Result<Vec<TypeId>, ProofError>
    requires { before + length lines.now + 1 < 2 ^ 64 }
    ensures ok { IfOk result (λ types. (Ts : List Tree) × SpellParts (SpellsTypeOf sound.old) SpellsNumber (map (λ line. line.now) lines.now) (types_from 1 Ts) × AllZip (λ id T. IsTypeAt sound.new.types T id) types.items Ts) }
    ensures bad { IfErr result (TellsLine (IsBehind before (IsBadTypeLine (SpellsTypeOf sound.old) (map (λ line. line.now) lines.now)))) }
    ensures grows { GrowsTypes sound.old sound.new }
{
    let mut types = Vec::new(alloc);
    let mut number = 0;
    for line in lines {
        number += 1;
        match read_type_line(alloc, sound, number, line)? {
            Some(id) => types.push(id)?,
            None => return Err(ProofError::Form(before + number)),
        }
    }
    Ok(types)
}

/// The type of a line that has this number and a type.
fn read_type_line(
    alloc: Global,
    sound: &mut SoundProgram,
    number: u64,
    line: &[u8],
) -> Result<Option<TypeId>, NoMemory>
    ensures read { IfOk result (IsTypeRead (λ line T. IsTypeLine (SpellsTypeOf sound.old) line number T) line.now sound.new.types) }
    ensures grows { GrowsTypes sound.old sound.new }
{
    let Some(behind) = behind_word(b"type".as_slice(), line) else {
        return Ok(None);
    };
    let Some((word, text)) = before_mark(b' ', behind) else {
        return Ok(None);
    };
    match read_number(word) {
        Some(there) => {
            if there != number {
                return Ok(None);
            }
            read_spelled(alloc, sound, text)
        }
        None => Ok(None),
    }
}
