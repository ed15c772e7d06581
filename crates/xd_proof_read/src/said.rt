//! Lines of goals.

ghost use Rattle.std.specs.Prelude.{◌≡◌, ◌≢◌, ◌++◌, ◌∷◌, codes, IfOk, MatchOption};
ghost use Rattle.xd_proof.specs.Lines.{space};
ghost use Rattle.xd_proof_read.specs.Naming.{GrowsTypes, NamingStands};
ghost use Rattle.xd_proof_read.specs.Said.{IsLineRead, keyword_text};

use crate::naming::Naming;
use std::alloc::Global;
use xd_doc::NoMemory;
use xd_proof::{ReadCase, before_mark, read_case, read_number};
use xd_sound::SoundProgram;
use xd_syntax::TypeId;

/// What a line says.
#[derive(Drop)]
pub(crate) enum Said {
    Goals(u64),
    Goal(u64),
    Left(TypeId),
    Right(TypeId),
    Empty(u64),
    Case(ReadCase),
    End,
}

/// The word that a line of a goal begins with.
#[derive(Clone, Copy)]
enum Keyword {
    Goals,
    Goal,
    Left,
    Right,
    Empty,
    Case,
}

/// The keyword that the word is.
fn keyword_of(word: &[u8]) -> Option<Keyword>
    ensures { MatchOption result ((k : Keyword) → word.now ≢ keyword_text k) (λ k. word.now ≡ keyword_text k) }
{
    if word == b"goals".as_slice() {
        return Some(Keyword::Goals);
    }
    if word == b"goal".as_slice() {
        return Some(Keyword::Goal);
    }
    if word == b"left".as_slice() {
        return Some(Keyword::Left);
    }
    if word == b"right".as_slice() {
        return Some(Keyword::Right);
    }
    if word == b"empty".as_slice() {
        return Some(Keyword::Empty);
    }
    if word == b"case".as_slice() {
        return Some(Keyword::Case);
    }
    None
}

/// What the line says, if it says something that a list of goals may have. Takes n log n steps for
/// n bytes.
pub(crate) fn read_line(
    alloc: Global,
    sound: &mut SoundProgram,
    naming: &Naming,
    line: &[u8],
) -> Result<Option<Said>, NoMemory>
    requires { NamingStands sound.old.types naming.now }
    ensures said { IfOk result (IsLineRead sound.old naming.now line.now sound.new.types) }
    ensures grows { GrowsTypes sound.old sound.new }
{
    let Some((word, behind)) = before_mark(b' ', line) else {
        if line == b"end".as_slice() {
            return Ok(Some(Said::End));
        }
        return Ok(None);
    };
    let Some(keyword) = keyword_of(word) else {
        return Ok(None);
    };
    read_behind(alloc, sound, naming, line, keyword, behind)
}

/// The same of a line that is a keyword and what stands after it.
fn read_behind(
    alloc: Global,
    sound: &mut SoundProgram,
    naming: &Naming,
    line: &[u8],
    keyword: Keyword,
    behind: &[u8],
) -> Result<Option<Said>, NoMemory>
    requires stands { NamingStands sound.old.types naming.now }
    requires line { line.now ≡ keyword_text keyword ++ space ∷ behind.now }
    ensures said { IfOk result (IsLineRead sound.old naming.now line.now sound.new.types) }
    ensures grows { GrowsTypes sound.old sound.new }
{
    match keyword {
        Keyword::Goals => match read_number(behind) {
            Some(count) => Ok(Some(Said::Goals(count))),
            None => Ok(None),
        },
        Keyword::Goal => match read_number(behind) {
            Some(number) => Ok(Some(Said::Goal(number))),
            None => Ok(None),
        },
        Keyword::Left => match naming.read(alloc, sound, behind)? {
            Some(left) => Ok(Some(Said::Left(left))),
            None => Ok(None),
        },
        Keyword::Right => match naming.read(alloc, sound, behind)? {
            Some(right) => Ok(Some(Said::Right(right))),
            None => Ok(None),
        },
        Keyword::Empty => match read_number(behind) {
            Some(number) => Ok(Some(Said::Empty(number))),
            None => Ok(None),
        },
        Keyword::Case => match read_case(alloc, line)? {
            Some(case) => Ok(Some(Said::Case(case))),
            None => Ok(None),
        },
    }
}
