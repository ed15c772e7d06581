//! Lists of goals.

ghost use Rattle.std.specs.Prelude.{◌+◌, ◌<◌, ◌^◌, List, map, length, IfOk, IfErr};
ghost use Rattle.xd_proof.specs.Form.{GoalBlock, goal_list, goals_from};
ghost use Rattle.xd_proof.specs.Parts.{SpellParts};
ghost use Rattle.xd_proof.specs.Goals.{AreGoalsAt};
ghost use Rattle.xd_syntax.specs.Tree.{Tree};
ghost use Rattle.xd_proof_read.specs.Naming.{GrowsTypes, Names, NamingStands, SpellsTypeOf};
ghost use Rattle.xd_proof_read.specs.BadLines.{GoalLines, IsBehind, IsFirstBad, TellsLine};
ghost use Rattle.xd_proof_read.specs.Stages.{IsLineTaken};

use crate::error::ProofError;
use crate::naming::Naming;
use crate::said::read_line;
use crate::stages::Stage;
use std::alloc::Global;
use xd_doc::NoMemory;
use xd_proof::Proof;
use xd_sound::SoundProgram;

/// Reads the lines from the number of goals on. So many lines stand before them.
pub(crate) fn read_goals(
    alloc: Global,
    sound: &mut SoundProgram,
    naming: &Naming,
    lines: &[&[u8]],
    before: u64,
) -> Result<Proof, ProofError>
    requires stands { NamingStands sound.old.types naming.now }
    requires fits { before + length lines.now + 1 < 2 ^ 64 }
    ensures ok { IfOk result (λ proof. (bs : List (GoalBlock Tree)) × SpellParts (SpellsTypeOf sound.old) (Names sound.old naming.now) (map (λ line. line.now) lines.now) (goal_list bs) × AreGoalsAt sound.new.types proof (goals_from (before + 2) bs)) }
    ensures bad { IfErr result (TellsLine (IsBehind before (IsFirstBad (GoalLines (SpellsTypeOf sound.old) (Names sound.old naming.now)) (map (λ line. line.now) lines.now)))) }
    ensures grows { GrowsTypes sound.old sound.new }
{
    let mut stage = Stage::AtCount;
    let mut number = before;
    for line in lines {
        number += 1;
        match take_line(alloc, sound, naming, stage, line, number)? {
            Some(next) => stage = next,
            None => return Err(ProofError::Form(number)),
        }
    }
    match stage {
        Stage::AtEnd(goals) => Ok(Proof::new(goals)),
        _ => Err(ProofError::Form(number + 1)),
    }
}

/// The stage after a line, if the line may stand there.
fn take_line(
    alloc: Global,
    sound: &mut SoundProgram,
    naming: &Naming,
    stage: Stage,
    line: &[u8],
    number: u64,
) -> Result<Option<Stage>, NoMemory>
    requires { NamingStands sound.old.types naming.now }
    ensures next { IfOk result (IsLineTaken sound.old naming.now line.now stage number sound.new.types) }
    ensures grows { GrowsTypes sound.old sound.new }
{
    match read_line(alloc, sound, naming, line)? {
        None => Ok(None),
        Some(said) => stage.next(alloc, said, number),
    }
}
