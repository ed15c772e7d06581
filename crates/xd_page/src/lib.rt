//! The command for a page: words and texts are in its memory, and so is the room for the output.
#![tactic(auto)]

ghost use Rattle.std.specs.Prelude.{◌≡◌, ◌≤◌, ◌++◌, All, Some, [], true, false, IfOk, IfSome, length, map, min, take};
ghost use Rattle.std.specs.Str.{IsUtf8};
ghost use Rattle.std.specs.String.{string_bytes};
ghost use Rattle.xd_answer.specs.Answered.{NoFault, held_text};
ghost use Rattle.xd_base.specs.MemoryShelf.{text_of};
ghost use Rattle.xd_command.specs.Command.{command_of};
ghost use Rattle.xd_command.specs.Outcome.{IsOutcome};
ghost use Rattle.xd_page.specs.Words.{IsWord, word_bytes};

use std::alloc::{AllocError, Global};
use xd_answer::{Text, answer};

/// One of the command's words.
#[repr(C)]
#[derive(Drop)]
pub struct Word<'a> {
    pub bytes: &'a [u8],
}

/// Puts the words behind those that are found, up to the first that isn't UTF-8; whether there is
/// none such.
fn add_words(alloc: Global, words: &[Word<'_>], found: &mut Vec<String>) -> Result<bool, AllocError>
    ensures all { IfOk result (λ is_whole. is_whole ≡ true → map string_bytes found.new.items ≡ map string_bytes found.old.items ++ map word_bytes words.now) }
    ensures some { IfOk result (λ is_whole. is_whole ≡ false → ¬ (All IsWord words.now)) }
{
    match words {
        [] => Ok(true),
        [first, more @ ..] => match std::str::from_utf8(first.bytes) {
            Ok(text) => {
                found.push(String::from_str(alloc, text)?)?;
                Ok(add_words(alloc, more, found)?)
            }
            Err(_) => Ok(false),
        },
    }
}

/// Puts as much of the bytes to the front of the room as it has room for, and says how much.
fn put(bytes: &[u8], room: &mut [u8]) -> usize
    ensures count { result ≡ min (length bytes.now) (length room.old) }
    ensures room { length room.new ≡ length room.old }
    ensures front { take result room.new ≡ take result bytes.now }
{
    let length = bytes.len().min(room.len());
    room[..length].copy_from_slice(&bytes[..length]);
    length
}

/// What the command answers to these words, where the texts that they name are these.
///
/// The output goes to the front of the room, its length to `written`, and its status is the result:
/// 5 where there is no memory, and 4 where the room is full and there is more of the output. Words
/// that aren't UTF-8 have the status of words of no form, and no output.
#[unsafe(no_mangle)]
pub extern "C" fn xd_page(
    alloc: Global,
    words: &[Word],
    texts: &[Text],
    room: &mut [u8],
    written: &mut usize,
) -> u8
    ensures within { written.new ≤ length room.new }
    ensures outcome { All IsWord words.now → IsOutcome (command_of (map word_bytes words.now)) (Some (text_of (map held_text texts.now))) NoFault (written.new ≡ length room.new) (Some []) (Some (take written.new room.new)) result }
{
    *written = 0;
    let mut said = Vec::new(alloc);
    let Ok(is_whole) = add_words(alloc, words, &mut said) else {
        return 5;
    };
    if !is_whole {
        return 2;
    }
    let Ok(reply) = answer(alloc, &said, texts) else {
        return 5;
    };
    *written = put(&reply.text, room);
    if *written < reply.text.len() {
        4
    } else {
        reply.status
    }
}
