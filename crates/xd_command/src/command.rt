//! The commands, by their words.

ghost use Rattle.std.specs.Prelude.{◌≡◌, ◌<◌, ◌^◌, map, option_map};
ghost use Rattle.std.specs.String.{string_bytes};
ghost use Rattle.xd_base.specs.Outside.{HasRisen};
ghost use Rattle.xd_command.specs.Answer.{Answers};
ghost use Rattle.xd_command.specs.CanRun.{CanRun};
ghost use Rattle.xd_command.specs.Command.{command_of, fuel_limit, number_within, of_four, of_one, of_three, of_two};
ghost use Rattle.xd_command.specs.declared.command.Command.TheVariants as commands;
ghost use Rattle.xd_command_documents.specs.Stream.{piece_limit};
ghost use Rattle.xd_command_programs.specs.Sample.{sample_limit};
ghost use Rattle.xd_command_steps.specs.DoneSteps.{DoesAll};

use std::alloc::Global;
use std::marker::Model;
use xd_base::Shelf;
use xd_command_documents::{PIECE_LIMIT, fits, least, stream};
use xd_command_inclusions::{minus, subtype, upgrade, verify};
use xd_command_programs::{SAMPLE_LIMIT, check, run, sample, types};
use xd_command_steps::{Output, Stop};
use xd_proof::read_number;
use xd_variables::Ways;

/// One of the command's words, which contracts see as its bytes.
#[derive(Drop)]
pub struct Word<'a> {
    text: &'a str,
}

impl<'a> Model for Word<'a> {
    ghost use Rattle.std.specs.Prelude.{List, ℕ};

    ghost Value = { List ℕ };

    ghost view = { λ w. w.text.now };
}

impl<'a> Word<'a> {
    fn new(text: &'a str) -> Word<'a>
        ensures { result ≡ text.now }
    {
        Word { text }
    }

    /// The word's characters.
    pub fn as_str(&self) -> &'a str
        ensures { result.now ≡ self.now }
    {
        self.text
    }
}

/// What the words ask for.
#[derive(Drop)]
pub enum Command<'a> {
    /// Whether the document fits the type of this name.
    Fits {
        file: Word<'a>,
        name: Word<'a>,
        document: Word<'a>,
    },
    /// The same of the document's bytes, as they come in pieces of this length, and else where they
    /// stop.
    Stream {
        file: Word<'a>,
        name: Word<'a>,
        document: Word<'a>,
        piece: u64,
    },
    /// Whether every document of the first type is one of the second.
    Subtype {
        file: Word<'a>,
        left: Word<'a>,
        right: Word<'a>,
    },
    /// Definitions of types that show the documents of the first type alone.
    Minus {
        file: Word<'a>,
        left: Word<'a>,
        right: Word<'a>,
    },
    /// Whether the proof is consistent over the types of the program.
    Verify {
        file: Word<'a>,
        proof: Word<'a>,
    },
    /// The proof in the second format.
    Upgrade {
        file: Word<'a>,
        proof: Word<'a>,
    },
    /// A least document of the type of this name.
    Least {
        file: Word<'a>,
        name: Word<'a>,
    },
    /// Whether the program is accepted, and else its faults.
    Check {
        file: Word<'a>,
    },
    /// What the variables of the program's clauses may be, by all whole ways of patterns.
    Types {
        file: Word<'a>,
    },
    /// The same by first matches.
    Precise {
        file: Word<'a>,
    },
    /// The value of the program on the document, within so many calls.
    Run {
        file: Word<'a>,
        document: Word<'a>,
        fuel: u64,
    },
    /// What becomes of the telephone program on a document of so many persons.
    Sample {
        persons: u64,
    },
}

/// How many calls a run may make at most.
pub const FUEL_LIMIT: u64 = 10_000_000;

/// How many calls a run may make where its words don't say.
pub const DEFAULT_FUEL: u64 = 1_000_000;

/// The number that the word spells, where it is from 1 to the limit.
fn number_within(limit: u64, word: &str) -> Option<u64>
    requires { limit < 10 ^ 18 }
    ensures { result ≡ number_within limit word.now }
{
    let Some(number) = read_number(word.as_bytes()) else {
        return None;
    };
    if number > limit {
        return None;
    }
    Some(number)
}

impl<'a> Command<'a> {
    /// The command that the words have the form of.
    pub fn parse(words: &'a [String]) -> Option<Command<'a>>
        ensures { result ≡ command_of (map string_bytes words.now) }
    {
        match words {
            [command, first] => Command::of_one(command.as_str(), first.as_str()),
            [command, file, second] => {
                Command::of_two(command.as_str(), file.as_str(), second.as_str())
            }
            [command, file, second, third] => Command::of_three(
                command.as_str(),
                file.as_str(),
                second.as_str(),
                third.as_str(),
            ),
            [command, file, second, third, fourth] => Command::of_four(
                command.as_str(),
                file.as_str(),
                second.as_str(),
                third.as_str(),
                fourth.as_str(),
            ),
            _ => None,
        }
    }

    /// A command on one text, or on a number.
    fn of_one(command: &str, first: &'a str) -> Option<Command<'a>>
        ensures { result ≡ of_one command.now first.now }
    {
        if command == "check" {
            return Some(Command::Check {
                file: Word::new(first),
            });
        }
        if command == "types" {
            return Some(Command::Types {
                file: Word::new(first),
            });
        }
        if command == "precise" {
            return Some(Command::Precise {
                file: Word::new(first),
            });
        }
        if command == "sample" {
            return Command::sample(first);
        }
        None
    }

    /// A sample of so many persons, where the word spells their number.
    fn sample(persons: &str) -> Option<Command<'a>>
        ensures { result ≡ option_map (λ n. commands.Sample n) (number_within sample_limit persons.now) }
    {
        let persons = number_within(SAMPLE_LIMIT, persons)?;
        Some(Command::Sample { persons })
    }

    /// A command on a text and one more word.
    fn of_two(command: &str, file: &'a str, second: &'a str) -> Option<Command<'a>>
        ensures { result ≡ of_two command.now file.now second.now }
    {
        if command == "verify" {
            return Some(Command::Verify {
                file: Word::new(file),
                proof: Word::new(second),
            });
        }
        if command == "upgrade" {
            return Some(Command::Upgrade {
                file: Word::new(file),
                proof: Word::new(second),
            });
        }
        if command == "least" {
            return Some(Command::Least {
                file: Word::new(file),
                name: Word::new(second),
            });
        }
        if command == "run" {
            return Some(Command::Run {
                file: Word::new(file),
                document: Word::new(second),
                fuel: DEFAULT_FUEL,
            });
        }
        None
    }

    /// A command on a text and two more words.
    fn of_three(
        command: &str,
        file: &'a str,
        second: &'a str,
        third: &'a str,
    ) -> Option<Command<'a>>
        ensures { result ≡ of_three command.now file.now second.now third.now }
    {
        if command == "fits" {
            return Some(Command::Fits {
                file: Word::new(file),
                name: Word::new(second),
                document: Word::new(third),
            });
        }
        if command == "subtype" {
            return Some(Command::Subtype {
                file: Word::new(file),
                left: Word::new(second),
                right: Word::new(third),
            });
        }
        if command == "minus" {
            return Some(Command::Minus {
                file: Word::new(file),
                left: Word::new(second),
                right: Word::new(third),
            });
        }
        if command == "run" {
            return Command::run(file, second, third);
        }
        None
    }

    /// A command on a text and three more words.
    fn of_four(
        command: &str,
        file: &'a str,
        second: &'a str,
        third: &'a str,
        fourth: &'a str,
    ) -> Option<Command<'a>>
        ensures { result ≡ of_four command.now file.now second.now third.now fourth.now }
    {
        if command == "stream" {
            return Command::stream(file, second, third, fourth);
        }
        None
    }

    /// A stream of pieces of this length, where the word spells one.
    fn stream(file: &'a str, name: &'a str, document: &'a str, piece: &str) -> Option<Command<'a>>
        ensures { result ≡ option_map (commands.Stream file.now name.now document.now) (number_within piece_limit piece.now) }
    {
        let piece = number_within(PIECE_LIMIT, piece)?;
        Some(Command::Stream {
            file: Word::new(file),
            name: Word::new(name),
            document: Word::new(document),
            piece,
        })
    }

    /// A run with this fuel, where the word spells one.
    fn run(file: &'a str, document: &'a str, fuel: &str) -> Option<Command<'a>>
        ensures { result ≡ option_map (commands.Run file.now document.now) (number_within fuel_limit fuel.now) }
    {
        let fuel = number_within(FUEL_LIMIT, fuel)?;
        Some(Command::Run {
            file: Word::new(file),
            document: Word::new(document),
            fuel,
        })
    }

    /// Does the command, but for the writing.
    pub fn answer<H: Shelf>(&self, alloc: Global, shelf: &mut H) -> Result<Output, Stop>
        requires { CanRun self.now }
        ensures { DoesAll result (Answers self.now (H.holds shelf.old) (HasRisen (H.faults shelf.old) (H.faults shelf.new))) }
    {
        match self {
            Command::Fits {
                file,
                name,
                document,
            } => fits(
                alloc,
                file.as_str(),
                name.as_str(),
                document.as_str(),
                shelf,
            ),
            Command::Stream {
                file,
                name,
                document,
                piece,
            } => stream(
                alloc,
                file.as_str(),
                name.as_str(),
                document.as_str(),
                *piece,
                shelf,
            ),
            Command::Subtype { file, left, right } => subtype(
                alloc,
                file.as_str(),
                left.as_str(),
                right.as_str(),
                shelf,
            ),
            Command::Minus { file, left, right } => minus(
                alloc,
                file.as_str(),
                left.as_str(),
                right.as_str(),
                shelf,
            ),
            Command::Verify { file, proof } => {
                verify(alloc, file.as_str(), proof.as_str(), shelf)
            }
            Command::Upgrade { file, proof } => {
                upgrade(alloc, file.as_str(), proof.as_str(), shelf)
            }
            Command::Least { file, name } => { least(alloc, file.as_str(), name.as_str(), shelf) }
            Command::Check { file } => check(alloc, file.as_str(), shelf),
            Command::Types { file } => types(alloc, file.as_str(), Ways::Whole, shelf),
            Command::Precise { file } => types(alloc, file.as_str(), Ways::First, shelf),
            Command::Run {
                file,
                document,
                fuel,
            } => run(alloc, file.as_str(), document.as_str(), *fuel, shelf),
            Command::Sample { persons } => sample(alloc, *persons),
        }
    }
}
