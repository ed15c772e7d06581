//! What the command writes.

ghost use Rattle.std.specs.Prelude.{◌≡◌, ◌++◌, ◌<◌, ◌≤◌, ℕ, List, [], ◌∷◌, length, None, IfOk, OnOk, OnErr, decimal, codes};
ghost use Rattle.std.specs.Bool.{OnTrue, OnFalse};
ghost use Rattle.std.specs.List.{AllByRecursion};
ghost use Rattle.xd_base.specs.Outside.{HasRisen, HasGrown};
ghost use Rattle.xd_doc.specs.Stored.{document_at};
ghost use Rattle.xd_doc.specs.StoredSeq.{BelongsTo};
ghost use Rattle.xd_report.specs.Carries.{CarriesFrom};
ghost use Rattle.xd_report.specs.Report.{place_front};
ghost use Rattle.xd_syntax.specs.declared.fault.FaultKind.TheVariants.{NoMain, NoSuchName};
ghost use Rattle.xd_meaning.specs.Violation.{Lined, goals_of};
ghost use Rattle.xd_proof.specs.Goals.{AreGoalsAt, GoalsBelong};
ghost use Rattle.xd_proof_check.specs.Reasons.{reason_of};
ghost use Rattle.xd_proof_write.specs.ClaimText.{claim_text};
ghost use Rattle.xd_proof_write.specs.SecondText.{second_text_of};
ghost use Rattle.xd_command_steps.specs.Output.{IsSent};
ghost use Rattle.xd_command_steps.specs.Proofs.{bad_line, reason_text};
ghost use Rattle.xd_command_steps.specs.Output as outputs;
ghost use Rattle.xd_command_steps.specs.declared.output.Stop.TheVariants as stops;

use crate::status::Status;
use itoa::Buffer;
use std::alloc::Global;
use std::marker::Model;
use xd_base::{Place, Sink};
use xd_doc::{NoMemory, Seq, Store, Text};
use xd_proof::Proof;
use xd_proof_check::Reason;
use xd_proof_write::{claim_line, second_text};
use xd_report::{fault_line, write_place_front};
use xd_sound::SoundProgram;
use xd_syntax::{Fault, FaultKind};
use xd_write::write_document;

/// A text that is to be written whole, and the status that goes with it.
#[derive(Drop)]
pub struct Output {
    status: Status,
    text: Vec<u8>,
}

impl Model for Output {
    ghost use Rattle.xd_command_steps.specs.Output as outputs;

    ghost Value = { outputs.Output };

    ghost view = { λ o. record { status = o.status.code; text = o.text.items } };
}

/// Why a step of a command is the last.
#[derive(Drop)]
pub enum Stop {
    /// The command ends with this output.
    Refused(Output),
    NoMemory,
}

impl From<NoMemory> for Stop {
    ghost from_gives = { λ _ stop. stop ≡ stops.NoMemory };

    fn from(_error: NoMemory) -> Stop {
        Stop::NoMemory
    }
}

impl Output {
    /// The output of a fixed text.
    fn fixed(alloc: Global, status: Status, text: &str) -> Result<Output, NoMemory>
        ensures { IfOk result (λ o. o ≡ record { status = status.code; text = text.now }) }
    {
        let text = Vec::from_slice(alloc, text.as_bytes())?;
        Ok(Output { status, text })
    }

    /// The output of a line that ends with a name.
    fn named(alloc: Global, status: Status, front: &str, name: &str) -> Result<Output, NoMemory>
        ensures { IfOk result (λ o. o ≡ record { status = status.code; text = front.now ++ name.now ++ codes "\n" }) }
    {
        let mut text = Vec::from_slice(alloc, front.as_bytes())?;
        text.extend_from_slice(name.as_bytes())?;
        text.extend_from_slice(b"\n")?;
        Ok(Output { status, text })
    }

    /// That the answer is yes.
    ///
    /// Fails only where memory is refused.
    pub fn yes(alloc: Global) -> Result<Output, NoMemory>
        ensures { IfOk result (λ o. o ≡ outputs.yes) }
    {
        Output::fixed(alloc, Status::SUCCESS, "yes\n")
    }

    /// That the answer is no.
    ///
    /// Fails only where memory is refused.
    pub fn no(alloc: Global) -> Result<Output, NoMemory>
        ensures { IfOk result (λ o. o ≡ outputs.no) }
    {
        Output::fixed(alloc, Status::NO, "no\n")
    }

    /// That the program is accepted, after these lines.
    ///
    /// Fails only where memory is refused.
    pub fn accepted(lines: Vec<u8>) -> Result<Output, NoMemory>
        ensures { IfOk result (λ o. o ≡ record { status = 0; text = lines.items ++ codes "accepted\n" }) }
    {
        let mut text = lines;
        text.extend_from_slice(b"accepted\n")?;
        Ok(Output {
            status: Status::SUCCESS,
            text,
        })
    }

    /// The lines of a program that is not accepted.
    pub fn refused(lines: Vec<u8>) -> Output
        ensures { result ≡ record { status = 1; text = lines.items } }
    {
        Output {
            status: Status::FAULTS,
            text: lines,
        }
    }

    /// That the document is outside the input type.
    ///
    /// Fails only where memory is refused.
    pub fn outside_input(alloc: Global) -> Result<Output, NoMemory>
        ensures { IfOk result (λ o. o ≡ outputs.outside_input) }
    {
        Output::fixed(alloc, Status::OUTSIDE, "outside the input type\n")
    }

    /// That the calls that were allowed are spent.
    ///
    /// Fails only where memory is refused.
    pub fn fuel_spent(alloc: Global) -> Result<Output, NoMemory>
        ensures { IfOk result (λ o. o ≡ outputs.fuel_spent) }
    {
        Output::fixed(alloc, Status::SPENT, "fuel spent\n")
    }

    /// The report that the program has no input type.
    ///
    /// Fails only where memory is refused.
    pub fn no_main(alloc: Global) -> Result<Output, NoMemory>
        ensures { IfOk result (λ o. o ≡ outputs.fault_lines (record { place = None; kind = NoMain } ∷ [])) }
    {
        let fault = Fault {
            place: None,
            kind: FaultKind::NoMain,
        };
        Output::faults(alloc, &[fault])
    }

    /// The canonical text of a document.
    ///
    /// Fails only where memory is refused.
    pub fn canonical(alloc: Global, store: &Store, document: Seq) -> Result<Output, NoMemory>
        requires { BelongsTo store.now document }
        ensures { IfOk result (λ o. o ≡ outputs.canonical (document_at store.now document)) }
    {
        let mut text = Vec::new(alloc);
        write_document(alloc, store, document, &mut text)?;
        text.extend_from_slice(b"\n")?;
        Ok(Output {
            status: Status::SUCCESS,
            text,
        })
    }

    /// How many persons a sample has, how many bytes its document and its value, and how many calls
    /// were made.
    ///
    /// Fails only where memory is refused.
    pub fn summary(
        alloc: Global,
        persons: u64,
        document: usize,
        value: usize,
        calls: u64,
    ) -> Result<Output, NoMemory>
        ensures { IfOk result (λ o. o ≡ outputs.summary persons document value calls) }
    {
        let text = format!(in alloc;
            "persons {persons}\ndocument {document}\nresult {value}\ncalls {calls}\n"
        )?;
        Ok(Output {
            status: Status::SUCCESS,
            text: text.into_bytes(),
        })
    }

    /// How the words of a command begin.
    ///
    /// Fails only where memory is refused.
    pub fn usage(alloc: Global) -> Result<Output, NoMemory>
        ensures { IfOk result (λ o. o ≡ outputs.usage) }
    {
        Output::fixed(alloc, Status::USAGE, "usage: xduce COMMAND WORDS\n")
    }

    /// That the text of this name can't be read.
    ///
    /// Fails only where memory is refused.
    pub fn cannot_read(alloc: Global, name: &str) -> Result<Output, NoMemory>
        ensures { IfOk result (λ o. o ≡ outputs.cannot_read name.now) }
    {
        Output::named(alloc, Status::UNREAD, "cannot read ", name)
    }

    /// That the text of this name is longer than its limit.
    ///
    /// Fails only where memory is refused.
    pub fn too_long(alloc: Global, name: &str) -> Result<Output, NoMemory>
        ensures { IfOk result (λ o. o ≡ outputs.too_long name.now) }
    {
        Output::named(alloc, Status::TOO_LONG, "too long: ", name)
    }

    /// The output of a line that begins with a place.
    fn placed(
        alloc: Global,
        status: Status,
        place: Place,
        line_end: &str,
    ) -> Result<Output, NoMemory>
        ensures { IfOk result (λ o. o ≡ record { status = status.code; text = place_front place ++ line_end.now }) }
    {
        let mut text = Vec::new(alloc);
        write_place_front(place, &mut text)?;
        text.extend_from_slice(line_end.as_bytes())?;
        Ok(Output { status, text })
    }

    /// That a text spells no document, and where.
    ///
    /// Fails only where memory is refused.
    pub fn malformed_document(alloc: Global, place: Place) -> Result<Output, NoMemory>
        ensures { IfOk result (λ o. o ≡ outputs.malformed_document place) }
    {
        Output::placed(alloc, Status::MALFORMED, place, "malformed document\n")
    }

    /// That no document of the type goes on with the token at this place.
    ///
    /// Fails only where memory is refused.
    pub fn outside_type(alloc: Global, place: Place) -> Result<Output, NoMemory>
        ensures { IfOk result (λ o. o ≡ outputs.outside_type place) }
    {
        Output::placed(alloc, Status::NO, place, "outside the type\n")
    }

    /// That the answer is no, for this document.
    ///
    /// Fails only where memory is refused.
    pub fn separated(alloc: Global, store: &Store, document: Seq) -> Result<Output, NoMemory>
        requires { BelongsTo store.now document }
        ensures { IfOk result (λ o. o ≡ outputs.separated (document_at store.now document)) }
    {
        let mut text = Vec::from_slice(alloc, b"no: ")?;
        write_document(alloc, store, document, &mut text)?;
        text.extend_from_slice(b"\n")?;
        Ok(Output {
            status: Status::NO,
            text,
        })
    }

    /// The first bad line of a proof, and why it is bad.
    ///
    /// Fails only where memory is refused.
    pub fn bad_line(alloc: Global, line: u64, reason: Reason) -> Result<Output, NoMemory>
        ensures { IfOk result (λ o. o ≡ bad_line line (reason_of reason)) }
    {
        let mut digits = Buffer::new();
        let mut text = Vec::from_slice(alloc, b"line ")?;
        text.extend_from_slice(digits.format(line).as_bytes())?;
        text.extend_from_slice(b": ")?;
        text.extend_from_slice(reason_text(reason).as_bytes())?;
        text.extend_from_slice(b"\n")?;
        Ok(Output {
            status: Status::NO,
            text,
        })
    }

    /// The claim of a proof that is accepted.
    ///
    /// Fails only where memory is refused.
    pub fn claim(alloc: Global, sound: &SoundProgram, proof: &Proof) -> Result<Output, NoMemory>
        requires { GoalsBelong sound.now.types proof.now }
        ensures { (claim : Lined) (others : List Lined) → AreGoalsAt sound.now.types proof.now (claim ∷ others) → IfOk result (λ o. o ≡ record { status = 0; text = claim_text claim.goal ++ codes "\n" }) }
    {
        let mut text = Vec::new(alloc);
        claim_line(alloc, sound, proof, &mut text)?;
        text.extend_from_slice(b"\n")?;
        Ok(Output {
            status: Status::SUCCESS,
            text,
        })
    }

    /// The text that was asked for, as a proof text or definitions of types.
    pub fn success(text: Vec<u8>) -> Output
        ensures { result ≡ record { status = 0; text = text.items } }
    {
        Output {
            status: Status::SUCCESS,
            text,
        }
    }

    /// A proof in the second format.
    ///
    /// Fails only where memory is refused.
    pub fn proof(alloc: Global, sound: &SoundProgram, proof: &Proof) -> Result<Output, NoMemory>
        requires { GoalsBelong sound.now.types proof.now }
        ensures { (goals : List Lined) → AreGoalsAt sound.now.types proof.now goals → IfOk result (λ o. o ≡ record { status = 0; text = second_text_of (goals_of goals) }) }
    {
        let mut text = Vec::new(alloc);
        second_text(alloc, sound, proof, &mut text)?;
        Ok(Output::success(text))
    }

    /// The lines of faults that carry no documents.
    ///
    /// Fails only where memory is refused.
    pub fn faults(alloc: Global, faults: &[Fault]) -> Result<Output, NoMemory>
        requires { AllByRecursion (λ f. CarriesFrom [] f.kind) faults.now }
        ensures { IfOk result (λ o. o ≡ outputs.fault_lines faults.now) }
    {
        let store = Store::new(alloc);
        let mut text = Vec::new(alloc);
        for fault in faults {
            fault_line(alloc, &store, fault, &mut text)?;
        }
        Ok(Output {
            status: Status::FAULTS,
            text,
        })
    }

    /// The report that no type has this name.
    ///
    /// Fails only where memory is refused.
    pub fn undefined_type(alloc: Global, name: &str) -> Result<Output, NoMemory>
        ensures { IfOk result (λ o. o ≡ outputs.fault_lines (record { place = None; kind = NoSuchName name.now } ∷ [])) }
    {
        Output::faults(alloc, &[undefined_name(alloc, name)?])
    }

    /// The report that no type has the one name, and none the other.
    ///
    /// Fails only where memory is refused.
    pub fn undefined_types(alloc: Global, one: &str, other: &str) -> Result<Output, NoMemory>
        ensures { IfOk result (λ o. o ≡ outputs.fault_lines (record { place = None; kind = NoSuchName one.now } ∷ (record { place = None; kind = NoSuchName other.now } ∷ []))) }
    {
        let first = undefined_name(alloc, one)?;
        let second = undefined_name(alloc, other)?;
        Output::faults(alloc, &[first, second])
    }

    /// The text. As a vector holds it, it has fewer than 2^63 bytes.
    pub fn text(&self) -> &[u8]
        ensures { result.now ≡ self.now.text }
    {
        self.text.as_slice()
    }

    /// Puts the text into the sink, and gives its status, or that of a sink which didn't take it.
    pub fn send<S: Sink>(&self, sink: &mut S) -> Status
        ensures { IsSent self.now (HasRisen (S.faults sink.old) (S.faults sink.new)) (S.written sink.old) (S.written sink.new) result.code }
    {
        if put_all(sink, &self.text) {
            self.status
        } else {
            Status::UNWRITTEN
        }
    }
}

/// The number and the word of a reason.
fn reason_text(reason: Reason) -> &'static str
    ensures { result.now ≡ reason_text (reason_of reason) }
{
    match reason {
        Reason::Form => "reason 1: form",
        Reason::Empty => "reason 2: empty",
        Reason::Case => "reason 3: case",
        Reason::Split => "reason 4: split",
        Reason::Leaf => "reason 5: leaf",
    }
}

/// The fault that no type has this name.
fn undefined_name(alloc: Global, name: &str) -> Result<Fault, NoMemory>
    ensures { IfOk result (λ fault. fault ≡ record { place = None; kind = NoSuchName name.now }) }
{
    Ok(Fault {
        place: None,
        kind: FaultKind::NoSuchName(Text::new(alloc, name)?),
    })
}

/// Puts all the bytes into the sink, piece by piece, and says whether it took them.
pub fn put_all<S: Sink>(sink: &mut S, bytes: &[u8]) -> bool
    ensures whole { OnTrue result (HasGrown (S.written sink.old) (S.written sink.new) bytes.now) }
    ensures front { OnFalse result ((front : List ℕ) × (rest : List ℕ) × (0 < length rest) × (bytes.now ≡ front ++ rest) × HasGrown (S.written sink.old) (S.written sink.new) front) }
    ensures failed { OnFalse result (HasRisen (S.faults sink.old) (S.faults sink.new)) }
    ensures never_falls { S.faults sink.old ≤ S.faults sink.new }
{
    let mut at = 0;
    while at < bytes.len() {
        match sink.put(&bytes[at..]) {
            Ok(n) => at += n,
            Err(_) => return false,
        }
    }
    true
}
