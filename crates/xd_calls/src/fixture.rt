//! The fixtures and their names.

use std::alloc::Global;
use xd_calls_checked::CheckedFixture;
use xd_calls_clauses::ClauseFixture;
use xd_calls_documents::DocumentFixture;
use xd_calls_lines::{Call, CallError, Fixture, NamedFixture};
use xd_calls_parts::PartFixture;
use xd_calls_plain::PlainFixture;
use xd_calls_proofs::ProofFixture;
use xd_calls_states::StateFixture;
use xd_calls_steps::StepFixture;
use xd_calls_texts::ProgramFixture;
use xd_calls_values::ValueFixture;

/// The fixture that a line of the input chose.
#[derive(Drop)]
pub enum AnyFixture {
    Documents(DocumentFixture),
    Programs(ProgramFixture),
    Plain(PlainFixture),
    Clauses(ClauseFixture),
    States(StateFixture),
    Checked(CheckedFixture),
    Values(ValueFixture),
    Proofs(ProofFixture),
    Parts(PartFixture),
    Steps(StepFixture),
}

impl Fixture for AnyFixture {
    fn answer(&mut self, call: &Call<'_>, out: &mut Vec<u8>) -> Result<(), CallError> {
        match self {
            Self::Documents(fixture) => fixture.answer(call, out),
            Self::Programs(fixture) => fixture.answer(call, out),
            Self::Plain(fixture) => fixture.answer(call, out),
            Self::Clauses(fixture) => fixture.answer(call, out),
            Self::States(fixture) => fixture.answer(call, out),
            Self::Checked(fixture) => fixture.answer(call, out),
            Self::Values(fixture) => fixture.answer(call, out),
            Self::Proofs(fixture) => fixture.answer(call, out),
            Self::Parts(fixture) => fixture.answer(call, out),
            Self::Steps(fixture) => fixture.answer(call, out),
        }
    }
}

impl NamedFixture for AnyFixture {
    fn named(alloc: Global, name: &str) -> Result<AnyFixture, CallError> {
        match name {
            "documents" => Ok(Self::Documents(DocumentFixture::new(alloc))),
            "programs" => Ok(Self::Programs(ProgramFixture::new(alloc))),
            "plain" => Ok(Self::Plain(PlainFixture::new(alloc))),
            "clauses" => Ok(Self::Clauses(ClauseFixture::new(alloc))),
            "states" => Ok(Self::States(StateFixture::new(alloc))),
            "checked" => Ok(Self::Checked(CheckedFixture::new(alloc))),
            "values" => Ok(Self::Values(ValueFixture::new(alloc))),
            "proofs" => Ok(Self::Proofs(ProofFixture::new(alloc))),
            "parts" => Ok(Self::Parts(PartFixture::new(alloc))),
            "steps" => Ok(Self::Steps(StepFixture::new(alloc))),
            _ => Err(CallError::Unknown),
        }
    }
}
