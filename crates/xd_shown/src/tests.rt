//! That names and definitions are made where there is memory.

use crate::{Shown, free_names};
use std::test::Fail;
use xd_doc::Label;

#[test]
fn names_that_are_taken_are_left_out(rt: HostRuntime) -> Result<(), Fail> {
    let mut taken = Vec::new(rt.alloc());
    taken.push(Label::new(rt.alloc(), "S3")?)?;
    taken.push(Label::new(rt.alloc(), "Person")?)?;
    taken.push(Label::new(rt.alloc(), "S1")?)?;
    let words = free_names(rt.alloc(), &taken, 3)?;
    assert_eq!(rt; words[0].as_str(), "S2");
    assert_eq!(rt; words[1].as_str(), "S4");
    assert_eq!(rt; words[2].as_str(), "S5");
    Ok(())
}

#[test]
fn no_document_is_one_definition(rt: HostRuntime) -> Result<(), Fail> {
    let mut taken = Vec::new(rt.alloc());
    taken.push(Label::new(rt.alloc(), "S1")?)?;
    let shown = Shown::nothing(rt.alloc(), &taken)?;
    assert_eq!(rt; shown.start.as_str(), "S2");
    assert_eq!(rt; shown.sound.program().type_defs().len(), 1);
    Ok(())
}
