//! Each chain on small texts. What it gives was worked out by hand.

use crate::{compare_texts, fits, proved_claim, upgraded, value_of};
use std::test::Fail;
use xd_doc::Store;
use xd_inclusion::Inclusion;
use xd_write::write_document;

/// Notes and tasks.
const ITEMS: &str = "type Note = note[String]
type Task = task[String]
type Item = Note | Task
";

/// A proof over them, in the first format.
const NOTES_ARE_ITEMS: &str = "xduce-proof 1
goals 3
goal 1
left Note
right Item
case 1 note ? 1 c 2 r 3
goal 2
left String
right String
case 1 $ r 3
goal 3
left ()
right ()
empty 1
end
";

/// A proof of the same in the second format, between types that are no names.
const PROOF_OF_NOTES: &str = "xduce-proof 2
types 4
type 1 note[String]
type 2 Item
type 3 String
type 4 ()
goals 3
goal 1
left 1
right 2
case 1 note ? 1 c 2 r 3
goal 2
left 3
right 3
case 1 $ r 3
goal 3
left 4
right 4
empty 1
end
";

/// The goals of the first proof, in the second format.
const UPGRADED: &str = "xduce-proof 2
types 4
type 1 Note
type 2 Item
type 3 String
type 4 ()
goals 3
goal 1
left 1
right 2
case 1 note ? 1 c 2 r 3
goal 2
left 3
right 3
case 1 $ r 3
goal 3
left 4
right 4
empty 1
end
";

/// Of persons in a row, the names and telephone numbers of those that have one.
const TELEPHONES: &str = "type Name = name[String]
type Addr = addr[String]
type Tel = tel[String]
fun main (val x as (Name,Addr,Tel?)*) : (Name,Tel)* =
  match x with
    val n as Name, Addr, val t as Tel, val rest -> n, t, main(rest)
  | Name, Addr, val rest -> main(rest)
  | () -> ()
";

/// Two persons, of whom the first has a telephone.
const PERSONS: &str = "name[\"A\"],addr[\"B\"],tel[\"1\"],name[\"C\"],addr[\"D\"]";

#[test]
fn an_inclusion_has_a_proof(rt: HostRuntime) -> Result<(), Fail> {
    let mut store = Store::new(rt.alloc());
    match compare_texts(rt.alloc(), ITEMS, "note[String]", "Item", &mut store)? {
        Inclusion::Proved(proof) => assert_eq!(rt; proof.as_slice(), PROOF_OF_NOTES.as_bytes()),
        Inclusion::Separated(_) => assert!(rt; false),
    }
    Ok(())
}

#[test]
fn what_is_not_included_is_separated(rt: HostRuntime) -> Result<(), Fail> {
    let mut store = Store::new(rt.alloc());
    let mut text = Vec::new(rt.alloc());
    if let Inclusion::Separated(document) = compare_texts(
        rt.alloc(),
        ITEMS,
        "Item",
        "note[String]",
        &mut store,
    )? {
        write_document(rt.alloc(), &store, document, &mut text)?;
    }
    assert_eq!(rt; text.as_slice(), b"task[\"\"]".as_slice());
    Ok(())
}

#[test]
fn a_proof_has_a_claim_and_a_second_text(rt: HostRuntime) -> Result<(), Fail> {
    let proof = NOTES_ARE_ITEMS.as_bytes();
    let claim = proved_claim(rt.alloc(), ITEMS, proof)?;
    assert_eq!(rt; claim.as_slice(), b"accepted: Note <: Item".as_slice());
    let text = upgraded(rt.alloc(), ITEMS, proof)?;
    assert_eq!(rt; text.as_slice(), UPGRADED.as_bytes());
    Ok(())
}

#[test]
fn a_document_fits_or_not(rt: HostRuntime) -> Result<(), Fail> {
    let milk = fits(rt.alloc(), ITEMS, "Note", "note[\"milk\"]")?;
    let task = fits(rt.alloc(), ITEMS, "Note", "task[\"milk\"]")?;
    let empty = fits(rt.alloc(), ITEMS, "Note", "note[]")?;
    assert!(rt; milk);
    assert!(rt; !task);
    assert!(rt; !empty);
    Ok(())
}

#[test]
fn a_program_has_a_value(rt: HostRuntime) -> Result<(), Fail> {
    let made = value_of(rt.alloc(), TELEPHONES, PERSONS, 1000)?;
    assert_eq!(rt; made.text.as_slice(), b"name[\"A\"],tel[\"1\"]".as_slice());
    assert_eq!(rt; made.calls, 3);
    Ok(())
}
