//! Numbers of types: equal types have one.

ghost use Rattle.std.specs.Prelude.{◌≡◌, ◌++◌, [], List, ℕ, IfOk, OnOk, length};
ghost use Rattle.std.specs.Str.{bytes_eq};
ghost use Rattle.xd_syntax.specs.Types.{BelongsTo};
ghost use Rattle.xd_proof_write.specs.SecondText.{number_among};
ghost use Rattle.xd_proof_write.specs.Written.{texts_in, with_text, text_at, KnowsNumbers, type_line, type_lines};
ghost use Rattle.xd_syntax.specs.Table.{Row};

use indexmap::IndexSet;
use itoa::Buffer;
use std::alloc::Global;
use std::collections::HashMap;
use xd_doc::NoMemory;
use xd_syntax::{TypeId, Types};
use xd_type_text::type_text;

/// The canonical texts of types, each once, in order of first occurrence: a type's number is that
/// of its text, from 1.
#[derive(Drop)]
pub(crate) struct Numbers {
    alloc: Global,
    texts: IndexSet<Vec<u8>>,
    /// The numbers of the nodes that were asked for, so that a node is written once.
    known: HashMap<usize, u64>,
}

impl Numbers {
    pub(crate) fn new(alloc: Global) -> Self
        ensures none { texts_in result ≡ [] }
        ensures knows { (rows : List Row) → KnowsNumbers rows result }
    {
        Self {
            alloc,
            texts: IndexSet::new(alloc),
            known: HashMap::new(alloc),
        }
    }

    /// How many types there are.
    pub(crate) fn len(&self) -> usize
        ensures { result ≡ length (texts_in self.now) }
    {
        self.texts.len()
    }

    /// The number of a type.
    pub(crate) fn number(&mut self, types: &Types, id: TypeId) -> Result<u64, NoMemory>
        requires belongs { BelongsTo types.now id }
        requires knows { KnowsNumbers types.now self.old }
        ensures number { IfOk result (λ m. (more : List (List ℕ)) → number_among bytes_eq (texts_in self.new ++ more) (text_at types.now id) ≡ m) }
        ensures texts { OnOk result (texts_in self.new ≡ with_text (texts_in self.old) (text_at types.now id)) }
        ensures knows { OnOk result (KnowsNumbers types.now self.new) }
    {
        if let Some(number) = self.known.get(&id.at()) {
            return Ok(*number);
        }
        let number = self.put(types, id)?;
        self.known.insert(id.at(), number)?;
        Ok(number)
    }

    /// The number of the text of a type, which is added if it is new.
    fn put(&mut self, types: &Types, id: TypeId) -> Result<u64, NoMemory>
        requires { BelongsTo types.now id }
        ensures number { IfOk result (λ m. (more : List (List ℕ)) → number_among bytes_eq (texts_in self.new ++ more) (text_at types.now id) ≡ m) }
        ensures texts { OnOk result (texts_in self.new ≡ with_text (texts_in self.old) (text_at types.now id)) }
        ensures known { self.new.known ≡ self.old.known }
    {
        let mut text = Vec::new(self.alloc);
        type_text(self.alloc, types, id, &mut text)?;
        let (index, _) = self.texts.insert_full(text)?;
        let _count = self.texts.len();
        Ok(index as u64 + 1)
    }

    /// Appends the lines of the types.
    pub(crate) fn write_types(&self, out: &mut Vec<u8>) -> Result<(), NoMemory>
        ensures { OnOk result (out.new.items ≡ out.old.items ++ type_lines 1 (texts_in self.now)) }
    {
        let texts = self.texts.as_slice();
        for (i, text) in texts.iter().enumerate() {
            write_type_line(i as u64 + 1, text, out)?;
        }
        Ok(())
    }
}

fn write_type_line(number: u64, text: &[u8], out: &mut Vec<u8>) -> Result<(), NoMemory>
    ensures { OnOk result (out.new.items ≡ out.old.items ++ type_line number text.now) }
{
    let mut digits = Buffer::new();
    out.extend_from_slice(b"type ")?;
    out.extend_from_slice(digits.format(number).as_bytes())?;
    out.push(b' ')?;
    out.extend_from_slice(text)?;
    out.push(b'\n')?;
    Ok(())
}
