//! Programs: definitions of types and functions, over the nodes that they are made of.

ghost use Rattle.std.specs.Prelude.{◌≡◌, ◌+◌, ◌^◌, ◌<◌, ◌≤◌, true, false, length, IfOk, OnOk, OnErr};
ghost use Rattle.std.specs.List.{AllByRecursion};
ghost use Rattle.xd_doc.specs.Word.{is_word};
ghost use Rattle.xd_syntax.specs.Table.{CanFollow, form_tree, tree_at};
ghost use Rattle.xd_syntax.specs.Types.{form_of};
ghost use Rattle.xd_syntax.specs.Kept.{ProgramTable, ProgramStands, AddsTypes, program_tree};
ghost use Rattle.xd_syntax.specs.FunctionRow.{HasProperNames};
ghost use Rattle.xd_syntax.specs.Proper.{IsProperProgram};
ghost use Rattle.xd_syntax.specs.SoundTables.{IsTypeAt};
ghost use Rattle.xd_syntax.specs.ShallowTables.{AddsOne};

use crate::copies::{Copied, copied_rows};
use crate::exprs::{ExprId, Exprs};
use crate::patterns::Patterns;
use crate::types::{TypeDef, TypeForm, TypeId, Types};
use std::alloc::Global;
use std::marker::Model;
use xd_base::Place;
use xd_doc::{Label, NoMemory};

/// A parameter: its name, the place of the name, and its declared type.
#[derive(Drop)]
pub struct Param {
    pub name: Label,
    pub place: Place,
    pub body: TypeId,
}

/// A function. It has one or more parameters.
#[derive(Drop)]
pub struct Function {
    name: Label,
    place: Place,
    params: Vec<Param>,
    result: TypeId,
    body: ExprId,
}

impl Model for Function {
    ghost use Rattle.std.specs.Prelude.{◌≤◌, length};
    ghost use Rattle.xd_syntax.specs.FunctionRow.{FunctionRow, HasProperNames};

    ghost Value = { FunctionRow };

    ghost view = { λ f. record { name = f.name; place = f.place; params = f.params.items; declared = f.result; body = f.body } };

    ghost invariant = { λ f. (1 ≤ length f.params.items) × HasProperNames (record { name = f.name; place = f.place; params = f.params.items; declared = f.result; body = f.body }) };
}

/// A program as it was read.
#[derive(Drop)]
pub struct Program {
    types: Types,
    patterns: Patterns,
    exprs: Exprs,
    type_defs: Vec<TypeDef>,
    functions: Vec<Function>,
}

impl Model for Program {
    ghost use Rattle.xd_syntax.specs.Kept.{ProgramTable, IsKept};

    ghost Value = { ProgramTable };

    ghost view = { λ p. record { types = p.types; patterns = p.patterns; exprs = p.exprs; type_defs = p.type_defs.items; functions = p.functions.items } };

    ghost invariant = { λ p. IsKept (record { types = p.types; patterns = p.patterns; exprs = p.exprs; type_defs = p.type_defs.items; functions = p.functions.items }) };
}

impl Function {
    /// A function of these parts. It has a parameter at least.
    pub fn new(
        name: Label,
        place: Place,
        params: Vec<Param>,
        result_type: TypeId,
        body: ExprId,
    ) -> Self
        requires { 1 ≤ length params.items }
        ensures { result ≡ record { name = name; place = place; params = params.items; declared = result_type; body = body } }
    {
        let _word = name.as_str();
        see_parameters(&params);
        Self {
            name,
            place,
            params,
            result: result_type,
            body,
        }
    }

    /// What is so of the names of every function.
    fn see_names(&self)
        ensures { HasProperNames self.now }
    {
        let _name = &self.name;
    }

    /// The name.
    pub fn name(&self) -> &Label
        ensures { result.now ≡ self.now.name }
    {
        &self.name
    }

    /// The place of the name.
    pub fn place(&self) -> Place
        ensures { result ≡ self.now.place }
    {
        self.place
    }

    /// The parameters in order. There is one at least.
    pub fn params(&self) -> &[Param]
        ensures params { result.now ≡ self.now.params }
        ensures some { 1 ≤ length self.now.params }
    {
        self.params.as_slice()
    }

    /// The declared type of the result.
    pub fn result_type(&self) -> TypeId
        ensures { result ≡ self.now.declared }
    {
        self.result
    }

    /// The body, an expression of the function's program.
    pub fn body(&self) -> ExprId
        ensures { result ≡ self.now.body }
    {
        self.body
    }
}

impl Copied for Param {
    fn copied(&self, _alloc: Global) -> Result<Self, NoMemory> {
        let name = self.name.share()?;
        Ok(Self {
            name,
            place: self.place,
            body: self.body,
        })
    }
}

impl Copied for Function {
    fn copied(&self, alloc: Global) -> Result<Self, NoMemory> {
        let name = self.name.share()?;
        let params = copied_rows(alloc, &self.params)?;
        Ok(Self {
            name,
            place: self.place,
            params,
            result: self.result,
            body: self.body,
        })
    }
}

impl Program {
    /// A program of these tables. Each number in a definition, a function or an expression is that
    /// of a node there, and no definition's name is a keyword.
    pub fn new(
        types: Types,
        patterns: Patterns,
        exprs: Exprs,
        type_defs: Vec<TypeDef>,
        functions: Vec<Function>,
    ) -> Self
        requires { ProgramStands (record { types = types; patterns = patterns; exprs = exprs; type_defs = type_defs.items; functions = functions.items }) }
        ensures { result ≡ record { types = types; patterns = patterns; exprs = exprs; type_defs = type_defs.items; functions = functions.items } }
    {
        types.see_table();
        patterns.see_table();
        exprs.see_table();
        see_definitions(&type_defs);
        see_functions(&functions);
        Self {
            types,
            patterns,
            exprs,
            type_defs,
            functions,
        }
    }

    /// Its words are words, its texts have characters that UTF-8 can spell, and its classes are as
    /// they are built. The call does nothing; its contract is the law.
    pub fn see_program(&self)
        ensures { IsProperProgram (program_tree self.now) }
    {
        let _types = &self.types;
    }

    /// An equal program, with the same numbers of nodes. Fails only where memory is refused; this
    /// program is only read, so it stays as it is.
    pub fn copy(&self, alloc: Global) -> Result<Self, NoMemory>
        ensures { IfOk result (λ made. made ≡ self.now) }
    {
        Ok(Self {
            types: self.types.copy(alloc)?,
            patterns: self.patterns.copy(alloc)?,
            exprs: self.exprs.copy(alloc)?,
            type_defs: copied_rows(alloc, &self.type_defs)?,
            functions: copied_rows(alloc, &self.functions)?,
        })
    }

    /// The nodes of types.
    pub fn types(&self) -> &Types
        ensures types { result.now ≡ self.now.types }
        ensures stands { ProgramStands self.now }
    {
        &self.types
    }

    /// The nodes of patterns.
    pub fn patterns(&self) -> &Patterns
        ensures patterns { result.now ≡ self.now.patterns }
        ensures stands { ProgramStands self.now }
    {
        &self.patterns
    }

    /// The nodes of expressions.
    pub fn exprs(&self) -> &Exprs
        ensures exprs { result.now ≡ self.now.exprs }
        ensures stands { ProgramStands self.now }
    {
        &self.exprs
    }

    /// The definitions of types, in the order of the text.
    pub fn type_defs(&self) -> &[TypeDef]
        ensures type_defs { result.now ≡ self.now.type_defs }
        ensures stands { ProgramStands self.now }
    {
        self.type_defs.as_slice()
    }

    /// The functions, in the order of the text.
    pub fn functions(&self) -> &[Function]
        ensures functions { result.now ≡ self.now.functions }
        ensures stands { ProgramStands self.now }
    {
        self.functions.as_slice()
    }

    /// One more node of a type. No text has it, so its place is the first of one. Its parts stand
    /// before it. Fails only where memory is refused; the program is as it was then.
    pub fn add_type(&mut self, form: TypeForm) -> Result<TypeId, NoMemory>
        requires { CanFollow false self.old.types (form_of form) }
        ensures ok { IfOk result (IsTypeAt self.new.types (form_tree (tree_at self.old.types) (form_of form))) }
        ensures last { IfOk result (λ id. id.at ≡ length self.old.types) }
        ensures adds { AddsTypes self.old self.new }
        ensures same { program_tree self.new ≡ program_tree self.old }
        ensures one { AddsOne (form_tree (tree_at self.old.types) (form_of form)) self.old.types self.new.types }
        ensures err { OnErr result (self.new ≡ self.old) }
    {
        let added = self.types.add(Place { line: 1, column: 1 }, form);
        self.types.see_table();
        added
    }
}

/// Each parameter's name is a word. The walk is for the proof alone, as those below.
fn see_parameters(params: &[Param])
    ensures { AllByRecursion (λ q. is_word q.name ≡ true) params.now }
{
    for param in params {
        let _word = param.name.as_str();
    }
}

fn see_definitions(defs: &[TypeDef])
    ensures { AllByRecursion (λ d. is_word d.name ≡ true) defs.now }
{
    for def in defs {
        let _word = def.name.as_str();
    }
}

fn see_functions(functions: &[Function])
    ensures { AllByRecursion HasProperNames functions.now }
{
    for function in functions {
        function.see_names();
    }
}
