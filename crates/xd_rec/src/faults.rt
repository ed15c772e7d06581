//! Faults of recursion.

ghost use Rattle.std.specs.Prelude.{◌≡◌, ◌<◌, ◌++◌, ℕ, length, IfOk, OnOk};
ghost use Rattle.xd_sound.specs.Graph.{HasEdge};
ghost use Rattle.xd_sound.specs.TypeNames.{AreNumbered};
ghost use Rattle.xd_rec.specs.Faults.{AreOwned, AddsUse, IsGraphOf, faults_of, is_back, recurs, recursion_fault};

use crate::components::{Standing, are_together};
use crate::uses::TopUse;
use std::alloc::Global;
use xd_doc::NoMemory;
use xd_sound::{Graph, TypeNames};
use xd_syntax::{Fault, FaultKind, TypeDef};

/// The two ways in which a use may recur that are faults.
#[derive(Clone, Copy)]
pub(crate) enum Recursion {
    OutsideTail,
    Unguarded,
}

/// An edge for each use, or for each front use, from the definition that it stands in to the one
/// that it names.
pub(crate) fn use_graph(
    alloc: Global,
    defs: &[TypeDef],
    names: &TypeNames,
    uses: &[TopUse],
    front_only: bool,
) -> Result<Graph, NoMemory>
    requires numbered { AreNumbered names.now defs.now }
    requires owned { AreOwned defs.now uses.now }
    ensures { IfOk result (λ graph. IsGraphOf defs.now uses.now front_only graph) }
{
    let mut graph = Graph::new(alloc, defs.len())?;
    add_uses(defs, names, uses, front_only, &mut graph)?;
    Ok(graph)
}

fn add_uses(
    defs: &[TypeDef],
    names: &TypeNames,
    uses: &[TopUse],
    front_only: bool,
    graph: &mut Graph,
) -> Result<(), NoMemory>
    requires numbered { AreNumbered names.now defs.now }
    requires owned { AreOwned defs.now uses.now }
    requires count { length graph.old ≡ length defs.now }
    requires bare { (v w : ℕ) → HasEdge graph.old v w → ⊥ }
    ensures { OnOk result (IsGraphOf defs.now uses.now front_only graph.new) }
{
    for top_use in uses {
        add_use(defs, names, top_use, front_only, graph)?;
    }
    Ok(())
}

fn add_use(
    defs: &[TypeDef],
    names: &TypeNames,
    top_use: &TopUse,
    front_only: bool,
    graph: &mut Graph,
) -> Result<(), NoMemory>
    requires numbered { AreNumbered names.now defs.now }
    requires owner { top_use.now.owner < length graph.old }
    requires count { length graph.old ≡ length defs.now }
    ensures { OnOk result (AddsUse defs.now top_use.now front_only graph.old graph.new) }
{
    if front_only && !top_use.is_front {
        return Ok(());
    }
    if let Some(target) = names.find(&top_use.name) {
        graph.add(top_use.owner, target)?;
    }
    Ok(())
}

/// Adds the fault of each use that has it.
pub(crate) fn add_faults(
    defs: &[TypeDef],
    names: &TypeNames,
    uses: &[TopUse],
    standing: &[Standing],
    recursion: Recursion,
    faults: &mut Vec<Fault>,
) -> Result<(), NoMemory>
    requires numbered { AreNumbered names.now defs.now }
    requires owned { AreOwned defs.now uses.now }
    requires count { length standing.now ≡ length defs.now }
    ensures { OnOk result (faults.new.items ≡ faults.old.items ++ faults_of (recurs recursion defs.now standing.now) (recursion_fault recursion) uses.now) }
{
    for top_use in uses {
        if recurs(defs, names, top_use, standing, recursion) {
            faults.push(recursion_fault(top_use, recursion)?)?;
        }
    }
    Ok(())
}

fn recursion_fault(top_use: &TopUse, recursion: Recursion) -> Result<Fault, NoMemory>
    ensures { IfOk result (λ fault. fault ≡ recursion_fault recursion top_use.now) }
{
    let name = top_use.name.share()?;
    let kind = match recursion {
        Recursion::OutsideTail => FaultKind::NotTail(name),
        Recursion::Unguarded => FaultKind::Unguarded(name),
    };
    Ok(Fault {
        place: Some(top_use.place),
        kind,
    })
}

/// Whether a use outside tail position, or a front use, leads back to its definition.
fn recurs(
    defs: &[TypeDef],
    names: &TypeNames,
    top_use: &TopUse,
    standing: &[Standing],
    recursion: Recursion,
) -> bool
    requires numbered { AreNumbered names.now defs.now }
    requires owner { top_use.now.owner < length defs.now }
    requires count { length standing.now ≡ length defs.now }
    ensures { result ≡ recurs recursion defs.now standing.now top_use.now }
{
    let counts = match recursion {
        Recursion::OutsideTail => !top_use.is_tail,
        Recursion::Unguarded => top_use.is_front,
    };
    counts && leads_back(defs, names, top_use, standing)
}

/// Whether the definition that a use names is in the component of the one that it stands in.
fn leads_back(defs: &[TypeDef], names: &TypeNames, top_use: &TopUse, standing: &[Standing]) -> bool
    requires numbered { AreNumbered names.now defs.now }
    requires owner { top_use.now.owner < length defs.now }
    requires count { length standing.now ≡ length defs.now }
    ensures { result ≡ is_back defs.now standing.now top_use.now }
{
    let _count = defs.len();
    match names.find(&top_use.name) {
        Some(target) => are_together(standing, top_use.owner, target),
        None => false,
    }
}
