//! Laws of the definitions, each the contract of a function that does nothing.
#![tactic(auto)]

ghost use Rattle.xd_laws.specs.Laws.{PatternsAreTypes, WaysSettle, FitsSettles, FitsIsWithinSome, HeadsDecide, EmptyDecides, HeadsSettle, FuelIsLeft, ConsistentProofsHold, ViolationsAreFound, RulesAreTested, ViolationIsOne, BindingsAgree, BindingsAreInOrder};
ghost use Rattle.xd_laws.specs.Safety.{ValuesAreAllowed, CallsAreSafe, AcceptedProgramsAreSafe};
ghost use Rattle.xd_laws.specs.LineSamples.{SampleLines};
ghost use Rattle.xd_laws.specs.SameLines.{LinesAreOne};
ghost use Rattle.xd_laws.specs.LeastLines.{SmallLinesAreLeast};
ghost use Rattle.xd_laws.specs.Scopes.{MoreIsAllowed, ScopesDecideMay, ScopesDecideLines};

/// In a sound program a pattern takes exactly the documents that fit it as a type.
pub fn patterns_are_types()
    ensures { PatternsAreTypes }
{}

/// In a sound program the unfoldings that the definitions allow are enough.
pub fn unfoldings_settle()
    ensures ways { WaysSettle }
    ensures fits { FitsSettles }
    ensures some { FitsIsWithinSome }
{}

/// The bindings of a first match in the order of its variables are those of its first way: the same
/// document for each variable, and of a linear pattern each variable once.
pub fn bindings_are_in_order()
    ensures agree { BindingsAgree }
    ensures order { BindingsAreInOrder }
{}

/// In a sound program the heads of a type say which documents fit it.
pub fn heads_decide()
    ensures items { HeadsDecide }
    ensures empty { EmptyDecides }
    ensures settle { HeadsSettle }
{}

/// A meaning that is done stays so with more fuel.
pub fn fuel_is_left()
    ensures { FuelIsLeft }
{}

/// A consistent proof of inclusions, over the types of a sound program, claims nothing that is
/// false.
pub fn consistent_proofs_hold()
    ensures { ConsistentProofsHold }
{}

/// A proof of inclusions is consistent exactly where it has no first violation of a rule, and it has
/// one at most.
pub fn violations_are_first()
    ensures found { ViolationsAreFound }
    ensures tested { RulesAreTested }
    ensures one { ViolationIsOne }
{}

/// An accepted program is never stuck, and its values are of the types that it declares.
pub fn accepted_programs_are_safe()
    ensures values { ValuesAreAllowed }
    ensures calls { CallsAreSafe }
    ensures programs { AcceptedProgramsAreSafe }
{}

/// What an expression may be, and its lines, rest on the proper documents that its scope allows,
/// and on nothing else of it.
pub fn scopes_decide()
    ensures more { MoreIsAllowed }
    ensures documents { ScopesDecideMay }
    ensures lines { ScopesDecideLines }
{}

/// A program has one list of faults of matches, arguments and results and of warnings, but for the
/// documents that they carry, and these have the same sizes.
pub fn lines_are_one()
    ensures { LinesAreOne }
{}

/// Whoever tells sizes apart below a limit alone knows the faults all the same, where the documents
/// that they carry are smaller.
pub fn small_lines_are_least()
    ensures { SmallLinesAreLeast }
{}

/// Sample programs have the faults of matches, arguments and results, and the warnings, that they
/// should have, and no others.
pub fn samples_have_lines()
    ensures { SampleLines }
{}
