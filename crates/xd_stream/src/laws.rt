//! Laws of where bytes stop, and of what they spell.

ghost use Rattle.xd_stream.specs.Laws.{AcceptedNeverStops, SpelledIsProper, StopsOnce};

/// The laws of stops, and that what bytes spell is a proper document. They hold of the definitions
/// alone, and the call does nothing.
pub fn stopping_laws()
    ensures once { StopsOnce }
    ensures never { AcceptedNeverStops }
    ensures proper { SpelledIsProper }
{}
