//! Marks, found by their moves.

ghost use Rattle.std.specs.Prelude.{◌≡◌, ℕ, ◌<◌, ◌++◌, ◌∷◌, ◌&&◌, [], List, cond, length, nat_eq, IfOk, OnOk};
ghost use Rattle.std.specs.List.{All};
ghost use Rattle.xd_auto.specs.declared.auto.State.{State};
ghost use Rattle.xd_auto.specs.Automaton.{IsState, state_number};
ghost use Rattle.xd_auto.specs.declared.kind.MoveKind.{MoveKind};
ghost use Rattle.xd_bind.specs.Owning.{is_owned};
ghost use Rattle.xd_bind.specs.Projection.{has_track, is_track};
ghost use Rattle.xd_given.specs.Buckets.{bucket_at, tracks_at};

use std::alloc::Global;
use std::collections::HashMap;
use xd_auto::{Auto, State};
use xd_bind::{Holds, MoveKind, Track};
use xd_doc::NoMemory;

/// The marks of each state, by the number of the move.
#[derive(Debug, Drop)]
pub(crate) struct Marks {
    rows: Vec<HashMap<usize, Vec<Track>>>,
}

/// Whether a track says that the move belongs to the variable.
fn is_track(track: &Track, variable: usize, kind: MoveKind, state: State, number: usize) -> bool
    ensures { result ≡ is_track variable kind state number track.now }
{
    track.kind == kind
        && state.number() == track.state.number()
        && track.number == number
        && track.variable == variable
}

/// Puts a mark after those of its number.
fn put(row: &mut HashMap<usize, Vec<Track>>, alloc: Global, track: Track) -> Result<(), NoMemory>
    ensures { OnOk result ((n : ℕ) → tracks_at row.new n ≡ cond (nat_eq track.number n) (tracks_at row.old n ++ track ∷ []) (tracks_at row.old n)) }
{
    match row.get_mut(&track.number) {
        Some(tracks) => {
            tracks.push(track)?;
            Ok(())
        }
        None => {
            let tracks = vec![in alloc; track]?;
            row.insert(track.number, tracks)?;
            Ok(())
        }
    }
}

/// Puts a mark after those of its state and number.
fn put_in(
    rows: &mut Vec<HashMap<usize, Vec<Track>>>,
    alloc: Global,
    track: Track,
) -> Result<(), NoMemory>
    requires { state_number track.state < length rows.old.items }
    ensures len { length rows.new.items ≡ length rows.old.items }
    ensures put { OnOk result ((s : State) (n : ℕ) → bucket_at rows.new.items s n ≡ cond (nat_eq (state_number s) (state_number track.state) && nat_eq track.number n) (bucket_at rows.old.items s n ++ track ∷ []) (bucket_at rows.old.items s n)) }
{
    let row = &mut rows[track.state.number()];
    put(row, alloc, track)?;
    Ok(())
}

/// Whether one of these says that the move belongs to the variable.
fn some_is(tracks: &[Track], variable: usize, kind: MoveKind, state: State, number: usize) -> bool
    ensures { result ≡ has_track tracks.now variable kind state number }
{
    for track in tracks {
        if is_track(track, variable, kind, state, number) {
            return true;
        }
    }
    false
}

impl Marks {
    /// These marks of an automaton's moves.
    pub(crate) fn new(alloc: Global, auto: &Auto, marks: &[Track]) -> Result<Self, NoMemory>
        requires { All (λ t. IsState auto.now t.state) marks.now }
        ensures { IfOk result (λ made. (x : ℕ) (kind : MoveKind) (s : State) (n : ℕ) → has_track (bucket_at made.rows.items s n) x kind s n ≡ has_track marks.now x kind s n) }
    {
        let mut rows = Vec::new(alloc);
        for _ in 0..auto.len() {
            rows.push(HashMap::new(alloc))?;
        }
        for track in marks {
            put_in(&mut rows, alloc, *track)?;
        }
        Ok(Self { rows })
    }
}

impl Holds for Marks {
    ghost use Rattle.xd_given.specs.Buckets.{owned_in};

    ghost owned = { λ m. owned_in m.rows.items };

    fn holds(&self, state: State, kind: MoveKind, number: usize, variable: usize) -> bool {
        match self.rows.get(state.number()) {
            Some(row) => match row.get(&number) {
                Some(tracks) => some_is(tracks, variable, kind, state, number),
                None => false,
            },
            None => false,
        }
    }
}
