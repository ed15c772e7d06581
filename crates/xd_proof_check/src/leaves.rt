//! Leaves of choice trees.

ghost use Rattle.std.specs.Prelude.{◌≡◌, ◌<◌, ℕ, List, length};
ghost use Rattle.std.specs.List.{AllByRecursion, list_all};
ghost use Rattle.std.specs.Option.{option_copied};
ghost use Rattle.xd_rules.specs.Rules.{numbered};
ghost use Rattle.xd_proof_check.specs.Leaves.{GoalsBelong, is_among, leaf_numbered};
ghost use Rattle.xd_moves.specs.Codes.{number_at};
ghost use Rattle.xd_proof_check.specs.Paths.{AreCounts};
ghost use Rattle.xd_syntax.specs.declared.types.TypeId.{TypeId};

use xd_proof::ProofGoal;
use xd_syntax::TypeId;

/// The item with this number, from 1.
pub(crate) fn numbered<T>(items: &[T], number: u64) -> Option<&T>
    ensures { option_copied result ≡ numbered items.now number }
{
    if number == 0 {
        return None;
    }
    items.get((number - 1) as usize)
}

/// Whether the goal with this number settles what has the number `left`, by types of which each is
/// counted.
///
/// Takes time linear in the goal's rights.
pub(crate) fn leaf_stands(
    goals: &[ProofGoal],
    numbers: &[usize],
    number: u64,
    left: usize,
    counts: &[usize],
) -> bool
    requires belong { GoalsBelong (length numbers.now) goals.now }
    requires room { (i : ℕ) → number_at numbers.now i < length counts.now }
    ensures { (ns : List ℕ) → AreCounts counts.now ns → result ≡ leaf_numbered numbers.now left ns (numbered goals.now number) }
{
    let Some(goal) = numbered(goals, number) else {
        return false;
    };
    numbers[goal.left.at()] == left && rights_stand(&goal.rights, numbers, counts)
}

/// Whether each of these types is counted.
fn rights_stand(rights: &[TypeId], numbers: &[usize], counts: &[usize]) -> bool
    requires belong { AllByRecursion (λ (id : TypeId). id.at < length numbers.now) rights.now }
    requires room { (i : ℕ) → number_at numbers.now i < length counts.now }
    ensures { (ns : List ℕ) → AreCounts counts.now ns → result ≡ list_all (λ (id : TypeId). is_among ns (number_at numbers.now id.at)) rights.now }
{
    for id in rights {
        if counts[numbers[id.at()]] == 0 {
            return false;
        }
    }
    true
}
