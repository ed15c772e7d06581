//! Moves of both kinds.

ghost use Rattle.std.specs.Prelude.{◌≡◌, Bool, List, true, IfOk};
ghost use Rattle.xd_auto.specs.declared.auto.State.{State as StateView};
ghost use Rattle.xd_boole.specs.declared.merging.Compared.{Compared as ComparedView};
ghost use Rattle.xd_boole.specs.Merging.{IsLikeLabel, IsLikeText};
ghost use Rattle.xd_boole.specs.Universal.{leads_all, text_leads_all};

use crate::merging::{Compared, are_same_words, is_like, is_same_class};
use crate::states::has_state;
use crate::universal::{has_all_labels, has_all_texts};
use xd_auto::{LabelMove, Move, State, TextMove};
use xd_doc::NoMemory;

/// What is done alike with moves on an element and moves on a text.
pub(crate) trait Step: Move + Drop {
    /// Whether it is for all names, and leads to some of these states.
    ghost leads_on: { List StateView → Self → Bool };

    /// Whether it is for the same names as another, and leads to states that are like each other.
    ghost alike: { List StateView → ComparedView → Self → Self → Type 0 };

    /// An equal move.
    fn share(&self) -> Result<Self, NoMemory>
        ensures { IfOk result (λ copy. copy ≡ self.now) };

    /// Whether it is for all names.
    fn has_all(&self) -> bool;

    fn leads_all(&self, states: &[State]) -> bool
        ensures { result ≡ leads_on states.now self.now };

    fn is_like(&self, same: &[State], compared: Compared, other: &Self) -> bool
        ensures { result ≡ true → alike same.now compared self.now other.now };
}

impl Step for LabelMove {
    ghost leads_on = { leads_all };

    ghost alike = { IsLikeLabel };

    fn share(&self) -> Result<Self, NoMemory> {
        Ok(LabelMove {
            class: self.class.share()?,
            content: self.content,
            rest: self.rest,
        })
    }

    fn has_all(&self) -> bool {
        has_all_labels(&self.class)
    }

    fn leads_all(&self, states: &[State]) -> bool {
        has_all_labels(&self.class)
            && has_state(states, self.content)
            && has_state(states, self.rest)
    }

    fn is_like(&self, same: &[State], compared: Compared, other: &Self) -> bool {
        if !is_like(same, compared, self.content, other.content) {
            return false;
        }
        if !is_like(same, compared, self.rest, other.rest) {
            return false;
        }
        is_same_class(&self.class, &other.class)
    }
}

impl Step for TextMove {
    ghost leads_on = { text_leads_all };

    ghost alike = { IsLikeText };

    fn share(&self) -> Result<Self, NoMemory> {
        Ok(TextMove {
            words: self.words.share()?,
            rest: self.rest,
        })
    }

    fn has_all(&self) -> bool {
        has_all_texts(&self.words)
    }

    fn leads_all(&self, states: &[State]) -> bool {
        has_all_texts(&self.words) && has_state(states, self.rest)
    }

    fn is_like(&self, same: &[State], compared: Compared, other: &Self) -> bool {
        if !is_like(same, compared, self.rest, other.rest) {
            return false;
        }
        are_same_words(&self.words, &other.words)
    }
}
