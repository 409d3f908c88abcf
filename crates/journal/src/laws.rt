//! What holds of all lists on a disk: how calls of a journal come together to those of a node.
ghost use Rattle.std.specs.Prelude.{◌≡◌, ◌<◌, ◌+◌, ◌++◌, ◌∷◌, [], ⊤, List, ℕ, length, Some};
ghost use Rattle.edge.specs.Disk.{KeepsImages};
ghost use Rattle.journal.specs.Laws.{NoPlace, OneList, OnePlace};
ghost use Rattle.journal.specs.Lists.{AddsNothing, EachBeginsWith, EachStandsFor, Extends, Grows, IsTied, MayAdd};
ghost use Rattle.journal.specs.State.{State};

use edge::Disk;

/// A law of the lists on a disk; it does nothing. Bytes stand for one list at most (this product's own).
pub fn bytes_stand_for_one_list()
    ensures { OneList }
{}

/// A law of bytes; it does nothing. Bytes that are no journal are none at one place alone, which a refusal names, and
/// bytes that stand for a list at no place (this product's own).
pub fn bytes_are_no_journal_at_one_place()
    ensures one { OnePlace }
    ensures none { NoPlace }
{}

/// Laws of appends; it does nothing. What several calls add is added in order, and where only the first entries were
/// added some of all of them were; each image goes on to stand for a list, and keeps its beginning (this product's own).
pub fn extensions_compose<D: Disk>()
    ensures go_on { (before between after : D) (added more : List (List ℕ)) (least : ℕ)
        → Extends (D.told_epoch before) (D.is_image before) (D.told_epoch between) (D.is_image between) added (length added)
        → Extends (D.told_epoch between) (D.is_image between) (D.told_epoch after) (D.is_image after) more least
        → Extends (D.told_epoch before) (D.is_image before) (D.told_epoch after) (D.is_image after) (added ++ more) (length added + least) }
    ensures of_more { (before after : D) (added more : List (List ℕ))
        → Extends (D.told_epoch before) (D.is_image before) (D.told_epoch after) (D.is_image after) added 0
        → Extends (D.told_epoch before) (D.is_image before) (D.told_epoch after) (D.is_image after) (added ++ more) 0 }
    ensures stand { (before after : D) (added : List (List ℕ)) (least : ℕ)
        → Extends (D.told_epoch before) (D.is_image before) (D.told_epoch after) (D.is_image after) added least
        → EachStandsFor (D.told_epoch after) (D.is_image after) (λ _. ⊤) }
    ensures beginnings { (before after : D) (added : List (List ℕ)) (least : ℕ) (list : List (List ℕ))
        → Extends (D.told_epoch before) (D.is_image before) (D.told_epoch after) (D.is_image after) added least
        → EachBeginsWith (D.told_epoch before) (D.is_image before) list → EachBeginsWith (D.told_epoch after) (D.is_image after) list }
{}

/// Laws of a call; it does nothing. A call that adds no entry adds none behind any list; an append at a journal that is tied
/// to the disk by a list adds its entry behind that list alone (this product's own).
pub fn entries_go_behind<D: Disk>()
    ensures nothing { (before after : D) → Extends (D.told_epoch before) (D.is_image before) (D.told_epoch after) (D.is_image after) [] 0
        → Grows (D.told_epoch before) (D.is_image before) (D.told_epoch after) (D.is_image after) AddsNothing }
    ensures entry { (before after : D) (journal : State) (list : List (List ℕ)) (payload : List ℕ)
        → IsTied journal (D.content before) (D.told_epoch before) (D.is_image before) list
        → ((e : ℕ) → D.told_epoch before ≡ Some e → journal.epoch < e → KeepsImages (D.is_image before) (D.is_image after))
        → D.told_epoch after ≡ D.told_epoch before
        → Extends (D.told_epoch before) (D.is_image before) (D.told_epoch after) (D.is_image after) (payload ∷ []) 0
        → Grows (D.told_epoch before) (D.is_image before) (D.told_epoch after) (D.is_image after) (MayAdd list payload) }
{}
