// The laws of the split and of what a writer writes.
ghost use Rattle.std.specs.Prelude.{◌≡◌, ◌↔◌, ℕ, List, [], ◌∷◌, true};
ghost use Rattle.sif_chunks.specs.Split.{Split, parts_of};
ghost use Rattle.sif_chunks.specs.Writing.{all_closed, on_new_lines};

/// Each input has exactly one split into texts and a rest, and these are its parts.
pub fn each_input_splits_once()
    ensures { (bytes : List ℕ) (texts : List (List ℕ)) (rest : List ℕ) → Split bytes texts rest ↔ (parts_of true bytes ≡ record { texts = texts; rest = rest }) }
{}

/// What a writer wrote for texts, at least one, is split into these texts, each but the first
/// behind a byte 10, and a rest of byte 10.
pub fn written_texts_are_split()
    ensures { (text : List ℕ) (texts : List (List ℕ)) → Split (all_closed (text ∷ texts)) (text ∷ on_new_lines texts) (10 ∷ []) }
{}
