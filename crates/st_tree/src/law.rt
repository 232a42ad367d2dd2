// To be the same but for places is an equivalence.
ghost use Rattle.st_tree.specs.Same.{IsSameness, SameBody, SameMethod, SameDefinition};

/// Bodies, methods and programs that are equal are the same, and to be the same is an
/// equivalence.
#[tactic(auto, using(crate::proofs::SameLaws::laws))]
pub fn same_is_an_equivalence()
    ensures bodies { IsSameness SameBody }
    ensures methods { IsSameness SameMethod }
    ensures definitions { IsSameness SameDefinition }
{}
