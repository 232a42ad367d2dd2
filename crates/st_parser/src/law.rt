// Laws of the grammar.
ghost use Rattle.std.specs.Prelude.{◌≡◌, ◌↔◌, ◌⊎◌, ℕ, List, Some, Option, length};
ghost use Rattle.st_base.specs.declared.faults.Reason.{Reason};
ghost use Rattle.st_base.specs.declared.tokens.LexFault.{LexFault};
ghost use Rattle.st_base.specs.declared.tokens.Token.{Token};
ghost use Rattle.st_parser.specs.Machine.{State, parse, run, start};
ghost use Rattle.st_tree.specs.Faults.{CanStand, IsFault, IsTree, depth};
ghost use Rattle.st_tree.specs.Grammar.{Derives, Production, Tree};
ghost use Rattle.st_tree.specs.Symbols.{Sym};

/// A list of tokens has at most one tree, as a method and as a body.
#[tactic(auto, using(crate::proofs::Verdicts::one_tree))]
pub fn each_list_has_one_tree_at_most()
    ensures { (p : Production) (a : List Sym) (t u : Tree) → Derives p a t → Derives p a u → t ≡ u }
{}

/// A text has either its tree or one first fault, with one byte and one reason.
#[tactic(auto, using(crate::proofs::Verdicts::laws))]
pub fn each_text_has_a_tree_or_one_fault()
    ensures either { (p : Production) (text : List ℕ) (tokens : List Token) (lexical : Option LexFault) → ((tree : Tree) × IsTree p text tokens lexical tree) ⊎ ((byte : ℕ) × (why : Reason) × IsFault p text tokens lexical byte why) }
    ensures not_both { (p : Production) (text : List ℕ) (tokens : List Token) (lexical : Option LexFault) (tree : Tree) (byte : ℕ) (why : Reason) → IsTree p text tokens lexical tree → IsFault p text tokens lexical byte why → ⊥ }
    ensures one_fault { (p : Production) (text : List ℕ) (tokens : List Token) (lexical : Option LexFault) (b c : ℕ) (r q : Reason) → IsFault p text tokens lexical b r → IsFault p text tokens lexical c q → (b ≡ c) × (r ≡ q) }
{}

/// The machine reads exactly what the grammar derives, and refuses a token exactly where no list that
/// begins so derives. Behind tokens that it takes, as many frames wait as are open of `#(`, `(`, `[`.
#[tactic(auto, using(crate::proofs::Verdicts::machine_laws))]
pub fn the_machine_reads_the_grammar()
    ensures trees { (p : Production) (a : List Sym) (tree : Tree) → Derives p a tree ↔ (parse (start p) a ≡ Some tree) }
    ensures fronts { (p : Production) (a : List Sym) → CanStand p a ↔ ((s : State) × (run (start p) a ≡ Some s)) }
    ensures frames { (p : Production) (a : List Sym) (s : State) → run (start p) a ≡ Some s → length s.1 ≡ depth 0 a }
{}
