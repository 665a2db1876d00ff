//! Laws on the trees and faults of tokens, as contracts.
ghost use Rattle.std.specs.Prelude.{◌≡◌, ◌⊎◌, ◌∷◌, ◌++◌, ◌≤◌, ℕ, Some, is_some, map, true};
ghost use Rattle.ato_base.specs.declared.faults.Fault.{Fault};
ghost use Rattle.ato_base.specs.declared.tokens.Token.{Token};
ghost use Rattle.ato_ast.specs.FileKinds.{file_kinds};
ghost use Rattle.ato_ast.specs.declared.blocks.File.{File};
ghost use Rattle.ato_parser.specs.Faults.{IsFault, IsTooDeep, IsTree, deepest};
ghost use Rattle.ato_parser.specs.Files.{FileFront, IsFile};
ghost use Rattle.ato_parser.specs.Nesting.{left_to_open};
ghost use Rattle.ato_parser.specs.Tokens.{EndsOnce, Tokens};

/// Tokens have one tree at most.
pub fn one_tree()
    ensures { (tokens : Tokens) (f g : File) → IsTree tokens f → IsTree tokens g → f ≡ g }
{}

/// Tokens have one first fault at most.
pub fn one_fault()
    ensures { (tokens : Tokens) (f g : Fault) → IsFault tokens f → IsFault tokens g → f ≡ g }
{}

/// Tokens never have both a tree and a fault.
pub fn never_both()
    ensures { (tokens : Tokens) (f : File) (g : Fault) → IsTree tokens f → IsFault tokens g → ⊥ }
{}

/// Tokens have a tree or a fault, where END is the last of them and no other one is.
pub fn has_one()
    ensures { (tokens : Tokens) → EndsOnce tokens → ((f : File) × IsTree tokens f) ⊎ ((f : Fault) × IsFault tokens f) }
{}

/// A tree is written out as the kinds of its tokens.
pub fn trees_are_their_tokens()
    ensures { (depth : ℕ) (f : File) (tokens : Tokens) → IsFile depth f tokens → file_kinds f ≡ map (λ (t : Token). t.kind) tokens }
{}

/// What the tokens of a file begin with is a front, and so is what a front begins with.
pub fn fronts_begin()
    ensures whole { (depth : ℕ) (f : File) (tokens : Tokens) → IsFile depth f tokens → FileFront depth tokens }
    ensures begins { (depth : ℕ) (tokens more : Tokens) → FileFront depth (tokens ++ more) → FileFront depth tokens }
{}

/// Each front goes on to the tokens of a file.
pub fn fronts_go_on()
    ensures { (depth : ℕ) (tokens : Tokens) → FileFront depth tokens → (f : File) × (more : Tokens) × IsFile depth f (tokens ++ more) }
{}

/// What is a file, or begins one, with parentheses at most so many deep inside each other, is one where more may stand.
pub fn deeper_is_more()
    ensures files { (few many : ℕ) (f : File) (tokens : Tokens) → few ≤ many → IsFile few f tokens → IsFile many f tokens }
    ensures fronts { (few many : ℕ) (tokens : Tokens) → few ≤ many → FileFront few tokens → FileFront many tokens }
{}

/// In a front no more parentheses are open at once than may stand inside each other. What is a file, or begins one, where many may stand
/// inside each other, is so where few may, if no more than few are open at once.
pub fn fronts_have_room()
    ensures kept { (depth : ℕ) (tokens : Tokens) → FileFront depth tokens → is_some (left_to_open (Some depth) tokens) ≡ true }
    ensures enough { (few many : ℕ) (tokens : Tokens) → FileFront many tokens → is_some (left_to_open (Some few) tokens) ≡ true → FileFront few tokens }
    ensures files { (few many : ℕ) (f : File) (tokens : Tokens) → IsFile many f tokens → is_some (left_to_open (Some few) tokens) ≡ true → IsFile few f tokens }
{}

/// In front of a parenthesis that is too deep, as many are open as may stand inside each other.
pub fn all_are_open()
    ensures { (tokens : Tokens) (bad : Token) (f : IsTooDeep tokens bad) → left_to_open (Some deepest) f.first.front ≡ Some 0 }
{}
