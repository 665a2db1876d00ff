//! Laws on the tokens of a file, as contracts.
ghost use Rattle.std.specs.Prelude.{◌≡◌, ◌⊎◌, ◌∷◌, ◌++◌, ◌-◌, ◌≤◌, ℕ, List, not, length, take, drop, count_by, None, true};
ghost use Rattle.std.specs.List.{flat_map, filter, filter_map, list_all, All, AllPairs};
ghost use Rattle.std.specs.Str.{is_utf8, encode_utf8_all};
ghost use Rattle.ato_base.specs.NameTable.{with_names};
ghost use Rattle.ato_base.specs.declared.faults.Fault.{Fault};
ghost use Rattle.ato_base.specs.declared.faults.Refusal.TheVariants as refusals;
ghost use Rattle.ato_base.specs.declared.places.FileId.{FileId};
ghost use Rattle.ato_base.specs.declared.tokens.Token.{Token};
ghost use Rattle.ato_frac.specs.Decimals.{RefusesText};
ghost use Rattle.ato_frac.specs.declared.faults.DecimalFault.TheVariants as decimal_faults;
ghost use Rattle.ato_lexer.specs.Fronts.{begins, three};
ghost use Rattle.ato_lexer.specs.Pieces.{Kind, Piece, is_bad, front_piece, pieces_of, pieces, bad_char, open_string};
ghost use Rattle.ato_lexer.specs.Spellings.{is_quote, Spells, IsCut};
ghost use Rattle.ato_lexer.specs.Lines.{Placed, is_token};
ghost use Rattle.ato_lexer.specs.Layout.{Item, start_of, stop_of, item_piece, is_indent, is_dedent};
ghost use Rattle.ato_lexer.specs.Tokens.{AreTokens, IsRefused, first_fault, items, names_in, pieces_in, tokens_of};
ghost use Rattle.ato_lexer.specs.WideNumbers.{is_wide};

/// A file has one list of tokens at most, and one table of names with them.
#[tactic(auto, using(crate::proofs::TokenLaws::one_list))]
pub fn one_list()
    ensures { (bytes : List ℕ) (file : FileId) (old new other : List (List ℕ)) (tokens others : List Token) → AreTokens bytes file old new tokens → AreTokens bytes file old other others → (other ≡ new) × (others ≡ tokens) }
{}

/// A file has one first fault at most.
#[tactic(auto, using(crate::proofs::TokenLaws::one_fault))]
pub fn one_fault()
    ensures { (bytes : List ℕ) (file : FileId) (f g : Fault) → IsRefused bytes file (refusals.Fault f) → IsRefused bytes file (refusals.Fault g) → f ≡ g }
{}

/// A file never has both tokens and a fault.
#[tactic(auto, using(crate::proofs::TokenLaws::never_both))]
pub fn never_both()
    ensures { (bytes : List ℕ) (file : FileId) (old new : List (List ℕ)) (tokens : List Token) (f : Fault) → AreTokens bytes file old new tokens → IsRefused bytes file (refusals.Fault f) → ⊥ }
{}

/// A file has tokens or a fault.
#[tactic(auto, using(crate::proofs::TokenLaws::has_one))]
pub fn has_one()
    ensures { (bytes : List ℕ) (file : FileId) (old : List (List ℕ)) → AreTokens bytes file old (with_names old (names_in bytes)) (tokens_of (with_names old (names_in bytes)) file bytes) ⊎ ((f : Fault) × IsRefused bytes file (refusals.Fault f)) }
{}

/// The pieces of a text are the whole text: nothing is left out, and nothing stands twice.
#[tactic(auto, using(crate::proofs::CoverLaws::covers))]
pub fn pieces_cover()
    ensures { (text : List ℕ) → flat_map (λ (p : Piece). p.text) (pieces text) ≡ text }
{}

/// Where no piece is a fault, the pieces are the text's cut into spellings, each the longest possible; and no other list of
/// pieces is such a cut.
#[tactic(auto, using(crate::proofs::CutLaws::longest_cut, crate::proofs::CutLaws::one_cut))]
pub fn pieces_are_longest()
    ensures cut { (text : List ℕ) → list_all (λ (p : Piece). not (is_bad p.kind)) (pieces_of text) ≡ true → IsCut text (pieces_of text) }
    ensures one { (text : List ℕ) (ps : List Piece) → IsCut text ps → pieces_of text ≡ ps }
{}

/// A character is bad only where no spelling begins with it.
#[tactic(auto, using(crate::proofs::CutLaws::nothing_begins))]
pub fn bad_char_begins_nothing()
    ensures { (c : ℕ) (cs : List ℕ) (k : Kind) (s after : List ℕ) → (front_piece c cs).kind ≡ bad_char → c ∷ cs ≡ s ++ after → Spells k s → ⊥ }
{}

/// A string is open only where a quote begins it, and no spelling stands there: but two quotes of three, which begin a triple
/// string.
#[tactic(auto, using(crate::proofs::CutLaws::open_begins))]
pub fn open_string_has_no_end()
    ensures quote { (c : ℕ) (cs : List ℕ) → (front_piece c cs).kind ≡ open_string → is_quote c ≡ true }
    ensures no_end { (c : ℕ) (cs : List ℕ) (k : Kind) (s after : List ℕ) → (front_piece c cs).kind ≡ open_string → c ∷ cs ≡ s ++ after → Spells k s → (length s ≡ 2) × (begins (three c) (c ∷ cs) ≡ true) }
{}

/// What stands in a file stands in the order of its places: so the first fault of it is the first one by its place.
#[tactic(auto, using(crate::proofs::OrderLaws::in_order))]
pub fn items_are_in_order()
    ensures { (bytes : List ℕ) → is_utf8 bytes ≡ true → AllPairs (λ (i j : Item). stop_of i ≤ start_of j) (items bytes) }
{}

/// The places of a file's tokens rise: each begins where the one before it ends, or later.
pub fn tokens_are_in_order()
    ensures { (bytes : List ℕ) (file : FileId) (names : List (List ℕ)) → is_utf8 bytes ≡ true → AllPairs (λ (s t : Token). s.at.end ≤ t.at.start) (tokens_of names file bytes) }
{}

/// Each piece of a file is spelled by the bytes between its places.
#[tactic(auto, using(crate::proofs::SliceLaws::slices))]
pub fn pieces_are_slices()
    ensures { (bytes : List ℕ) → is_utf8 bytes ≡ true → All (λ (p : Placed). take (p.end - p.start) (drop p.start bytes) ≡ encode_utf8_all p.piece.text) (pieces_in bytes) }
{}

/// Where a file has no fault, its tokens are its pieces that are no blanks, in their order, and what lies between two tokens is blank.
#[tactic(auto, using(crate::proofs::SliceLaws::tokens_are_pieces))]
pub fn tokens_are_pieces()
    ensures { (bytes : List ℕ) (file : FileId) → first_fault file bytes ≡ None → filter_map item_piece (items bytes) ≡ filter (λ (p : Placed). is_token p.piece.kind) (pieces_in bytes) }
{}

/// Each level that is opened is closed: a file without a fault has as many DEDENTs as INDENTs.
#[tactic(auto, using(crate::proofs::LevelLaws::balanced))]
pub fn levels_are_closed()
    ensures { (bytes : List ℕ) (file : FileId) → first_fault file bytes ≡ None → count_by is_indent (items bytes) ≡ count_by is_dedent (items bytes) }
{}

/// A number is wide exactly where a fraction refuses its text as wide.
#[tactic(auto, using(crate::proofs::WideLaws::wide_refused, crate::proofs::WideLaws::refused_wide))]
pub fn wide_is_refused()
    ensures refused { (text : List ℕ) → is_wide text ≡ true → RefusesText text decimal_faults.Wide }
    ensures wide { (text : List ℕ) → RefusesText text decimal_faults.Wide → is_wide text ≡ true }
{}
