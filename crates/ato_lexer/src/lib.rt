//! Which tokens a source file has, or its first fault.
//!
//! `AreTokens` of specs/Tokens.antt says which tokens the bytes of a file have, and `IsRefused` which
//! fault stands where they have none. A text is cut into pieces (specs/Pieces.antt), the pieces between
//! line ends are its logical lines (specs/Lines.antt), and what stands before and behind these follows
//! from the list of their depths (specs/Layout.antt). The laws about these definitions are contracts of
//! functions without a body: a file has one list of tokens or one fault, and never both; each piece is the
//! longest possible (specs/Spellings.antt). `lex` scans the pieces one by one with the open levels and
//! brackets (specs/Walks.antt); that this puts what the logical lines do is proved.
#![tactic(auto)]

mod laws;
mod lexing;
mod numbers;
mod pieces;
mod putting;
mod scanning;
#[cfg(test)]
mod tests;

pub use laws::{
    bad_char_begins_nothing, has_one, items_are_in_order, levels_are_closed, never_both, one_fault,
    one_list, open_string_has_no_end, pieces_are_longest, pieces_are_slices, pieces_cover,
    tokens_are_in_order, tokens_are_pieces, wide_is_refused,
};
pub use lexing::lex;
