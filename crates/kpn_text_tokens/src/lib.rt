//! The tokens of a network description.
//!
//! A description is a text: names, numbers, marks and reserved words, with white space and comments between them. This
//! crate cuts the text into its tokens, or returns the first byte at which that fails. What the tokens mean together is
//! a matter for the grammar above. Of two languages the second has more marks, more reserved words and more ways to
//! write a number. `tokens` says what a token is and how it is spelled, `numerals` what those numbers are, `opening`
//! tells the language of a text, `lexer` cuts a text, and `laws` states what layers above rely on.
#![tactic(auto)]

mod laws;
mod lexer;
mod numerals;
mod opening;
mod tokens;

pub use laws::{
    decimal_is_spelled, empty_text_has_no_tokens, read_tokens_are_spelled, scan_follows_the_rules,
    short_text_is_scanned, spelled_token_is_read, tokens_keep_their_kind, white_space_is_dropped,
    white_space_separates,
};
pub use lexer::{LexFault, lexemes};
pub use opening::language_of;
pub use tokens::{Keyword, Language, Lexeme, MAX_NUMBER, Mark, Name, Number, Token};
