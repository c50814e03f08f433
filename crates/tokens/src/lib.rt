// Policy text cut into tokens, and what each token stands for.
#![tactic(auto)]

mod lexer;
mod symbols;
mod tokens;

pub use lexer::Lexer;
pub use tokens::{Mark, Placed, Symbol, Token};
