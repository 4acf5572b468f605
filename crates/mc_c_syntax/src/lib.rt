//! C text up to trees: its tokens, its syntax trees with the grammar that spells them, and tables of names.
//!
//! Stands on `mc_base`; called by the readers `mc_c_parse_expr` to `mc_c_parse` and `mc_def_parse`, typing, and the
//! meaning of programs.
//!
//! - `lex`: the tokens of a text, of programs and of definition files: names, numbers and marks, each with its place.
//! - `ast`: the trees of programs, and the grammar that says how they are spelled.
//! - `names`: lists of what has a name, in which the first place of a name is found by hash.
//! - `visible`: names in order, of which later ones hide earlier ones, and the last place of each found by hash.
#![tactic(auto)]

pub mod ast;
pub mod lex;
pub mod names;
pub mod visible;
