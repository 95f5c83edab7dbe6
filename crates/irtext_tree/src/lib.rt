//! Types and attributes that hold types and attributes, to any depth. A tree is the row of its heads, in the order of its text, and a grammar
//! says what comes after each head: `my.list <my.ptr, my.array <4, my.ptr>>` has the heads `my.list <`, `my.ptr`, `, `, `my.array <4, `,
//! `my.ptr`, `>`, `>`. So parsing is one loop, printing another, and nothing recurses.
//!
//! - `waits`: what comes after the text of one head (`Waits`).
//! - `grammar`: how one head is parsed and printed (`Grows`, `Grammar`), and what lets trees be in one context with others and be attributes
//!   (`LedGrammar`, `AttrGrammar`).
//! - `marks`: heads that are fixed texts, such as `>`, and how lists begin and go on.
//! - `tree`, `heads`: the trees of a grammar (`Tree`).
//! - `build`: trees that are built of heads and of other trees (`TreeBuilder`).
//! - `views`: the trees that a tree holds, without a copy (`SubTree`, `Children`).
//! - `grown`: how trees are parsed and printed.
//! - `attributes`: trees as attributes.
//! - `places`, `pair`: two grammars as one, whose trees hold those of both.
//! - `leaves`: a family whose values hold no others, as a grammar.
#![tactic(auto)]

pub mod attributes;
pub mod build;
pub mod grammar;
pub mod grown;
pub mod heads;
pub mod leaves;
pub mod marks;
pub mod pair;
pub mod places;
pub mod tree;
pub mod views;
pub mod waits;

pub use build::TreeBuilder;
pub use grammar::{AttrGrammar, Grammar, Grows, LedGrammar};
pub use places::{Leaf, Places};
pub use tree::Tree;
pub use views::{Children, SubTree};
pub use waits::Waits;
