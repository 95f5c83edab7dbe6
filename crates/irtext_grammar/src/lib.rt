//! Definitions over texts, contexts and formats, and proofs about them. *The grammar*: trees and how they are parsed, names and scopes,
//! graphs, and the text that is printed of them. *The parser's results*: what a text is to the parser, with the cause and place of each error:
//! to the parsers of tokens and pieces; of operations, blocks and regions, at any depth, with the actions that are performed as they are
//! parsed, what these do with names, and what they build; and of the section after a root. What is promised of a root, the proofs that all
//! agree with the grammar, and the round trip of every closed root: what is printed of it is parsed back. The only code here is the types
//! of what is parsed of an operation (`parsed`, `found`).
#![tactic(auto)]

pub mod found;
pub mod parsed;
