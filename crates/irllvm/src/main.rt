//! The program `irllvm`: formats, checks and counts texts of IR with the operations, types and attributes of the demo dialects and of
//! `llvm`.
#![tactic(auto)]

mod dialects;

use crate::dialects::{All, AnyAttr, AnyType};
use std::process::ExitCode;

fn main(rt: HostRuntime) -> ExitCode {
    irtext_tool::host::main::<AnyType, AnyAttr, All>(&rt, "irllvm", "0.1.0")
}
