//! The program `irtool`: formats, checks and counts texts of IR with the operations, types and attributes of the demo dialects and of
//! `arith`.
#![tactic(auto)]

mod dialects;

use crate::dialects::{All, AnyAttr, AnyType};
use std::process::ExitCode;

fn main(rt: HostRuntime) -> ExitCode {
    irtext_tool::host::main::<AnyType, AnyAttr, All>(&rt, "irtool", "0.1.0")
}
