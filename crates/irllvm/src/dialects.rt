//! The dialects of the program: the demo dialects and `llvm` in one context, with their types, attributes and operations.
ghost use Rattle.std.specs.Prelude.{refl};
ghost use Rattle.irtext_demo.specs.DemoDialects.{demo_operations, with_all as with_demo};
ghost use Rattle.irtext_llvm.specs.Operations.{llvm_operations, with_all};

use irtext_demo::dialects::register_demo;
use irtext_demo::{DemoAttr, DemoType};
use irtext_formatter::dialects::Dialects;
use irtext_llvm::types::{LlvmTypeHead, LlvmTypePlace};
use irtext_llvm::{LlvmAttr, register_llvm};
use irtext_tree::{Leaf, Places, Tree};
use pliron_text::base::Context;
use pliron_text::result::Result;
use pliron_text::text::{Apart, Either};

/// Says that no word is in both dialects.
pub struct Differ;

impl Apart<DemoType, LlvmTypeHead> for Differ {
    ghost apart = { refl };
}

/// A type of one of the dialects. Those of `llvm` can hold types of both.
pub type AnyType = Tree<Places<Leaf, LlvmTypePlace>, Either<DemoType, LlvmTypeHead, Differ>>;

impl Apart<DemoAttr, LlvmAttr<AnyType>> for Differ {
    ghost apart = { refl };
}

/// An attribute of one of the dialects. Those of `llvm` can hold a type of both.
pub type AnyAttr = Either<DemoAttr, LlvmAttr<AnyType>, Differ>;

/// The demo dialects and `llvm`.
pub struct All;

impl Dialects<AnyType, AnyAttr> for All {
    ghost registered = { λ dialects. with_all (with_demo dialects demo_operations) llvm_operations };

    fn register(ctx: &mut Context<AnyType, AnyAttr>) -> Result<(), AnyAttr> {
        register_demo(ctx)?;
        register_llvm(ctx)
    }
}
