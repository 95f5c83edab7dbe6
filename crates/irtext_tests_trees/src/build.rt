//! How an author makes types of the dialect `llvm` and asks what a type is.
ghost use Rattle.std.specs.Prelude.{◌≡◌, ◌++◌, ◌∷◌, [], IfOk};
ghost use Rattle.irtext_tests_trees.specs.declared.types.LlvmHead.TheVariants as head;

use crate::types::{LlvmHead, LlvmPlace};
use irtext_memory::OutOfMemory;
use irtext_syntax::Number;
use irtext_syntax::sequence::Within;
use irtext_tree::{Children, SubTree, Tree};
use std::alloc::Global;
use std::marker::PhantomData;

/// A type of the dialect `llvm` alone.
pub type LlvmType = Tree<LlvmPlace, LlvmHead>;

/// A type that is held by another one, or all of one.
pub type LlvmView<'a> = SubTree<'a, LlvmPlace, LlvmHead>;

/// Returns the type `llvm.ptr`. Allocates nothing.
pub fn ptr(alloc: Global) -> LlvmType
    ensures { result.heads ≡ head.Ptr ∷ [] }
{
    Tree::of(alloc, LlvmHead::Ptr)
}

/// Returns the type `llvm.int N`. Allocates nothing.
pub fn int(alloc: Global, width: u32) -> LlvmType {
    Tree::of(alloc, LlvmHead::Int(Number::new(width)))
}

/// Returns the type `llvm.array <N, T>`. Fails only if an allocation fails.
pub fn array(alloc: Global, len: u64, element: LlvmType) -> Result<LlvmType, OutOfMemory> {
    let row = Tree::begin(
        alloc,
        LlvmHead::Array(Within {
            inside: Number::new(len),
            brackets: PhantomData,
        }),
    );
    Ok(row.tree(element)?.head(LlvmHead::Close)?.finish())
}

/// Returns the type `llvm.func <T, U, ..>`, of a first type and others. Fails only if an allocation fails.
pub fn func(
    alloc: Global,
    first: LlvmType,
    others: Vec<LlvmType>,
) -> Result<LlvmType, OutOfMemory> {
    let mut row = Tree::begin(alloc, LlvmHead::Func).tree(first)?;
    for ty in others {
        row = row.head(LlvmHead::More)?.tree(ty)?;
    }
    Ok(row.head(LlvmHead::End)?.finish())
}

/// Returns the length and the element of an array, or `None` if the type is another one.
pub fn as_array<'a>(ty: LlvmView<'a>) -> Option<(u64, LlvmView<'a>)> {
    match ty.head() {
        LlvmHead::Array(len) => {
            let mut held = ty.children();
            Some((len.inside.get(), held.next()?))
        }
        _ => None,
    }
}

/// Returns the types of a function, or `None` if the type is another one.
pub fn as_func<'a>(ty: LlvmView<'a>) -> Option<Children<'a, LlvmPlace, LlvmHead>> {
    match ty.head() {
        LlvmHead::Func => Some(ty.children()),
        _ => None,
    }
}
