//! The types of values of a context, and of an operation's results and operands. A placeholder, a forward reference that waits for its
//! definition, has no type, and is not in the context.
ghost use Rattle.std.specs.Prelude.{◌≡◌, Some, IfOk, map, filter_map};
ghost use Rattle.irtext_graph.specs.Graph.{IsLive};
ghost use Rattle.irtext_graph.specs.Parts.{operands};
ghost use Rattle.irtext_graph.specs.declared.object.Object.TheVariants.{TheOperation};
ghost use Rattle.irtext_graph.specs.declared.object.Value.TheVariants.{Result};
ghost use Rattle.irtext_checked.specs.Types.{value_type, result_values, IsContainedValue, ListsTypes};

use irtext_base::text::{AttrText, IrText};
use irtext_context::base::{Context, Operation, Ptr};
use irtext_graph::held::HasGraph;
use irtext_graph::object::Value;
use irtext_graph_queries::types::GraphTypes;
use irtext_memory::{OutOfMemory, vec};
use std::alloc::Global;

/// The type of a value of a context. Allocates nothing.
pub trait ValueType: Sized {
    ghost use Rattle.irtext_graph.specs.declared.object.Value.{Value};

    // the value
    ghost value: { Self → Value };

    /// Returns the type of the value, which must be in the context: `Context::contains_value` tests it.
    fn get_type<T: IrText<A>, A: AttrText<A>>(self, ctx: &Context<T, A>) -> &T
        requires { IsContainedValue ctx.now (value self) }
        ensures { value_type ctx.now (value self) ≡ Some result.now };
}

/// The types of an operation's results and operands, by the operation's pointer. Calls that return a list fail only when out of memory.
pub trait OperationTypes: Sized {
    ghost use Rattle.irtext_graph.specs.declared.arena.Ptr.{Ptr};
    ghost use Rattle.irtext_graph.specs.declared.object.Operation.{Operation};

    // the pointer
    ghost pointer: { Self → Ptr Operation };

    /// Returns the type of the result of the operation at an index. The result, `Value::Result(self, index)`, must be in the context:
    /// `Context::contains_value` tests it. Allocates nothing.
    fn get_type<T: IrText<A>, A: AttrText<A>>(self, ctx: &Context<T, A>, index: usize) -> &T
        requires { IsContainedValue ctx.now (Result (pointer self) index) }
        ensures { value_type ctx.now (Result (pointer self) index) ≡ Some result.now };

    /// Returns the types, in order, of the results of the operation. The operation must be live. A placeholder's result has no type, and
    /// is left out; if each result is in the context, the type at an index is that of the result at this index.
    fn result_types<T: IrText<A>, A: AttrText<A>>(
        self,
        ctx: &Context<T, A>,
    ) -> Result<Vec<&T>, OutOfMemory>
        requires { IsLive ctx.now.graph (TheOperation (pointer self)) }
        ensures { IfOk result (λ all. ListsTypes ctx.now (result_values ctx.now (pointer self))
            (map (λ t. t.now) all.items)) };

    /// Returns the types, in order, of the operands of the operation. The operation must be live. A placeholder has no type, and is left
    /// out; if each operand is in the context, the type at an index is that of the operand at this index.
    fn operand_types<T: IrText<A>, A: AttrText<A>>(
        self,
        ctx: &Context<T, A>,
    ) -> Result<Vec<&T>, OutOfMemory>
        requires { IsLive ctx.now.graph (TheOperation (pointer self)) }
        ensures { IfOk result (λ all. ListsTypes ctx.now (operands ctx.now.graph (pointer self))
            (map (λ t. t.now) all.items)) };
}

/// Returns those of these types that there are, in order.
fn present<'a, T: Drop>(alloc: Global, types: &[&'a Option<T>]) -> Result<Vec<&'a T>, OutOfMemory>
    ensures { IfOk result (λ all. map (λ t. t.now) all.items ≡ filter_map (λ t. t.now) types.now) }
{
    let mut all = vec::with_capacity_of(alloc, types.len(), types)?;
    for of_type in types {
        if let Some(of_type) = *of_type {
            vec::push(&mut all, of_type)?;
        }
    }
    Ok(all)
}

impl ValueType for Value {
    ghost value = { λ v. v };

    fn get_type<T: IrText<A>, A: AttrText<A>>(self, ctx: &Context<T, A>) -> &T {
        match ctx.graph().type_of(self) {
            Some(of_type) => of_type,
            None => unreachable!(),
        }
    }
}

impl OperationTypes for Ptr<Operation> {
    ghost pointer = { λ p. p };

    fn get_type<T: IrText<A>, A: AttrText<A>>(self, ctx: &Context<T, A>, index: usize) -> &T {
        Value::Result(self, index).get_type(ctx)
    }

    fn result_types<T: IrText<A>, A: AttrText<A>>(
        self,
        ctx: &Context<T, A>,
    ) -> Result<Vec<&T>, OutOfMemory> {
        let types = GraphTypes::result_types(self, ctx)?;
        present(ctx.allocator(), &types)
    }

    fn operand_types<T: IrText<A>, A: AttrText<A>>(
        self,
        ctx: &Context<T, A>,
    ) -> Result<Vec<&T>, OutOfMemory> {
        let types = GraphTypes::operand_types(self, ctx)?;
        present(ctx.allocator(), &types)
    }
}
