//! The parts of an object: its data, operands, successors, results and arguments; the live objects by their slots; the counters.
ghost use Rattle.std.specs.Prelude.{◌≡◌, ◌↔◌, ◌<◌, ℕ, Some, IsSome, IsTrue, length, slice_get, option_map};
ghost use Rattle.irtext_graph.specs.declared.object.Object.TheVariants.{TheOperation, TheBlock};
ghost use Rattle.irtext_graph.specs.Graph.{IsLive};
ghost use Rattle.std.specs.Borrow.{sem};
ghost use Rattle.irtext_graph.specs.Places.{pointer_at};
ghost use Rattle.irtext_graph.specs.Parts.{operation_at, block_at, operands, successors, results, arguments, value_at, IsDefinedValue, definition_at};

use crate::arena::Ptr;
use crate::graph::Graph;
use crate::object::{BasicBlock, Object, Operation, Value};
use crate::objects::{Definition, Objects};

impl<O: Drop, B: Drop, T: Drop> Objects<O, B, T> {
    /// Whether a value is defined.
    fn is_defined(&self, v: Value) -> bool
        ensures { IsTrue result ↔ IsSome (definition_at self.now v) }
    {
        match v {
            Value::Result(p, i) => match self.operations.get(p) {
                Some(e) => i < e.content.data.results.len(),
                None => false,
            },
            Value::Argument(p, i) => match self.blocks.get(p) {
                Some(e) => i < e.content.data.arguments.len(),
                None => false,
            },
        }
    }

    /// Returns the definition of a value.
    pub(crate) fn definition(&self, v: Value) -> &Definition<T>
        requires { IsSome (definition_at self.now v) }
        ensures { definition_at self.now v ≡ Some result.now }
    {
        match v {
            Value::Result(p, i) => &self.operations.content(p).data.results[i],
            Value::Argument(p, i) => &self.blocks.content(p).data.arguments[i],
        }
    }
}

impl<O: Drop, B: Drop, T: Drop> Graph<O, B, T> {
    ghost use Rattle.irtext_graph.specs.declared.arena.Ptr.{Ptr};
    ghost use Rattle.irtext_graph.specs.declared.object.BasicBlock.{BasicBlock};
    ghost use Rattle.irtext_graph.specs.declared.object.Value.{Value};
    ghost use Rattle.irtext_graph.specs.DataLends.{LendsOperation, LendsBlock};

    /// The number of slots for operations.
    pub fn operation_places(&self) -> u32
        ensures { result ≡ length self.now.operations.cells }
    {
        self.objects.operations.slots.len() as u32
    }

    /// The number of slots for blocks.
    pub fn block_places(&self) -> u32
        ensures { result ≡ length self.now.blocks.cells }
    {
        self.objects.blocks.slots.len() as u32
    }

    /// Returns the operation in a slot, if there is one. It may be a placeholder.
    pub fn operation_in(&self, place: u32) -> Option<Ptr<Operation>>
        ensures { result ≡ pointer_at self.now.operations place }
    {
        self.objects.operations.pointer_at(place)
    }

    /// Returns the block in a slot, if there is one.
    pub fn block_in(&self, place: u32) -> Option<Ptr<BasicBlock>>
        ensures { result ≡ pointer_at self.now.blocks place }
    {
        self.objects.blocks.pointer_at(place)
    }

    /// Returns the number of the next value. All values have smaller numbers.
    pub fn next_number(&self) -> u64
        ensures { result ≡ self.now.values }
    {
        self.counters.values
    }

    /// Returns the number of the first slot.
    pub fn first_place(&self) -> u32
        ensures { result ≡ self.now.first_place }
    {
        self.counters.first_place
    }

    /// The number of results of an operation.
    pub fn num_results(&self, op: Ptr<Operation>) -> usize
        requires { IsLive self.now (TheOperation op) }
        ensures { result ≡ length (results self.now op) }
    {
        self.objects.operations.content(op).data.results.len()
    }

    /// The number of operands of an operation. A value that is used twice counts twice.
    pub fn num_operands(&self, op: Ptr<Operation>) -> usize
        requires { IsLive self.now (TheOperation op) }
        ensures { result ≡ length (operands self.now op) }
    {
        self.objects.operations.content(op).data.operands.len()
    }

    /// Returns the operand of an operation at an index.
    pub fn get_operand(&self, op: Ptr<Operation>, i: usize) -> Value
        requires alive { IsLive self.now (TheOperation op) }
        requires within { i < length (operands self.now op) }
        ensures { slice_get (operands self.now op) i ≡ Some result }
    {
        self.objects.operations.content(op).data.operands[i].def
    }

    /// Returns the successor of an operation at an index.
    pub fn get_successor(&self, op: Ptr<Operation>, i: usize) -> Ptr<BasicBlock>
        requires alive { IsLive self.now (TheOperation op) }
        requires within { i < length (successors self.now op) }
        ensures { slice_get (successors self.now op) i ≡ Some result }
    {
        self.objects.operations.content(op).data.successors[i].def
    }

    /// The number of successors of an operation. A block that is used twice counts twice.
    pub fn num_successors(&self, op: Ptr<Operation>) -> usize
        requires { IsLive self.now (TheOperation op) }
        ensures { result ≡ length (successors self.now op) }
    {
        self.objects.operations.content(op).data.successors.len()
    }

    /// Whether a value is defined: its operation or block is live, and has a result or an argument with this index.
    pub fn contains_value(&self, v: Value) -> bool
        ensures { IsTrue result ↔ IsDefinedValue self.now v }
    {
        self.objects.is_defined(v)
    }

    /// The number of arguments of a block.
    pub fn num_arguments(&self, block: Ptr<BasicBlock>) -> usize
        requires { IsLive self.now (TheBlock block) }
        ensures { result ≡ length (arguments self.now block) }
    {
        self.objects.blocks.content(block).data.arguments.len()
    }

    /// Returns the type of a value.
    pub fn type_of(&self, v: Value) -> &T
        requires { IsDefinedValue self.now v }
        ensures { option_map (λ t. t.of_type) (value_at self.now v) ≡ Some result.now }
    {
        &self.objects.definition(v).of_type
    }

    /// Returns the number of a value, which no other value of the graph has or had.
    pub fn number_of(&self, v: Value) -> u64
        requires { IsDefinedValue self.now v }
        ensures { option_map (λ t. t.number) (value_at self.now v) ≡ Some result }
    {
        self.objects.definition(v).number
    }

    /// Returns the data of an operation.
    pub fn operation(&self, op: Ptr<Operation>) -> &O
        requires { IsLive self.now (TheOperation op) }
        ensures { option_map (λ c. c.data_of) (operation_at self.now op) ≡ Some result.now }
    {
        &self.objects.operations.content(op).data.data
    }

    /// Returns the data of a block.
    pub fn block(&self, block: Ptr<BasicBlock>) -> &B
        requires { IsLive self.now (TheBlock block) }
        ensures { option_map (λ c. c.data_of) (block_at self.now block) ≡ Some result.now }
    {
        &self.objects.blocks.content(block).data.data
    }

    /// Borrows the data of an operation as `&mut`. All else in the graph is unchanged.
    pub fn operation_mut(&mut self, op: Ptr<Operation>) -> &mut O
        requires { IsLive self.old (TheOperation op) }
        ensures* lends { sem 𝓛 (LendsOperation O.row B.row T.row self.entry op result) }
        ensures value { option_map (λ c. c.data_of) (operation_at self.old op) ≡ Some result.now }
    {
        &mut self.objects.operations.content_mut(op).data.data
    }

    /// Borrows the data of a block as `&mut`. All else in the graph is unchanged.
    pub fn block_mut(&mut self, block: Ptr<BasicBlock>) -> &mut B
        requires { IsLive self.old (TheBlock block) }
        ensures* lends { sem 𝓛 (LendsBlock O.row B.row T.row self.entry block result) }
        ensures value { option_map (λ c. c.data_of) (block_at self.old block) ≡ Some result.now }
    {
        &mut self.objects.blocks.content_mut(block).data.data
    }
}
