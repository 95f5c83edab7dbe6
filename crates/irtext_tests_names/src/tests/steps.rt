//! One step on names over a graph, and what the steps made.
ghost use Rattle.irtext_names.specs.Tied.{MatchesGraph};

use irtext_few::Few;
use irtext_graph::arena::Ptr;
use irtext_graph::graph::Graph;
use irtext_graph::object::{BasicBlock, Defined, Object, Operation, Value};
use irtext_names::definitions::define_name;
use irtext_names::regions::{enter_region, exit_region};
use irtext_names::uses::use_name;
use irtext_scopes::scopes::DefineFault;
use irtext_scopes::tracker::{EnterFault, NameTracker};
use irtext_tests_common::calls::Call;
use std::alloc::{AllocError, Global};

pub(crate) type Names = NameTracker<Value, Ptr<BasicBlock>>;

pub(crate) type Tested = Graph<Option<u32>, u32, Option<u8>>;

/// What a name is defined as, or why it is not: it is defined already, or out of memory.
pub(crate) type Definition = Result<Defined, Answer>;

/// The result: success, what a name refers to or referred to before, no scope is open for the call, a region is not
/// isolated where it has to be, a name is defined already, a region lacks a definition of this name or of another one, or
/// out of memory.
#[derive(Clone, Copy, PartialEq, Eq)]
pub(crate) enum Answer {
    Done,
    Holds(u32),
    NoScope,
    NotIsolated,
    Twice,
    Undefined,
    UndefinedOther,
    NoMemory,
}

/// The operations that use names of one kind, and the definitions, each in the order in which they were made.
#[derive(Drop)]
pub(crate) struct Kind {
    pub(crate) users: Vec<Ptr<Operation>>,
    pub(crate) definitions: Vec<Defined>,
}

/// What was made for values and for labels.
#[derive(Drop)]
pub(crate) struct Made {
    pub(crate) values: Kind,
    pub(crate) labels: Kind,
}

impl Kind {
    fn new(alloc: Global) -> Kind {
        Kind {
            users: Vec::new(alloc),
            definitions: Vec::new(alloc),
        }
    }

    fn add_user(&mut self, user: Option<Ptr<Operation>>) -> Result<Answer, AllocError> {
        let Some(user) = user else {
            return Ok(Answer::NoMemory);
        };
        self.users.push(user)?;
        Ok(Answer::Done)
    }

    fn add_definition(&mut self, definition: Definition) -> Result<Answer, AllocError> {
        match definition {
            Ok(definition) => {
                self.definitions.push(definition)?;
                Ok(Answer::Done)
            }
            Err(answer) => Ok(answer),
        }
    }
}

impl Made {
    /// Nothing is made.
    pub(crate) fn new(alloc: Global) -> Made {
        Made {
            values: Kind::new(alloc),
            labels: Kind::new(alloc),
        }
    }
}

/// Makes an operation that uses what a name refers to.
fn uses(names: &mut Names, graph: &mut Tested, name: usize) -> Option<Ptr<Operation>>
    requires { MatchesGraph names.old.values names.old.labels graph.old }
    ensures { MatchesGraph names.new.values names.new.labels graph.new }
{
    if !names.has_value_scope() || name >= names.num_names() {
        return None;
    }
    let value: Value = use_name(names, graph, name, ()).ok()?;
    graph
        .make_operation(Some(1), Few::none(), &[value], &[])
        .ok()
}

/// Makes an operation that branches to the block of a label.
fn branches(names: &mut Names, graph: &mut Tested, name: usize) -> Option<Ptr<Operation>>
    requires { MatchesGraph names.old.values names.old.labels graph.old }
    ensures { MatchesGraph names.new.values names.new.labels graph.new }
{
    if !names.has_label_scope() || name >= names.num_names() {
        return None;
    }
    let block: Ptr<BasicBlock> = use_name(names, graph, name, 0).ok()?;
    graph
        .make_operation(Some(1), Few::none(), &[], &[block])
        .ok()
}

/// Why a name is not defined.
pub(crate) fn refused(fault: DefineFault) -> Answer {
    match fault {
        DefineFault::MultipleDefinitions => Answer::Twice,
        DefineFault::NoRoom(_) => Answer::NoMemory,
    }
}

/// Makes an operation with one result, and defines a name as this result.
pub(crate) fn defines(names: &mut Names, graph: &mut Tested, name: usize) -> Definition
    requires { MatchesGraph names.old.values names.old.labels graph.old }
    ensures { MatchesGraph names.new.values names.new.labels graph.new }
{
    if !names.has_value_scope() || name >= names.num_names() {
        return Err(Answer::NoMemory);
    }
    let Ok(made) = graph.make_operation(Some(2), Few::one(Some(7)), &[], &[]) else {
        return Err(Answer::NoMemory);
    };
    let def = Value::Result(made, 0);
    if !graph.contains_value(def) {
        return Err(Answer::NoMemory);
    }
    match define_name(names, graph, name, def) {
        Ok(()) => Ok(Defined::OfValue(def)),
        Err(fault) => Err(refused(fault)),
    }
}

/// Makes a block with one argument, and defines a label as this block.
pub(crate) fn labels(names: &mut Names, graph: &mut Tested, name: usize) -> Definition
    requires { MatchesGraph names.old.values names.old.labels graph.old }
    ensures { MatchesGraph names.new.values names.new.labels graph.new }
{
    if !names.has_label_scope() || name >= names.num_names() {
        return Err(Answer::NoMemory);
    }
    let Ok(made) = graph.make_block(5, Few::one(Some(7))) else {
        return Err(Answer::NoMemory);
    };
    if !graph.contains(Object::TheBlock(made)) {
        return Err(Answer::NoMemory);
    }
    match define_name(names, graph, name, made) {
        Ok(()) => Ok(Defined::OfBlock(made)),
        Err(fault) => Err(refused(fault)),
    }
}

fn entered(names: &mut Names, graph: &Tested, isolated: bool) -> Answer
    requires { MatchesGraph names.old.values names.old.labels graph.now }
    ensures { MatchesGraph names.new.values names.new.labels graph.now }
{
    match enter_region(names, graph, isolated) {
        Ok(()) => Answer::Done,
        Err(EnterFault::TopLevelOpRegionNotIsolatedFromAbove) => Answer::NotIsolated,
        Err(EnterFault::Memory(_)) => Answer::NoMemory,
    }
}

fn left(names: &mut Names, graph: &Tested, isolated: bool, name: usize) -> Answer
    requires { MatchesGraph names.old.values names.old.labels graph.now }
    ensures { MatchesGraph names.new.values names.new.labels graph.now }
{
    match exit_region(names, graph, isolated) {
        None => Answer::Done,
        Some(lacking) => {
            if lacking == name {
                Answer::Undefined
            } else {
                Answer::UndefinedOther
            }
        }
    }
}

/// Whether a scope is open for a call on a name.
fn has_scope(names: &Names, call: Call) -> bool {
    match call {
        Call::Use | Call::Define => names.has_value_scope(),
        _ => names.has_label_scope(),
    }
}

/// Makes one call, and records what was made for it.
pub(crate) fn step(
    names: &mut Names,
    graph: &mut Tested,
    made: &mut Made,
    call: Call,
    name: usize,
) -> Result<Answer, AllocError>
    requires { MatchesGraph names.old.values names.old.labels graph.old }
    ensures { MatchesGraph names.new.values names.new.labels graph.new }
{
    match call {
        Call::Enter => Ok(entered(names, graph, false)),
        Call::EnterIsolated => Ok(entered(names, graph, true)),
        Call::Exit => Ok(left(names, graph, false, name)),
        Call::ExitIsolated => Ok(left(names, graph, true, name)),
        _ if !has_scope(names, call) => Ok(Answer::NoScope),
        Call::Use => made.values.add_user(uses(names, graph, name)),
        Call::Define => made.values.add_definition(defines(names, graph, name)),
        Call::UseLabel => made.labels.add_user(branches(names, graph, name)),
        Call::DefineLabel => made.labels.add_definition(labels(names, graph, name)),
    }
}
