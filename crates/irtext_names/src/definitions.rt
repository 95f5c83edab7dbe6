//! Definitions of names, one by one or one after another, as the results of an operation.
ghost use Rattle.std.specs.Prelude.{◌≡◌, ◌<◌, ◌↔◌, length, map, slice_get, true, None, Some, OnOk, OnErr, IfErr, Err};
ghost use Rattle.irtext_graph.specs.Used.{IsDefined};
ghost use Rattle.irtext_graph.specs.declared.object.Value.TheVariants.{Result};
ghost use Rattle.irtext_grammar.specs.Names.History.{act};
ghost use Rattle.irtext_grammar.specs.Names.Script.{Place, MultipleDefinitions};
ghost use Rattle.irtext_grammar.specs.Names.TextScopes.{Word};
ghost use Rattle.irtext_scopes.specs.Scopes.{LacksRoom, innermost, is_open, find, is_defined};
ghost use Rattle.irtext_scopes.specs.declared.scopes.DefineFault.{DefineFault};
ghost use Rattle.irtext_names.specs.Kinds.{scopes_of, other, defined_as, definition_of};
ghost use Rattle.irtext_names.specs.Linked.{TakesDefinition, FailsBy};
ghost use Rattle.irtext_names.specs.Placeholders.{Defines};
ghost use Rattle.irtext_names.specs.Tied.{MatchesGraph, IsNoPlaceholder, SettlesTies};
ghost use Rattle.irtext_names.specs.Rows.{AreKnown, ValuesReady, DefinesRow, FailsRow};

use crate::kinds::{Names, Referent};
use crate::named::Named;
use crate::placeholders::settle;
use irtext_graph::arena::Ptr;
use irtext_graph::graph::Graph;
use irtext_graph::object::{Operation, Value};
use irtext_scopes::scopes::DefineFault;

/// Defines a name as this value, or a label as this block. A scope of the name's kind must be open. If the name was used before, the
/// definition replaces the placeholder in all uses, and the placeholder is erased. Fails with `MultipleDefinitions` if the scope defines
/// the name already, and with `NoRoom` if there is no room for the name, which can happen only for one that is new in the scope. On an
/// error the scopes and the graph are unchanged.
#[inline(always)]
pub fn define_name<K: Referent<B>, O: Drop, B: Drop, T: Drop>(
    names: &mut Names,
    graph: &mut Graph<Option<O>, B, Option<T>>,
    name: usize,
    def: K,
) -> Result<(), DefineFault>
    requires open { is_open (scopes_of K.kind names.old) ≡ true }
    requires known { name < length names.old.names }
    requires tied { MatchesGraph names.old.values names.old.labels graph.old }
    requires there { IsDefined graph.old (defined_as K.kind def) }
    requires no_placeholder { IsNoPlaceholder (scopes_of K.kind names.old) def }
    ensures twice { (result ≡ Err DefineFault.MultipleDefinitions) ↔
        (is_defined (find name (innermost (scopes_of K.kind names.old))) ≡ true) }
    ensures room { LacksRoom result
        → find name (innermost (scopes_of K.kind names.old)) ≡ None }
    ensures defines { OnOk result (Defines (defined_as K.kind) (scopes_of K.kind names.old)
        (scopes_of K.kind names.new) graph.old graph.new name def) }
    ensures follows { OnOk result ((w : Word) (p : Place) → slice_get names.old.names name ≡ Some w.name
        → TakesDefinition (definition_of K.kind w p) names.old names.new graph.old graph.new p
        (defined_as K.kind def)) }
    ensures fails { result ≡ Err DefineFault.MultipleDefinitions → (w : Word) (p : Place)
        → slice_get names.old.names name ≡ Some w.name
        → FailsBy (act (definition_of K.kind w p)) names.old graph.old
        (record { cause = MultipleDefinitions w.name; at = Some w.at }) }
    ensures scopes { OnErr result (scopes_of K.kind names.new ≡ scopes_of K.kind names.old) }
    ensures objects { OnErr result (graph.new ≡ graph.old) }
    ensures rest { (names.new.names ≡ names.old.names)
        × (scopes_of (other K.kind) names.new ≡ scopes_of (other K.kind) names.old) }
    ensures ties { SettlesTies names.old names.new graph.old graph.new }
{
    if let Some(placeholder) = K::define(names, name, def)? {
        settle(graph, placeholder.as_defined(), def.as_defined());
    }
    Ok(())
}

/// Why names were not defined: the fault of the first name that failed, and the index of this name in the list, from 0.
#[derive(Debug, Drop)]
pub struct UndefinedName {
    pub fault: DefineFault,
    pub index: usize,
}

/// Defines names as the results of an operation, one after another, from result 0 on. The operation must have a result for each name, and
/// a scope of values must be open. Each result replaces the placeholder of its name, if the name was used before. Fails with
/// `MultipleDefinitions` at the first name that its scope defines already, and with `NoRoom` if there is no room for a name; the names before
/// that one are defined then.
pub fn process_parsed_ssa_defs<N: Named, O: Drop, B: Drop, T: Drop>(
    names: &mut Names,
    graph: &mut Graph<Option<O>, B, Option<T>>,
    defined: &[N],
    op: Ptr<Operation>,
) -> Result<(), UndefinedName>
    requires open { is_open names.old.values ≡ true }
    requires known { AreKnown (length names.old.names) (map N.numbered defined.now) }
    requires tied { MatchesGraph names.old.values names.old.labels graph.old }
    requires ready { ValuesReady (Result op) (length defined.now) names.old.values graph.old }
    ensures defines { OnOk result (DefinesRow (Result op) (map N.numbered defined.now) names.old names.new
        graph.old graph.new) }
    ensures fails { IfErr result (λ undefined. undefined.fault ≡ DefineFault.MultipleDefinitions
        → FailsRow (Result op) (map N.numbered defined.now) undefined.index names.old graph.old) }
    ensures within { IfErr result (λ undefined. undefined.index < length defined.now) }
    ensures open { is_open names.new.values ≡ true }
    ensures rest { (names.new.names ≡ names.old.names) × (names.new.labels ≡ names.old.labels) }
    ensures ties { SettlesTies names.old names.new graph.old graph.new }
{
    for (index, name) in defined.iter().enumerate() {
        if let Err(fault) = define_name(names, graph, name.number(), Value::Result(op, index)) {
            return Err(UndefinedName { fault, index });
        }
    }
    Ok(())
}
