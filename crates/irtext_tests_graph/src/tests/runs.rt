//! The runs of a script: in each a graph and its model get the same calls.
use crate::tests::checks::ends;
use crate::tests::orders::differing_order;
use crate::tests::script::{Script, differing_call};
use irtext_graph::graph::Graph;
use std::alloc::Global;
use std::process::Abort;

/// The number of the first call of a random script with a wrong result, or of the first order of uses.
fn differing(rt: &impl Abort, script: &mut Script, random: bool) -> Option<usize> {
    if random {
        return differing_call(rt, script);
    }
    differing_order(rt, script)
}

/// The same for a script that begins with an empty graph.
fn differing_from_empty(rt: &impl Abort, alloc: Global, random: bool) -> Option<usize> {
    let mut script = Script::new(alloc, Graph::new(alloc));
    differing(rt, &mut script, random)
}

#[test]
fn the_graph_and_its_model_agree(rt: HostRuntime) {
    ends(&rt, differing_from_empty(&rt, rt.alloc(), true));
    ends(&rt, differing_from_empty(&rt, rt.alloc(), false));
}
