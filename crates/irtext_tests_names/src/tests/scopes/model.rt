//! A plain model of a tracker: the bindings of the open scopes in one vector, which is searched.
use crate::tests::steps::Answer;
use irtext_tests_common::calls::Call;
use irtext_tests_common::mentioned::Mentioned;
use std::alloc::{AllocError, Global};

/// A name as a scope binds it: to a definition, or to the placeholder that waits for one.
#[derive(Clone, Copy)]
struct Bound {
    name: usize,
    value: u32,
    is_defined: bool,
    // how many scopes were open when the name was bound, this one among them
    depth: usize,
}

/// The scopes of names of one kind: how many are open, and what is bound in them, the innermost scope last.
#[derive(Drop)]
struct Table {
    bounds: Vec<Bound>,
    depth: usize,
}

impl Table {
    fn new(alloc: Global) -> Table {
        Table {
            bounds: Vec::new(alloc),
            depth: 0,
        }
    }

    fn enter(&mut self) {
        self.depth = self.depth.wrapping_add(1);
    }

    /// Closes the innermost scope, if one is open, and returns the first name in it that waits.
    fn leave(&mut self) -> Option<usize> {
        if self.depth == 0 {
            return None;
        }
        let mut lacking = None;
        for _ in 0..self.bounds.len() {
            let Some(bound) = self.bounds.last().copied() else {
                break;
            };
            if bound.depth != self.depth {
                break;
            }
            if !bound.is_defined {
                lacking = Some(bound.name);
            }
            self.bounds.pop();
        }
        self.depth = self.depth.wrapping_sub(1);
        lacking
    }

    fn find(&self, name: usize) -> Option<Bound> {
        for bound in &self.bounds {
            if bound.name == name && bound.depth == self.depth {
                return Some(*bound);
            }
        }
        None
    }

    /// Binds a name in the innermost scope, in place of its earlier binding there.
    fn bind(&mut self, name: usize, value: u32, is_defined: bool) -> Result<(), AllocError> {
        let depth = self.depth;
        for bound in self.bounds.iter_mut() {
            if bound.name == name && bound.depth == depth {
                bound.value = value;
                bound.is_defined = is_defined;
                return Ok(());
            }
        }
        self.bounds.push(Bound {
            name,
            value,
            is_defined,
            depth,
        })?;
        Ok(())
    }

    fn used(&mut self, name: usize, value: u32) -> Result<Answer, AllocError> {
        if self.depth == 0 {
            return Ok(Answer::NoScope);
        }
        if let Some(bound) = self.find(name) {
            return Ok(Answer::Holds(bound.value));
        }
        self.bind(name, value, false)?;
        Ok(Answer::Holds(value))
    }

    fn defined(&mut self, name: usize, value: u32) -> Result<Answer, AllocError> {
        let answer = match self.find(name) {
            Some(bound) if bound.is_defined => Answer::Twice,
            Some(bound) => Answer::Holds(bound.value),
            None if self.depth == 0 => Answer::NoScope,
            None => Answer::Done,
        };
        if matches!(answer, Answer::Holds(_) | Answer::Done) {
            self.bind(name, value, true)?;
        }
        Ok(answer)
    }
}

/// The scopes of values and of labels, and the names that were mentioned.
#[derive(Drop)]
pub(crate) struct Model {
    values: Table,
    labels: Table,
    pub(crate) names: Mentioned,
}

impl Model {
    /// No scope is open, and no name was mentioned.
    pub(crate) fn new(alloc: Global) -> Model {
        Model {
            values: Table::new(alloc),
            labels: Table::new(alloc),
            names: Mentioned::new(alloc),
        }
    }

    /// Whether a region is open.
    pub(crate) fn is_open(&self) -> bool {
        self.values.depth > 0 || self.labels.depth > 0
    }

    fn enter(&mut self, isolated: bool) -> Answer {
        if isolated {
            self.values.enter();
        } else if self.values.depth == 0 {
            return Answer::NotIsolated;
        }
        self.labels.enter();
        Answer::Done
    }

    /// Leaves a region, and returns the first name that is left without a definition: values come before labels.
    fn leave(&mut self, isolated: bool) -> Option<usize> {
        let value = if isolated { self.values.leave() } else { None };
        let label = self.labels.leave();
        value.or(label)
    }

    /// The result of a call, and its name: if a region is left, a name without a definition.
    pub(crate) fn answer(
        &mut self,
        call: Call,
        name: usize,
        value: u32,
    ) -> Result<(usize, Answer), AllocError> {
        let isolated = call.is_isolated();
        let answer = match call {
            Call::Enter | Call::EnterIsolated => self.enter(isolated),
            Call::Exit | Call::ExitIsolated => {
                return Ok(match self.leave(isolated) {
                    Some(lacking) => (lacking, Answer::Undefined),
                    None => (name, Answer::Done),
                });
            }
            Call::Use => self.values.used(name, value)?,
            Call::Define => self.values.defined(name, value)?,
            Call::UseLabel => self.labels.used(name, value)?,
            Call::DefineLabel => self.labels.defined(name, value)?,
        };
        Ok((name, answer))
    }
}
