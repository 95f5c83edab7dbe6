//! A plain model of names over a graph: the model of a tracker, in which each name is bound to an index, and what each index refers to
//! and each use has to hold.
use crate::tests::held::Held;
use crate::tests::scopes::model::Model as Scopes;
use crate::tests::steps::Answer;
use irtext_tests_common::calls::Call;
use std::alloc::{AllocError, Global};

/// What the names of one kind refer to.
#[derive(Drop)]
pub(crate) struct Referred {
    // what each index that was ever bound refers to
    bound: Vec<Held>,
    // for each use the index of what it holds
    uses: Vec<usize>,
    definitions: usize,
    refused: usize,
}

impl Referred {
    fn new(alloc: Global) -> Referred {
        Referred {
            bound: Vec::new(alloc),
            uses: Vec::new(alloc),
            definitions: 0,
            refused: 0,
        }
    }

    /// The index for a name that is bound next: a script binds fewer than a million.
    fn next(&self) -> u32 {
        (self.bound.len() % 1000000) as u32
    }

    /// The result of a use of a name that refers to the index held: if nothing had it, a placeholder waits there.
    fn used(&mut self, answer: Answer) -> Result<Answer, AllocError> {
        let Answer::Holds(index) = answer else {
            return Ok(answer);
        };
        let index = index as usize;
        if index == self.bound.len() {
            self.bound.push(Held::Waits(self.uses.len()))?;
        }
        self.uses.push(index)?;
        Ok(Answer::Done)
    }

    /// The result of a definition of a name: the next definition is bound, also in place of the placeholder that waits at the index held.
    fn defined(&mut self, answer: Answer) -> Result<Answer, AllocError> {
        if answer == Answer::Twice {
            self.refused = self.refused.wrapping_add(1);
            return Ok(answer);
        }
        let held = Held::Definition(self.definitions);
        match answer {
            Answer::Done => {}
            Answer::Holds(waiting) => {
                if let Some(bound) = self.bound.get_mut(waiting as usize) {
                    *bound = held;
                }
            }
            _ => return Ok(answer),
        }
        self.definitions = self.definitions.wrapping_add(1);
        self.bound.push(held)?;
        Ok(Answer::Done)
    }

    /// The number of uses.
    pub(crate) fn num_uses(&self) -> usize {
        self.uses.len()
    }

    /// What the use of this number has to hold.
    pub(crate) fn held(&self, number: usize) -> Option<Held> {
        self.bound.get(*self.uses.get(number)?).copied()
    }

    /// The number of objects for names of this kind: users, what was made as definitions, and placeholders.
    fn num_objects(&self) -> usize {
        let mut count = self.definitions.wrapping_add(self.refused);
        count = count.wrapping_add(self.uses.len());
        for held in &self.bound {
            if matches!(held, Held::Waits(_)) {
                count = count.wrapping_add(1);
            }
        }
        count
    }
}

/// The scopes, and what names of values and labels refer to.
#[derive(Drop)]
pub(crate) struct Model {
    pub(crate) scopes: Scopes,
    pub(crate) values: Referred,
    pub(crate) labels: Referred,
}

impl Model {
    /// No scope is open, and no name was mentioned.
    pub(crate) fn new(alloc: Global) -> Model {
        Model {
            scopes: Scopes::new(alloc),
            values: Referred::new(alloc),
            labels: Referred::new(alloc),
        }
    }

    /// The number of objects.
    pub(crate) fn num_objects(&self) -> u64 {
        let labels = self.labels.num_objects();
        self.values.num_objects().wrapping_add(labels) as u64
    }

    /// The result of a call, and its name: if a region is left, a name without a definition.
    pub(crate) fn answer(
        &mut self,
        call: Call,
        name: usize,
    ) -> Result<(usize, Answer), AllocError> {
        let next = match call {
            Call::Use | Call::Define => self.values.next(),
            _ => self.labels.next(),
        };
        let (asked, answer) = self.scopes.answer(call, name, next)?;
        let answer = match call {
            Call::Use => self.values.used(answer)?,
            Call::Define => self.values.defined(answer)?,
            Call::UseLabel => self.labels.used(answer)?,
            Call::DefineLabel => self.labels.defined(answer)?,
            _ => answer,
        };
        Ok((asked, answer))
    }
}
