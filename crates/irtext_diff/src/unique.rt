//! Pairs of lines: lines that occur once in each of two lists, as many of them as have the same order in both.

use std::alloc::{AllocError, Global};
use std::collections::BTreeMap;

/// A line of the old list, and the line of the new list that it is kept as, by their indices.
#[derive(Clone, Copy, Debug, PartialEq, Eq)]
pub struct Pair {
    pub old: usize,
    pub new: usize,
}

/// Where a line occurs in a list.
#[derive(Clone, Copy)]
enum Place {
    Nowhere,
    Once(usize),
    Often,
}

impl Place {
    /// The place of a line that also occurs at this index.
    fn and_at(self, index: usize) -> Place {
        match self {
            Place::Nowhere => Place::Once(index),
            Place::Once(_) | Place::Often => Place::Often,
        }
    }
}

/// Where a line occurs in both lists.
#[derive(Clone, Copy)]
struct Places {
    old: Place,
    new: Place,
}

const NOWHERE: Places = Places {
    old: Place::Nowhere,
    new: Place::Nowhere,
};

/// Finds where each line occurs.
fn find_places<'t>(
    alloc: Global,
    old: &[&'t str],
    new: &[&'t str],
) -> Result<BTreeMap<&'t str, Places>, AllocError> {
    let mut places = BTreeMap::new(alloc);
    for (index, line) in old.iter().enumerate() {
        let at = places.entry(*line)?.or_insert(NOWHERE);
        at.old = at.old.and_at(index);
    }
    for (index, line) in new.iter().enumerate() {
        let at = places.entry(*line)?.or_insert(NOWHERE);
        at.new = at.new.and_at(index);
    }
    Ok(places)
}

/// Returns the lines that occur once in each list, in the order of the old one.
fn unique_lines(alloc: Global, old: &[&str], new: &[&str]) -> Result<Vec<Pair>, AllocError> {
    let places = find_places(alloc, old, new)?;
    let mut found = Vec::new(alloc);
    for line in old {
        if let Some(
            Places {
                old: Place::Once(old),
                new: Place::Once(new),
            },
        ) = places.get(line)
        {
            found.push(Pair {
                old: *old,
                new: *new,
            })?;
        }
    }
    Ok(found)
}

/// A row of pairs in the order of both lists, by its last one.
#[derive(Clone, Copy)]
struct Row {
    /// The index of the last pair.
    last: usize,
    /// Its line in the new list.
    new: usize,
}

/// Returns for each pair the one before it in a longest row that ends with it, and the last pair of a longest row of all. The rows of
/// each length that are kept are those that end first in the new list.
fn rows(alloc: Global, found: &[Pair]) -> Result<(Vec<Option<usize>>, Option<usize>), AllocError> {
    let mut best: Vec<Row> = Vec::new(alloc);
    let mut before = Vec::new(alloc);
    for (index, pair) in found.iter().enumerate() {
        let longer = best.partition_point(|row| row.new < pair.new);
        before.push(
            longer
                .checked_sub(1)
                .and_then(|at| best.get(at))
                .map(|row| row.last),
        )?;
        let row = Row {
            last: index,
            new: pair.new,
        };
        match best.get_mut(longer) {
            Some(place) => *place = row,
            None => best.push(row)?,
        }
    }
    let last = best.last().map(|row| row.last);
    Ok((before, last))
}

/// Returns a longest row of the lines that occur once in each list, in the order of both. Fails only if an allocation fails. The time is
/// `n log n` in the number of lines.
pub fn unique_pairs(alloc: Global, old: &[&str], new: &[&str]) -> Result<Vec<Pair>, AllocError> {
    let found = unique_lines(alloc, old, new)?;
    let (before, mut last) = rows(alloc, found.as_slice())?;
    let mut row = Vec::new(alloc);
    for _ in 0..found.len() {
        let Some(index) = last else {
            break;
        };
        if let Some(pair) = found.get(index) {
            row.push(*pair)?;
        }
        last = before.get(index).copied().flatten();
    }
    row.reverse();
    Ok(row)
}
