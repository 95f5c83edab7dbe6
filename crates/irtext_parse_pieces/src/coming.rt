//! What the steps of a format parse: a piece, one region, or all regions.
ghost use Rattle.std.specs.Prelude.{slice_get, Some};
ghost use Rattle.irtext_base.specs.FormatViews.{format_of};
ghost use Rattle.irtext_grammar.specs.Heads.{steps_of};
ghost use Rattle.irtext_parse_pieces.specs.Steps.{seen_step};
ghost use Rattle.irtext_parse_pieces.specs.Coming.{IsStep};

use crate::steps::{FormatStep, step_at};
use irtext_base::format::{Directive, OpFormat};

/// What comes next in an open operation.
#[derive(Clone, Copy)]
pub enum Coming {
    /// A step of the format that parses no region.
    Piece,
    /// One region.
    Region,
    /// All remaining regions.
    Regions,
    /// The end of the operation.
    End,
}

/// Returns what a step parses.
pub fn kind_of(step: FormatStep<'_>) -> Coming
    ensures { IsStep result (Some (seen_step step.entry)) }
{
    match step {
        FormatStep::Directive(directive) => match directive {
            Directive::Region(_) => Coming::Region,
            Directive::Regions => Coming::Regions,
            _ => Coming::Piece,
        },
        FormatStep::Regions => Coming::Regions,
        FormatStep::Word(_)
        | FormatStep::Operands
        | FormatStep::Successors
        | FormatStep::Dictionary
        | FormatStep::Types => Coming::Piece,
    }
}

/// Returns what the step of a format at this index parses; after the last step comes the end.
pub fn coming_at(format: &OpFormat, index: usize) -> Coming
    ensures { IsStep result (slice_get (steps_of (format_of format.now)) index) }
{
    match step_at(format, index) {
        Some(step) => kind_of(step),
        None => Coming::End,
    }
}
