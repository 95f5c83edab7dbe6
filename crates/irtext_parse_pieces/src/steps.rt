//! The steps by which an operation's own parts are parsed: the directives of its format, or the steps of the canonical form.
ghost use Rattle.std.specs.Prelude.{◌≡◌, ◌+◌, ◌<◌, ◌^◌, slice_get, option_map, IfSome};
ghost use Rattle.irtext_base.specs.Faults.{characters};
ghost use Rattle.irtext_base.specs.Format.{is_any_region, word};
ghost use Rattle.irtext_base.specs.FormatViews.{directive_of, format_of};
ghost use Rattle.irtext_grammar.specs.Heads.{canonical_steps, steps_of, flat};
ghost use Rattle.irtext_grammar.specs.Resume.{is_flat};
ghost use Rattle.irtext_parse_pieces.specs.Steps.{custom_steps, seen_step};

use irtext_base::format::{Directive, OpFormat};

/// One step of parsing an operation's own parts.
#[derive(Clone, Copy)]
pub enum FormatStep<'f> {
    /// What this directive describes.
    Directive(&'f Directive),
    /// This fixed text.
    Word(&'f str),
    /// The names of all operands.
    Operands,
    /// The labels of all successors.
    Successors,
    /// The dictionary of the attributes.
    Dictionary,
    /// A list of types.
    Types,
    /// All regions.
    Regions,
}

/// Returns the step of the canonical form at this index.
fn canonical_step<'f>(index: usize) -> Option<FormatStep<'f>>
    ensures { option_map seen_step result ≡ slice_get canonical_steps index }
{
    match index {
        0 => Some(FormatStep::Word("(")),
        1 => Some(FormatStep::Operands),
        2 => Some(FormatStep::Word(")")),
        3 => Some(FormatStep::Word("[")),
        4 => Some(FormatStep::Successors),
        5 => Some(FormatStep::Word("]")),
        6 => Some(FormatStep::Dictionary),
        7 => Some(FormatStep::Word(":")),
        8 => Some(FormatStep::Word("<")),
        9 => Some(FormatStep::Word("(")),
        10 => Some(FormatStep::Types),
        11 => Some(FormatStep::Word(")")),
        12 => Some(FormatStep::Word("->")),
        13 => Some(FormatStep::Word("(")),
        14 => Some(FormatStep::Types),
        15 => Some(FormatStep::Word(")")),
        16 => Some(FormatStep::Word(">")),
        17 => Some(FormatStep::Regions),
        _ => None,
    }
}

/// Returns the step of the directive at this index. If there is one, the index after it does not overflow.
#[inline]
pub(crate) fn custom_step(directives: &[Directive], index: usize) -> Option<FormatStep<'_>>
    ensures step { option_map seen_step result ≡ slice_get (custom_steps directives.now) index }
    ensures fits { IfSome result (λ _. index + 1 < 2 ^ 64) }
{
    match directives.get(index) {
        Some(directive) => Some(FormatStep::Directive(directive)),
        None => None,
    }
}

/// Returns the step of a format at this index: a directive, or a step of the canonical form. Returns `None` after the last.
pub fn step_at(format: &OpFormat, index: usize) -> Option<FormatStep<'_>>
    ensures { option_map seen_step result ≡ slice_get (steps_of (format_of format.now)) index }
{
    match format {
        OpFormat::Canonical => canonical_step(index),
        OpFormat::Custom(directives) => custom_step(directives, index),
    }
}

/// Whether a directive parses regions.
fn reads_regions(directive: &Directive) -> bool
    ensures { result ≡ is_any_region (directive_of directive.now) }
{
    matches!(directive, Directive::Region(_) | Directive::Regions)
}

/// Whether a step parses a piece, which is anything but regions.
pub(crate) fn reads_piece(step: FormatStep<'_>) -> bool
    ensures { result ≡ is_flat (seen_step step.entry) }
{
    match step {
        FormatStep::Directive(directive) => !reads_regions(directive),
        FormatStep::Regions => false,
        FormatStep::Word(_)
        | FormatStep::Operands
        | FormatStep::Successors
        | FormatStep::Dictionary
        | FormatStep::Types => true,
    }
}

/// Returns the fixed text that a step is, if it is one.
#[inline]
pub(crate) fn word_of<'f>(step: FormatStep<'f>) -> Option<&'f str>
    ensures { IfSome result (λ text. seen_step step.entry ≡ flat (word (characters text.now))) }
{
    match step {
        FormatStep::Word(text) => Some(text),
        FormatStep::Directive(directive) => match directive {
            Directive::Literal(text) => Some(text.as_str()),
            _ => None,
        },
        _ => None,
    }
}
