//! Truth values.
use irtext_base::parsable::{ParseResult, TextStream};
use irtext_memory::OutOfMemory;
use irtext_syntax::part::{Closed, Item, Last, Part, Plain};
use irtext_syntax::table::write_word;
use irtext_tokens::irfmt::parsers::bool_parse;

/// A truth value, as a part whose text is `true` or `false`. If the next character begins neither, parsing fails with `Unexpected`,
/// uncommitted. If a later one differs, it fails with `Unexpected` there, committed.
#[derive(Clone, Copy, PartialEq, Eq, Hash, Debug)]
pub struct Truth {
    pub value: bool,
}

impl Plain for Truth {}

impl<A> Part<A> for Truth {
    ghost use Rattle.irtext_syntax.specs.Sequences.{anything};
    ghost use Rattle.irtext_parts.specs.Truths.{truth_at, truth_text};
    ghost use Rattle.irtext_parts.specs.TruthLaws.{truth_law, truth_decides};

    ghost text = { record { reading = truth_at; written = truth_text; ends = anything } };

    ghost sound = { record { law = truth_law; decides = truth_decides } };

    fn read(stream: &mut TextStream) -> ParseResult<Truth, A> {
        match bool_parse(stream) {
            Ok(value) => Ok(Truth { value }),
            Err(fault) => Err(fault),
        }
    }

    fn write_text(&self, f: &mut String) -> Result<(), OutOfMemory> {
        if self.value {
            return write_word("true", f);
        }
        write_word("false", f)
    }
}

impl<A> Item<A> for Truth {
    ghost use Rattle.irtext_parts.specs.TruthLaws.{truth_misses};

    ghost misses = { truth_misses };
}

impl<A> Last<A> for Truth {
    ghost use Rattle.irtext_syntax.specs.Sequences.{anything_ends};

    ghost last = { anything_ends };
}

impl<A> Closed<A> for Truth {
    ghost use Rattle.std.specs.Prelude.{refl};

    ghost closed = { λ rest. refl };
}
