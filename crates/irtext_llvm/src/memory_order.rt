//! The choice `MemoryOrder` of the dialect `llvm`: a word, as a part of other texts.
ghost use Rattle.irtext_syntax.specs.OwnLaws.{own_last};
ghost use Rattle.irtext_syntax.specs.Owns.{ends_text};

use irtext_base::parsable::{ParseResult, TextStream};
use irtext_base::result::Expected;
use irtext_memory::OutOfMemory;
use irtext_syntax::match_text;
use irtext_syntax::part::{Item, Last, Part, Plain};
use irtext_syntax::table::{Choice, table_parse, write_word};

/// One of the words `unordered`, `monotonic`, `acquire`, `release`, `acq_rel` or `seq_cst`. Another word is an error with the text `Unknown
/// memory order ` and the word, at its beginning.
#[derive(Clone, Copy, PartialEq, Eq, Hash, Debug)]
pub enum MemoryOrder {
    /// Printed as `unordered`.
    Unordered,
    /// Printed as `monotonic`.
    Monotonic,
    /// Printed as `acquire`.
    Acquire,
    /// Printed as `release`.
    Release,
    /// Printed as `acq_rel`.
    AcqRel,
    /// Printed as `seq_cst`.
    SeqCst,
}

impl Choice for MemoryOrder {
    ghost use Rattle.irtext_llvm.specs.MemoryOrders.{memory_order_word};

    ghost chosen = { memory_order_word };

    fn choice(text: &str) -> Option<MemoryOrder> {
        match_text!(text; "unordered" => MemoryOrder::Unordered,
            "monotonic" => MemoryOrder::Monotonic, "acquire" => MemoryOrder::Acquire,
            "release" => MemoryOrder::Release, "acq_rel" => MemoryOrder::AcqRel,
            "seq_cst" => MemoryOrder::SeqCst)
    }
}

impl<A> Part<A> for MemoryOrder {
    ghost use Rattle.irtext_llvm.specs.MemoryOrders.{memory_order_at, memory_order_text};
    ghost use Rattle.irtext_llvm.specs.MemoryOrderLaws.{memory_order_law, memory_order_decides};

    ghost text = { record { reading = memory_order_at; written = memory_order_text; ends = ends_text } };

    ghost sound = { record { law = memory_order_law; decides = memory_order_decides } };

    fn read(stream: &mut TextStream) -> ParseResult<MemoryOrder, A> {
        table_parse::<MemoryOrder, MemoryOrder, A>(
            stream,
            "Unknown memory order ",
            Expected::Attribute,
        )
    }

    fn write_text(&self, f: &mut String) -> Result<(), OutOfMemory> {
        match self {
            MemoryOrder::Unordered => write_word("unordered", f),
            MemoryOrder::Monotonic => write_word("monotonic", f),
            MemoryOrder::Acquire => write_word("acquire", f),
            MemoryOrder::Release => write_word("release", f),
            MemoryOrder::AcqRel => write_word("acq_rel", f),
            MemoryOrder::SeqCst => write_word("seq_cst", f),
        }
    }
}

impl<A> Item<A> for MemoryOrder {
    ghost use Rattle.irtext_llvm.specs.MemoryOrderLaws.{memory_order_misses};

    ghost misses = { memory_order_misses };
}

impl<A> Last<A> for MemoryOrder {
    ghost last = { own_last };
}

impl Plain for MemoryOrder {}
