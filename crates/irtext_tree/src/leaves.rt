//! A family of types or of attributes that hold no others, as a grammar: each value is a head that nothing comes after.
use crate::grammar::{AttrGrammar, Grammar, Grows, LedGrammar};
use crate::places::Leaf;
use crate::waits::Waits;
use irtext_base::parsable::{ParseResult, TextStream};
use irtext_base::text::{AttrText, Family, IrText};
use irtext_memory::OutOfMemory;
use std::alloc::AllocError;

impl<H> Grows<H> for Leaf {
    ghost use Rattle.irtext_tree.specs.Leaves.{leaf_growth};

    ghost growth = { leaf_growth };

    fn start() -> Leaf {
        Leaf
    }

    fn is_start(self) -> bool {
        true
    }

    fn takes(self, _head: &H) -> bool {
        true
    }

    fn waits(_head: &H) -> Waits<Leaf> {
        Waits::Nothing
    }
}

impl<A, H: IrText<A>> Grammar<H, A> for Leaf {
    ghost use Rattle.irtext_tree.specs.LeafLaws.{leaf_law};

    ghost reading = { λ s. H.IrText.reading };

    ghost written = { H.IrText.written };

    ghost same = { H.IrText.decides };

    ghost sound = { leaf_law H.IrText.reading H.IrText.written H.IrText.lawful H.IrText.sincere };

    fn read(self, stream: &mut TextStream) -> ParseResult<H, A> {
        match <H as IrText<A>>::read(stream) {
            Ok(head) => Ok(head),
            Err(fault) => Err(fault),
        }
    }

    fn write_head(head: &H, f: &mut String) -> Result<(), OutOfMemory> {
        <H as IrText<A>>::write_text(head, f)
    }
}

impl<A, H: Family<A>> LedGrammar<H, A> for Leaf {
    ghost use Rattle.irtext_tree.specs.LeafLaws.{leaf_led};

    ghost led = { leaf_led H.IrText.reading H.IrText.written H.Family.led };
}

impl<A, H: AttrText<A>> AttrGrammar<H, A> for Leaf {
    ghost use Rattle.irtext_tree.specs.LeafLaws.{leaf_unreserved};

    ghost outlined = { H.AttrText.outlined };

    ghost print_once = { H.AttrText.print_once };

    ghost unreserved = { leaf_unreserved H.IrText.reading H.IrText.written H.AttrText.unreserved };

    fn is_outlined(head: &H) -> bool {
        <H as AttrText<A>>::is_outlined(head)
    }

    fn is_print_once(head: &H) -> bool {
        <H as AttrText<A>>::is_print_once(head)
    }

    fn clone_head(head: &H) -> Result<H, AllocError> {
        <H as AttrText<A>>::try_clone(head)
    }
}
