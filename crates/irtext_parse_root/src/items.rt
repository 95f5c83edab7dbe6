//! The loop over the open frames.
ghost use Rattle.std.specs.Prelude.{◌≡◌, [], IfErr, OnOk, Some};
ghost use Rattle.irtext_tokens.specs.AttrTexts.{attr_at};
ghost use Rattle.irtext_parse_root.specs.Levels.{AreAllNew};
ghost use Rattle.irtext_parse_root.specs.Turned.{AreReady, Finishes, Stops, Spares};

use crate::beside::ended;
use crate::frames::{Frame, Waiting};
use crate::steps::step;
use irtext_base::parsable::ParseResult;
use irtext_base::text::{AttrText, IrText};
use irtext_names::kinds::Names;
use irtext_parse_pieces::keys::Keys;
use irtext_parse_state::parsable::StateStream;

/// Parses the rest of the text of a frame that is the only open one. Every error is committed. On an error, scopes may be left open.
pub(crate) fn items_parse<T: IrText<A>, A: AttrText<A>, U>(
    s: &mut StateStream<'_, T, A, U>,
    names: &mut Names,
    first: Frame,
) -> ParseResult<(), A>
    requires ready { AreReady first [] names.old s.old }
    ensures lent { s.new.state.ctx.ghost_name ≡ s.old.state.ctx.ghost_name }
    ensures finishes { OnOk result (Finishes T.IrText.reading (attr_at A.IrText.reading) first names.old s.old
        names.new s.new) }
    ensures stops { IfErr result (Stops T.IrText.reading (attr_at A.IrText.reading) first []
        names.old s.old) }
    ensures spares { Spares (λ m. AreAllNew m s.old.state.ctx.now.graph (Some first) []) names.old s.old.state
        result names.new s.new.state }
{
    let alloc = s.stream.allocator();
    let mut keys = Keys::new(alloc);
    let mut frames = Waiting::new(alloc);
    let mut next = Some(first);
    while let Some(frame) = next {
        match step(s, names, &mut keys, &mut frames, frame) {
            Ok(inner) => next = inner,
            Err(fault) => return ended(Err(fault), (keys, frames)),
        }
    }
    ended(Ok(()), (keys, frames))
}
