//! The law of causes: which causes an error of a text can have, and at which places, whether or not the text is a tree.
ghost use Rattle.std.specs.Prelude.{◌≡◌, ◌++◌, ℕ, Bool, List, Result, IfErr};
ghost use Rattle.irtext_base.specs.declared.parsable.fault.ParseFault.{ParseFault};
ghost use Rattle.irtext_graph.specs.declared.arena.Ptr.{Ptr};
ghost use Rattle.irtext_graph.specs.declared.object.Operation.{Operation};
ghost use Rattle.irtext_graph.specs.declared.object.Region.{Region};
ghost use Rattle.irtext_base.specs.Text.{Text};
ghost use Rattle.irtext_base.specs.Faults.{Fault};
ghost use Rattle.irtext_context.specs.Dialects.{Table};
ghost use Rattle.irtext_tokens.specs.AttrTexts.{attr_at};
ghost use Rattle.irtext_grammar.specs.Names.Acts.{Rule};
ghost use Rattle.irtext_grammar.specs.Entries.{section_at};
ghost use Rattle.irtext_grammar.specs.Promises.Supported.{RefusedAs};
ghost use Rattle.irtext_grammar.specs.Reached.{Stopped, Actions, operation_at, region_at};
ghost use Rattle.irtext_parse_root.specs.Parses.{FirstOfOperation, FirstOfRegion, FirstOfWhole};
ghost use Rattle.irtext_grammar.specs.Promises.ErrorCauses.{CauseAt, CauseAtPlace, HasReason};
ghost use Rattle.irtext_parse_state.specs.declared.parsable.state.StateStream.{StateStream};

use irtext_base::text::{AttrText, IrText};

/// If an operation, a whole text or a region is not parsed, by a call that meets its contract, the cause of the error is one of these: the
/// stream had failed; out of memory; at the error's position there is a character, or the end, which is not what is expected, or a number
/// out of range, or a bad escape; an operation begins there whose id is not registered; the parser of the caller's types or attributes
/// returned the cause there; or it is about a name, a mark, an entry of the section or a key. So it is also for a text that is no tree.
pub fn causes_of_errors<T: IrText<A>, A: AttrText<A>, U>()
    ensures operation { (look : Bool) (old new : StateStream T A U)
        (result : Result (Ptr Operation) (ParseFault A)) →
        FirstOfOperation T.IrText.own A.IrText.own look old result new →
        IfErr result (HasReason old.state.ctx.now.dialects T.IrText.reading A.IrText.reading old.stream) }
    ensures whole_text { (old new : StateStream T A U) (result : Result (Ptr Operation) (ParseFault A)) →
        FirstOfWhole T.IrText.own A.IrText.own old result new →
        IfErr result (HasReason old.state.ctx.now.dialects T.IrText.reading A.IrText.reading old.stream) }
    ensures region { (op : Ptr Operation) (old new : StateStream T A U)
        (result : Result (Ptr Region) (ParseFault A)) →
        FirstOfRegion T.IrText.own A.IrText.own op old result new →
        IfErr result (HasReason old.state.ctx.now.dialects T.IrText.reading A.IrText.reading old.stream) }
{}

/// If a parse of nested text, with any actions, is stuck at a fault of the text, its cause is one that an error of the text can have at its
/// place (`CauseAt`). So it is for the section, whatever marks are recorded, and whatever rules say of the entry of each.
pub fn causes_of_texts<T: IrText<A>, A: AttrText<A>, U>()
    ensures operation { (dialects : List (Text × Table)) (does : Actions T A U) (inside : Bool) (text : Text)
        (s t : U) (cause : Fault) (place : ℕ) →
        operation_at dialects T.reading (attr_at A.reading) does inside text s ≡ Stopped t cause place →
        CauseAtPlace dialects T.reading A.reading text cause place }
    ensures region { (dialects : List (Text × Table)) (does : Actions T A U) (isolated : Bool) (text : Text)
        (s t : U) (cause : Fault) (place : ℕ) →
        region_at dialects T.reading (attr_at A.reading) does isolated text s ≡ Stopped t cause place →
        CauseAtPlace dialects T.reading A.reading text cause place }
    ensures section { (dialects : List (Text × Table)) (marks : List ℕ) (rules : ℕ → Rule A)
        (text upto : Text) (cause : Fault) →
        RefusedAs (section_at (attr_at A.reading) marks rules text) cause upto →
        (left : Text) × (upto ++ left ≡ text) × CauseAt dialects T.reading A.reading text cause left }
{}
