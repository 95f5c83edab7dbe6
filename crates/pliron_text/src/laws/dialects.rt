//! Laws of what contexts know of operations, over any dialects. A call that registers an operation leaves the dialects `with_operation`.
ghost use Rattle.std.specs.Prelude.{◌≡◌, Bool, List, Some, cond};
ghost use Rattle.irtext_base.specs.Format.{Format};
ghost use Rattle.irtext_base.specs.Text.{Text};
ghost use Rattle.irtext_base.specs.declared.base.identifier.OpId.{OpId};
ghost use Rattle.irtext_context.specs.Dialects.{Table, same_id};
ghost use Rattle.irtext_context.specs.DialectTable.{registered, with_operation};
ghost use Rattle.irtext_grammar.specs.Graphs.Graph.{Graph};
ghost use Rattle.irtext_alike.specs.Alike.{KnowAlike};
ghost use Rattle.pliron_text.specs.Alike.{AreKnownAlike};

/// Once an operation is registered, what is known of it is the format and the isolation that it was registered with, and of every other
/// operation what was known before.
pub fn registered_next()
    ensures { (dialects : List (Text × Table)) (x : OpId) (format : Format) (isolated : Bool) (id : OpId) →
        registered (with_operation dialects x format isolated) id ≡
        cond (same_id id x) (Some (record { format = format; isolated = isolated })) (registered dialects id) }
{}

/// Whether one operation is registered before another one or after it, the same is known of all operations.
pub fn registered_in_any_order()
    ensures { (dialects : List (Text × Table)) (x y : OpId) (f g : Format) (a b : Bool) → (x ≡ y → ⊥) →
        KnowAlike (with_operation (with_operation dialects x f a) y g b)
        (with_operation (with_operation dialects y g b) x f a) }
{}

/// Dialects that know all operations alike know those of every graph alike, which is what the laws of the round trip ask.
pub fn known_in_every_graph<T, A>()
    ensures { (a b : List (Text × Table)) → KnowAlike a b → (g : Graph T A) → AreKnownAlike a b g }
{}
