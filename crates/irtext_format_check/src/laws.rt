//! Laws of the definitions. Each function does nothing: its contract is what is proved.
ghost use Rattle.std.specs.Prelude.{◌≡◌, ◌↔◌, true, List};
ghost use Rattle.irtext_base.specs.Format.{Directive, c1, c2, c3, c4, c5, c6, c7, c8};
ghost use Rattle.irtext_format_check.specs.Conditions.{C1, C2, C3, C4, C5, C6, C7, C8};

/// Each condition on formats (`c1` to `c8`) is met exactly if what it says about indices, keys and characters (`C1` to `C8`) holds.
pub fn conditions_on_formats()
    ensures literals { (ds : List Directive) → (c1 ds ≡ true) ↔ C1 ds }
    ensures operands { (ds : List Directive) → (c2 ds ≡ true) ↔ C2 ds }
    ensures successors { (ds : List Directive) → (c3 ds ≡ true) ↔ C3 ds }
    ensures result_types { (ds : List Directive) → (c4 ds ≡ true) ↔ C4 ds }
    ensures regions { (ds : List Directive) → (c5 ds ≡ true) ↔ C5 ds }
    ensures attributes { (ds : List Directive) → (c6 ds ≡ true) ↔ C6 ds }
    ensures order { (ds : List Directive) → (c7 ds ≡ true) ↔ C7 ds }
    ensures lists { (ds : List Directive) → (c8 ds ≡ true) ↔ C8 ds }
{}
