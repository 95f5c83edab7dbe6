//! Which cause an error has for worked texts that are no operation, and where. Each function does nothing: its contract is a row that is
//! computed.
ghost use Rattle.std.specs.Prelude.{[], codes, None, Some};
ghost use Rattle.irtext_base.specs.Faults.{NoActiveScope, OwnText, Unexpected, UnregisteredDialect, UnregisteredOp, Word};
ghost use Rattle.irtext_tests_names.specs.CauseRows.{t, Errs};

/// The cause of an error for each of these texts, and what is left of the text at its place: an id whose dialect is not registered; an
/// operation whose id is not, from the names of its results on; the end, and a character, in place of a fixed text; a name outside of
/// every region; and what the parser of types returned.
pub fn causes_of_wrong_texts()
    ensures no_dialect { Errs (codes "x = v.h {}") (UnregisteredDialect (codes "v")) (codes "v.h {}") }
    ensures no_operation { Errs (codes "x = t.z") (UnregisteredOp (t (codes "z"))) (codes "x = t.z") }
    ensures no_brace { Errs (codes "t.h { ^b(): ") (Unexpected None (Word (codes "}"))) [] }
    ensures no_colon { Errs (codes "t.m i") (Unexpected (Some 105) (Word (codes ":"))) (codes "i") }
    ensures no_scope { Errs (codes "t.u x") (NoActiveScope (codes "x")) (codes "x") }
    ensures no_type { Errs (codes "t.m: x") (OwnText (codes "no type")) (codes "x") }
{}
