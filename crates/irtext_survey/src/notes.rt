//! What is noted of one name while a root is parsed once more, and what the notes say of the scopes of the name.
ghost use Rattle.std.specs.Prelude.{◌≡◌, ◌+◌, ◌<◌, ◌≤◌, ◌^◌, Some, length, slice_get, IfSome};
ghost use Rattle.irtext_survey.specs.Notes.{back_over, first_in_scope, first_unless, first_unresolved, defines};

/// How a name is mentioned.
#[derive(Clone, Copy, PartialEq, Eq)]
pub enum Mention {
    /// As an operand.
    UsesValue,
    /// As a successor.
    UsesLabel,
    /// As the name of a result or of an argument.
    DefinesValue,
    /// As the label of a block.
    DefinesLabel,
}

/// A note. P is the type of places.
#[derive(Clone, Copy)]
pub enum Note<P> {
    /// The name is mentioned, at this place.
    Mentions(Mention, P),
    /// A region begins; whether its operation is isolated from above.
    Enters(bool),
    /// A region ends: the same, and the place of its `{`.
    Leaves(bool, P),
}

impl Mention {
    ghost use Rattle.irtext_survey.specs.Notes.{has_scope, same_mention};

    /// Whether a region has a scope of its own for such a mention: one of labels always, and one of values if its operation is isolated
    /// from above.
    fn has_scope_in(self, isolated: bool) -> bool
        ensures { result ≡ has_scope self isolated }
    {
        match self {
            Mention::UsesValue | Mention::DefinesValue => isolated,
            Mention::UsesLabel | Mention::DefinesLabel => true,
        }
    }

    /// Whether both mentions are of the same kind.
    fn is_like(self, other: Mention) -> bool
        ensures { result ≡ same_mention self other }
    {
        match self {
            Mention::UsesValue => matches!(other, Mention::UsesValue),
            Mention::UsesLabel => matches!(other, Mention::UsesLabel),
            Mention::DefinesValue => matches!(other, Mention::DefinesValue),
            Mention::DefinesLabel => matches!(other, Mention::DefinesLabel),
        }
    }
}

/// Goes back over a note. `inner` says in how many scopes inside of the one that is looked at the note is, and `found` is the first
/// mention that was found after it. Returns both as they are before the note, or `None` if the scope begins there.
fn go_back<P: Copy>(
    mention: Mention,
    note: Note<P>,
    inner: usize,
    found: Option<P>,
) -> Option<(usize, Option<P>)>
    requires { inner + 1 < 2 ^ 64 }
    ensures gives { result ≡ back_over mention note (inner, found) }
    ensures within { IfSome result (λ r. r.0 ≤ inner + 1) }
{
    match note {
        Note::Mentions(other, at) => {
            if inner == 0 && other.is_like(mention) {
                return Some((inner, Some(at)));
            }
            Some((inner, found))
        }
        Note::Leaves(isolated, _) => {
            if mention.has_scope_in(isolated) {
                return Some((inner + 1, found));
            }
            Some((inner, found))
        }
        Note::Enters(isolated) => {
            if !mention.has_scope_in(isolated) {
                return Some((inner, found));
            }
            if inner == 0 {
                return None;
            }
            Some((inner - 1, found))
        }
    }
}

/// Returns the note at an index.
pub(crate) fn note_at<P: Copy>(notes: &[Note<P>], index: usize) -> Note<P>
    requires { index < length notes.now }
    ensures { slice_get notes.now index ≡ Some result }
{
    notes[index]
}

/// Returns the first such mention in the scope that is open before the note at this index. Those in scopes inside of it are passed over.
fn in_scope<P: Copy>(notes: &[Note<P>], index: usize, mention: Mention) -> Option<P>
    requires { index ≤ length notes.now }
    ensures { result ≡ first_in_scope mention index notes.now }
{
    let mut left = index;
    let mut inner: usize = 0;
    let mut found = None;
    while left > 0 {
        left -= 1;
        match go_back(mention, note_at(notes, left), inner, found) {
            Some((outer, first)) => {
                inner = outer;
                found = first;
            }
            None => return found,
        }
    }
    found
}

/// Returns the first mention of one kind in the scope, unless it has one of the other kind.
fn unless_in_scope<P: Copy>(
    notes: &[Note<P>],
    index: usize,
    mention: Mention,
    other: Mention,
) -> Option<P>
    requires { index ≤ length notes.now }
    ensures { result ≡ first_unless mention other index notes.now }
{
    match in_scope(notes, index, other) {
        Some(_) => None,
        None => in_scope(notes, index, mention),
    }
}

/// Returns the first use that has no definition in the scopes that end with a region, at the note with this index: of a value, if the
/// region's operation is isolated from above, and otherwise of a label.
pub(crate) fn unresolved<P: Copy>(notes: &[Note<P>], index: usize, isolated: bool) -> Option<P>
    requires { index ≤ length notes.now }
    ensures { result ≡ first_unresolved isolated index notes.now }
{
    let label = unless_in_scope(notes, index, Mention::UsesLabel, Mention::DefinesLabel);
    if !isolated {
        return label;
    }
    match unless_in_scope(notes, index, Mention::UsesValue, Mention::DefinesValue) {
        Some(at) => Some(at),
        None => label,
    }
}

/// Returns the first definition, of the same kind, in the scope that is open before the note with this index.
pub(crate) fn defined<P: Copy>(notes: &[Note<P>], index: usize, mention: Mention) -> Option<P>
    requires { index ≤ length notes.now }
    ensures { result ≡ first_in_scope mention index notes.now }
{
    in_scope(notes, index, mention)
}

/// Whether a mention defines the name.
pub(crate) fn is_definition(mention: Mention) -> bool
    ensures { result ≡ defines mention }
{
    matches!(mention, Mention::DefinesValue | Mention::DefinesLabel)
}
