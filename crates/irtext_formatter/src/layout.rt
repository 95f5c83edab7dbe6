//! How a text is laid out.

/// How the roots of a text are printed.
#[derive(Clone, Copy, Debug, PartialEq, Eq)]
pub struct Layout {
    /// Whether the locations of operations and blocks are printed. Without them a root needs no section, unless something in it has an
    /// outlined or a print-once attribute. A root without regions is printed with its location all the same if another root follows:
    /// otherwise a list at the root's end would take in the first word of the next root.
    pub locations: bool,
}
