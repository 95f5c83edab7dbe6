//! The choice `LinkageKind` of the dialect `llvm`: a word, as a part of other texts.
ghost use Rattle.irtext_syntax.specs.OwnLaws.{own_last};
ghost use Rattle.irtext_syntax.specs.Owns.{ends_text};

use irtext_base::parsable::{ParseResult, TextStream};
use irtext_base::result::Expected;
use irtext_memory::OutOfMemory;
use irtext_syntax::match_text;
use irtext_syntax::part::{Item, Last, Part, Plain};
use irtext_syntax::table::{Choice, table_parse, write_word};

/// One of the words `external`, `private`, `internal`, `available_externally`, `linkonce`, `linkonce_odr`, `weak`, `weak_odr`, `common`,
/// `appending` or `extern_weak`. Another word is an error with the text `Unknown linkage kind ` and the word, at its beginning.
#[derive(Clone, Copy, PartialEq, Eq, Hash, Debug)]
pub enum LinkageKind {
    /// Printed as `external`.
    External,
    /// Printed as `private`.
    Private,
    /// Printed as `internal`.
    Internal,
    /// Printed as `available_externally`.
    AvailableExternally,
    /// Printed as `linkonce`.
    Linkonce,
    /// Printed as `linkonce_odr`.
    LinkonceOdr,
    /// Printed as `weak`.
    Weak,
    /// Printed as `weak_odr`.
    WeakOdr,
    /// Printed as `common`.
    Common,
    /// Printed as `appending`.
    Appending,
    /// Printed as `extern_weak`.
    ExternWeak,
}

impl Choice for LinkageKind {
    ghost use Rattle.irtext_llvm.specs.LinkageKinds.{linkage_kind_word};

    ghost chosen = { linkage_kind_word };

    fn choice(text: &str) -> Option<LinkageKind> {
        match_text!(text; "external" => LinkageKind::External, "private" => LinkageKind::Private,
            "internal" => LinkageKind::Internal,
            "available_externally" => LinkageKind::AvailableExternally,
            "linkonce" => LinkageKind::Linkonce, "linkonce_odr" => LinkageKind::LinkonceOdr,
            "weak" => LinkageKind::Weak, "weak_odr" => LinkageKind::WeakOdr,
            "common" => LinkageKind::Common, "appending" => LinkageKind::Appending,
            "extern_weak" => LinkageKind::ExternWeak)
    }
}

impl<A> Part<A> for LinkageKind {
    ghost use Rattle.irtext_llvm.specs.LinkageKinds.{linkage_kind_at, linkage_kind_text};
    ghost use Rattle.irtext_llvm.specs.LinkageKindLaws.{linkage_kind_law, linkage_kind_decides};

    ghost text = { record { reading = linkage_kind_at; written = linkage_kind_text; ends = ends_text } };

    ghost sound = { record { law = linkage_kind_law; decides = linkage_kind_decides } };

    fn read(stream: &mut TextStream) -> ParseResult<LinkageKind, A> {
        table_parse::<LinkageKind, LinkageKind, A>(
            stream,
            "Unknown linkage kind ",
            Expected::Attribute,
        )
    }

    fn write_text(&self, f: &mut String) -> Result<(), OutOfMemory> {
        match self {
            LinkageKind::External => write_word("external", f),
            LinkageKind::Private => write_word("private", f),
            LinkageKind::Internal => write_word("internal", f),
            LinkageKind::AvailableExternally => write_word("available_externally", f),
            LinkageKind::Linkonce => write_word("linkonce", f),
            LinkageKind::LinkonceOdr => write_word("linkonce_odr", f),
            LinkageKind::Weak => write_word("weak", f),
            LinkageKind::WeakOdr => write_word("weak_odr", f),
            LinkageKind::Common => write_word("common", f),
            LinkageKind::Appending => write_word("appending", f),
            LinkageKind::ExternWeak => write_word("extern_weak", f),
        }
    }
}

impl<A> Item<A> for LinkageKind {
    ghost use Rattle.irtext_llvm.specs.LinkageKindLaws.{linkage_kind_misses};

    ghost misses = { linkage_kind_misses };
}

impl<A> Last<A> for LinkageKind {
    ghost last = { own_last };
}

impl Plain for LinkageKind {}
