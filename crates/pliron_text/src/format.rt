//! The formats of operations, their notation (`OpFormat::parse`), and the check that a format parses uniquely.

pub use irtext_alike::format::is_same_format;
pub use irtext_base::format::notation::{NotationFault, NotationPart};
pub use irtext_base::format::{Directive, FormatFault, OpFormat};
pub use irtext_format_check::format::check_format;
