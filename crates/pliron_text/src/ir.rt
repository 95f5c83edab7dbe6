//! Operations, blocks and regions as text.

pub mod misfit;
pub mod printing;
mod text;

pub use irtext_alike::dialects::same_dialects;
pub use irtext_alike::known::unlike_id;
pub use irtext_alike::root::knows_root;
pub use irtext_alike::unlike::{Unlike, UnlikeOperation};
pub use irtext_checked::context::keeps_parts;
pub use irtext_closed::check::check_closed;
pub use irtext_closed::located::is_located;
pub use irtext_closed::not_closed::NotClosed;
pub use irtext_parse_root::ir::read::OperationParserConfig;
pub use irtext_print_ir::ir::print::debug::{OpDbg, print_dbg, print_elided};
pub use irtext_print_ir::ir::print::{
    OpObj, print_block, print_concrete, print_region, print_root,
};
pub use irtext_print_ir::ir::verify::{BasicBlockVerifyErr, DefUseVerifyErr};
pub use irtext_print_ops::fits::{FitFault, check_fits};
pub use misfit::first_misfit;
pub use printing::{Misfit, PrintError, ToText};
pub use text::OperationText;
