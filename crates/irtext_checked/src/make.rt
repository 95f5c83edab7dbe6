//! Making operations and blocks: with what is known to be in the context, and operations whose operands and successors need not be known
//! to be in it.

pub mod bare;
pub mod block;
pub mod operation;

pub use bare::NewBareOperation;
pub use block::NewBlock;
pub use operation::{NewOperation, TryNewOperation};
