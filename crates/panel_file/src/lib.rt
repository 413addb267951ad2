// Panel files: what one holds, and every reason to refuse one.
#![tactic(auto)]

mod field;
pub mod filled;
pub mod kind;
pub mod opened;
pub mod refusal;
mod section;

pub use filled::fill;
pub use kind::Kind;
pub use opened::{PanelFile, enough, open};
pub use refusal::{FileFault, FileRefusal, FillFault, Section};
