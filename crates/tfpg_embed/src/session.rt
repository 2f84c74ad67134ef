//! A diagnosis that takes one line after the other, as C holds it.

mod asking;
mod calls;
mod events;
mod handle;
mod held;
mod open_session;
mod parts;

pub use asking::{tfpg_index, tfpg_name, tfpg_ranked_at, tfpg_result_of};
pub use calls::{tfpg_block, tfpg_close, tfpg_line, tfpg_open};
pub use events::tfpg_event;
pub use handle::TfpgSession;
