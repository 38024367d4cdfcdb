//! The outside of the program: where its bytes come from and where its report goes.
//!
//! Four traits say what the program needs: `Source`, `Sink`, `World` and `Gate`. Their ghost members are
//! what contracts name, so code above is generic over them.
#![tactic(auto)]

mod call_book;
mod files;
mod mem_sink;
mod mem_source;
mod mem_world;
mod plan;
mod refusals;
mod remainder;
mod sure;
mod sure_world;
mod traits;

pub use call_book::CallBook;
pub use files::{MemFile, SureFile};
pub use mem_sink::MemSink;
pub use mem_source::MemSource;
pub use mem_world::MemWorld;
pub use refusals::{Failed, WorldRefused};
pub use sure::{NoGate, SureSink, SureSource};
pub use sure_world::SureWorld;
pub use traits::{Gate, Point, Sink, Source, World};
