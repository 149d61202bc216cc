//! Glacier as a library: from the texts of a schema and of a query to the text of a module (`compile`),
//! and from the text of a module to the lines of its runs (`execute`, `run_compiled`, `trace`), or to
//! the dump of one (`dump`, `dump_compiled`).
//!
//! Here belongs what joins the query's side, the hardware's and running. What a statement means and what a
//! circuit does stand below; how a module runs belongs to gl_runner.
#![tactic(auto)]

pub mod below;
pub mod compiling;
pub mod dumping;
pub mod executing;
pub mod fault;
pub mod laws;
pub mod naming;
pub mod querying;
pub mod running;
pub mod text_laws;

pub use compiling::{Compiled, compile_checked};
pub use dumping::{dump, dump_compiled};
pub use executing::{Run, execute};
pub use fault::CompileFault;
pub use gl_runner::{Ending, Outcome, trace};
pub use querying::{compile, compile_query};
pub use running::run_compiled;
pub use text_laws::gaps_are_no_farther;
