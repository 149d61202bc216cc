//! What the texts come to that the words of the command line name: each is read and judged before
//! the next is read.
//!
//! Here belong the order in which texts are judged, what each gives or why it is refused, where a
//! module's text shows that its ports do not fit, and what `figures` and `manyfigures` show. What is done with it belongs to gl_top, what `explain` shows to
//! gl_top_explain, and the line that tells a refusal to gl_top_status.
#![tactic(auto)]

pub mod below;
pub mod figuring;
pub mod judging;
pub mod laws;
pub mod port_fault;
pub mod several;
pub mod simulating;

pub use figuring::{figures_text, many_figures_text};
pub use judging::{Job, KeptTexts, judge_compile, judge_run};
pub use port_fault::fit;
pub use several::{ManyJob, judge_many, judge_many_run};
pub use simulating::{Fitted, Simulation, judge_sim};
