//! What `run`, `vcd` and `manyrun` write of what they run.

ghost use Rattle.gl_top_forms.specs.declared.command.Command.TheVariants.{ManyRun, Run, Vcd};
ghost use Rattle.gl_top_forms.specs.Forms.{IsCommand};
ghost use Rattle.gl_top_inputs.specs.Passing.{AreReady, IsReady};

use crate::chain::Runs;
use gl_compiler::laws::dumps_tell;
use gl_compiler::{Outcome, dump_compiled, run_compiled};
use gl_many::run_many;
use gl_outside::{Shelf, Sink};
use gl_top_forms::Taken;
use gl_top_inputs::{Job, KeptTexts, ManyJob, judge_many_run, judge_run};
use gl_top_status::Refusal;
use std::alloc::Global;

/// A compiled query of whose run the lines are written.
#[derive(Drop)]
pub(crate) struct Lines {
    job: Job,
}

/// A compiled query of whose run a value change dump is written.
#[derive(Drop)]
pub(crate) struct Dump {
    job: Job,
}

/// Several compiled queries of whose run the lines are written, each with its query's name.
#[derive(Drop)]
pub(crate) struct NamedLines {
    job: ManyJob,
}

impl Runs for Lines {
    ghost wants = { λ words. IsCommand words Run };

    ghost passes = { λ lines told words. IsReady told words lines.job };

    ghost verilog = { λ lines. lines.job.compiled.text.items };

    fn judge<S: Shelf>(alloc: Global, shelf: &mut S, words: &Taken<'_>) -> Result<Lines, Refusal> {
        let mut kept = KeptTexts::new(alloc);
        let job = judge_run(alloc, shelf, words, &mut kept)?;
        Ok(Lines { job })
    }

    fn text(&self) -> &[u8] {
        self.job.compiled.text()
    }

    fn write<K: Sink>(&self, alloc: Global, words: &Taken<'_>, out: &mut K) -> Outcome {
        let job = &self.job;
        run_compiled(alloc, &job.compiled, &job.beats, words.start(), out)
    }
}

impl Runs for Dump {
    ghost wants = { λ words. IsCommand words Vcd };

    ghost passes = { λ dump told words. IsReady told words dump.job };

    ghost verilog = { λ dump. dump.job.compiled.text.items };

    fn judge<S: Shelf>(alloc: Global, shelf: &mut S, words: &Taken<'_>) -> Result<Dump, Refusal> {
        let mut kept = KeptTexts::new(alloc);
        let job = judge_run(alloc, shelf, words, &mut kept)?;
        Ok(Dump { job })
    }

    fn text(&self) -> &[u8] {
        self.job.compiled.text()
    }

    fn write<K: Sink>(&self, alloc: Global, words: &Taken<'_>, out: &mut K) -> Outcome {
        dumps_tell();
        let job = &self.job;
        dump_compiled(alloc, &job.compiled, &job.beats, words.start(), out)
    }
}

impl Runs for NamedLines {
    ghost wants = { λ words. IsCommand words ManyRun };

    ghost passes = { λ lines told words. AreReady told words lines.job };

    ghost verilog = { λ lines. lines.job.many.text.items };

    fn judge<S: Shelf>(
        alloc: Global,
        shelf: &mut S,
        words: &Taken<'_>,
    ) -> Result<NamedLines, Refusal> {
        let job = judge_many_run(alloc, shelf, words)?;
        Ok(NamedLines { job })
    }

    fn text(&self) -> &[u8] {
        self.job.many.text()
    }

    fn write<K: Sink>(&self, alloc: Global, words: &Taken<'_>, out: &mut K) -> Outcome {
        let job = &self.job;
        run_many(alloc, &job.many, &job.beats, words.start(), out)
    }
}
