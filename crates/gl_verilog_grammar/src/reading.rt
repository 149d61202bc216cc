//! From tokens to a written module, with what is open on a stack: one step for each token.

ghost use Rattle.std.specs.Prelude.{◌≡◌, ◌<◌, option_map, IfOk, IfErr, MatchResult, Some, None};
ghost use Rattle.gl_verilog_grammar.specs.Machine as machine;
ghost use Rattle.gl_verilog_tokens.specs.View.{token_of, tokens_in, expr_of, name_of, range_of, item_of, module_of};
ghost use Rattle.gl_verilog_grammar.specs.Counting.{IsWithin};
ghost use Rattle.gl_verilog_grammar.specs.Answers.{Goes, StopsAt, IsRead, stand, read_all};
ghost use Rattle.gl_verilog_grammar.specs.View.{frame_of, plain_of, stage_of, view, Moves};

use crate::counting::Counter;
use crate::frames::Frame;
use crate::matching::is_mark;
use crate::next::next_stage;
use crate::stacks::{boxed, put};
use crate::stage::{Plain, Stage};
use gl_verilog_tokens::{
    Lexeme, Sign, Token, VerilogFault, Word, WrittenExpr, WrittenItem, WrittenModule, WrittenPort,
};
use std::alloc::{AllocError, Global};
use std::mem;

/// What was read so far.
#[derive(Drop)]
pub struct Reading<'a> {
    pub(crate) alloc: Global,
    pub(crate) name: Word<'a>,
    pub(crate) ports: Vec<WrittenPort<'a>>,
    pub(crate) items: Vec<WrittenItem<'a>>,
    pub(crate) stage: Stage<'a>,
    pub(crate) frames: Vec<Frame<'a>>,
}

impl<'a> Reading<'a> {
    #[tactic(auto, using(crate::proofs::Views::stages), unfolding(crate::specs::View::view))]
    pub(crate) fn new(alloc: Global) -> Self
        ensures { view result ≡ machine.start }
    {
        Reading {
            alloc,
            name: Word { bytes: &[], at: 0 },
            ports: Vec::new(alloc),
            items: Vec::new(alloc),
            stage: Stage::Plain(Plain::WantModule),
            frames: Vec::new(alloc),
        }
    }

    #[tactic(auto, unfolding(crate::specs::View::view))]
    pub(crate) fn goto(&mut self, stage: Stage<'a>) -> Result<bool, AllocError>
        ensures { Moves result (machine.goto (view self.old) (stage_of stage.entry))
            (view self.new) }
    {
        mem::drop(mem::replace(&mut self.stage, stage));
        Ok(true)
    }

    #[tactic(auto, using(crate::proofs::Views::stages))]
    pub(crate) fn at(&mut self, plain: Plain<'a>) -> Result<bool, AllocError>
        ensures { Moves result (machine.goto (view self.old) (plain_of plain.entry))
            (view self.new) }
    {
        self.goto(Stage::Plain(plain))
    }

    // Goes to the next stage, where there is one.
    pub(crate) fn go(&mut self, next: Option<Plain<'a>>) -> Result<bool, AllocError>
        ensures { Moves result (machine.go (option_map plain_of next.entry) (view self.old))
            (view self.new) }
    {
        match next {
            Some(plain) => self.at(plain),
            None => Ok(false),
        }
    }

    // A frame more, and an operand is wanted.
    #[tactic(auto, using(crate::proofs::Views::stages, crate::proofs::Stack::pushes), unfolding(crate::specs::View::view))]
    pub(crate) fn push(&mut self, frame: Frame<'a>) -> Result<bool, AllocError>
        ensures { Moves result (machine.push (view self.old) (frame_of frame.entry))
            (view self.new) }
    {
        put(&mut self.frames, frame)?;
        self.at(Plain::WantOperand)
    }

    // An operand is complete.
    #[tactic(auto, using(crate::proofs::Views::stages))]
    pub(crate) fn close(&mut self, operand: Box<WrittenExpr<'a>>) -> Result<bool, AllocError>
        ensures { Moves result (machine.close (view self.old) (expr_of operand.entry.value))
            (view self.new) }
    {
        self.goto(Stage::HaveOperand(operand))
    }

    // An operand that holds no other is complete.
    #[tactic(auto, using(crate::proofs::Views::stages))]
    pub(crate) fn close_leaf(&mut self, operand: WrittenExpr<'a>) -> Result<bool, AllocError>
        ensures { Moves result (machine.close (view self.old) (expr_of operand.entry))
            (view self.new) }
    {
        let operand = boxed(self.alloc, operand)?;
        self.close(operand)
    }

    #[tactic(auto, using(crate::proofs::Views::stages, crate::proofs::Stack::pushes), unfolding(crate::specs::View::view))]
    pub(crate) fn put_item(&mut self, item: WrittenItem<'a>) -> Result<bool, AllocError>
        ensures { Moves result (Some (machine.with_item (view self.old) (item_of item.entry)))
            (view self.new) }
    {
        put(&mut self.items, item)?;
        self.at(Plain::WantItem)
    }

    pub(crate) fn push_if(&mut self, stands: bool, frame: Frame<'a>) -> Result<bool, AllocError>
        ensures { Moves result (machine.push_if stands (frame_of frame.entry) (view self.old))
            (view self.new) }
    {
        if stands {
            self.push(frame)
        } else {
            mem::drop(frame);
            Ok(false)
        }
    }
}

impl<'a> Reading<'a> {
    #[tactic(auto, using(gl_verilog_tokens::proofs::Views::items))]
    fn memory_end(
        &mut self,
        range: Option<Word<'a>>,
        name: Word<'a>,
        last: Word<'a>,
        token: Token<'a>,
    ) -> Result<bool, AllocError>
        ensures { Moves result (machine.step_at
            (machine.WantMemoryEnd (range_of range.entry) (name_of name.entry) (name_of last.entry))
            (view self.old) (token_of token.entry)) (view self.new) }
    {
        if is_mark(token, Sign::Semicolon) {
            self.put_item(WrittenItem::MemoryOf { range, name, last })
        } else {
            Ok(false)
        }
    }

    #[tactic(auto, using(gl_verilog_tokens::proofs::Views::exprs))]
    fn part_end(
        &mut self,
        name: Word<'a>,
        high: Word<'a>,
        low: Word<'a>,
        token: Token<'a>,
    ) -> Result<bool, AllocError>
        ensures { Moves result (machine.step_at
            (machine.AtPart (name_of name.entry) (name_of high.entry) (name_of low.entry))
            (view self.old) (token_of token.entry)) (view self.new) }
    {
        if is_mark(token, Sign::CloseBracket) {
            self.close_leaf(WrittenExpr::PartOf { name, high, low })
        } else {
            Ok(false)
        }
    }

    // Takes a token at a stage that holds words alone.
    #[tactic(auto, using(crate::proofs::Views::plains, crate::proofs::Views::frames), unfolding(crate::specs::View::plain_of))]
    fn take_plain(
        &mut self,
        plain: Plain<'a>,
        at: usize,
        token: Token<'a>,
    ) -> Result<bool, AllocError>
        ensures { Moves result (machine.step_at (plain_of plain.entry) (view self.old)
            (token_of token.entry)) (view self.new) }
    {
        match plain {
            Plain::WantTitle => self.want_title(token),
            Plain::Declaring(owner) => self.declaring(owner, token),
            Plain::WantName(owner, range) => self.want_name(owner, range, token),
            Plain::WantMemoryEnd(range, name, last) => self.memory_end(range, name, last, token),
            Plain::WantEquals(target) => self.push_if(
                is_mark(token, Sign::Equals),
                Frame::AssignTo(target),
            ),
            Plain::WantEdgeEnd(clock) => self.body_if(is_mark(token, Sign::CloseParen), clock),
            Plain::WantStatement => self.want_statement(at, token),
            Plain::AfterTarget(target) => self.after_target(target, token),
            Plain::WantTest(place) => self.push_if(
                is_mark(token, Sign::OpenParen),
                Frame::IfTest(place),
            ),
            Plain::WantOperand => self.want_operand(at, token),
            Plain::AtIndex(name) => self.at_index(name, at, token),
            Plain::AtPlace(name, place) => self.at_place(name, place, token),
            Plain::AtPart(name, high, low) => self.part_end(name, high, low, token),
            _ => self.go(next_stage(plain, token)),
        }
    }

    #[tactic(auto, using(crate::proofs::Views::frames), unfolding(crate::specs::View::stage_of))]
    fn take_at(&mut self, stage: Stage<'a>, at: usize, token: Token<'a>) -> Result<bool, AllocError>
        ensures { Moves result (machine.step_at (stage_of stage.entry) (view self.old)
            (token_of token.entry)) (view self.new) }
    {
        match stage {
            Stage::Plain(plain) => self.take_plain(plain, at, token),
            Stage::AfterName(sort, range, names) => self.after_name(sort, range, names, token),
            Stage::WantMore(sort, range, names) => self.want_more(sort, range, names, token),
            Stage::WantArrow(target, address) => self.push_if(
                is_mark(token, Sign::LessEquals),
                Frame::UpdateWordTo { target, address },
            ),
            Stage::HaveStatement(statement) => self.have_statement(statement, at, token),
            Stage::HaveOperand(operand) => self.have_token(operand, at, token),
        }
    }

    // Takes a token, or says that it cannot stand there; then the reading is given up.
    #[tactic(auto, unfolding(crate::specs::View::view, crate::specs::Machine::step))]
    pub(crate) fn take(&mut self, lexeme: Lexeme<'a>) -> Result<bool, AllocError>
        ensures { Moves result (machine.step (view self.old) (token_of lexeme.entry.token))
            (view self.new) }
    {
        let stage = mem::replace(&mut self.stage, Stage::Plain(Plain::Complete));
        self.take_at(stage, lexeme.at, lexeme.token)
    }

    // Takes a token within the limits, or says which fault it is.
    fn advance(&mut self, counter: &mut Counter, lexeme: Lexeme<'a>) -> Result<(), VerilogFault>
        requires { IsWithin counter.old }
        ensures within { IfOk result (λ done. IsWithin counter.new) }
        ensures next { IfOk result (λ done. Goes (token_of lexeme.entry.token)
            (stand self.old counter.old) (stand self.new counter.new)) }
        ensures stops { IfErr result (λ e. StopsAt e lexeme.entry.at (token_of lexeme.entry.token)
            (stand self.old counter.old)) }
    {
        let at = lexeme.at as u64;
        if !self.take(lexeme)? {
            return Err(VerilogFault::Syntax { at });
        }
        if counter.passes(lexeme.token) {
            return Err(VerilogFault::TooDeep { at });
        }
        Ok(())
    }

    // The module, where the text may end here.
    #[tactic(auto, unfolding(crate::specs::View::plain_of, crate::specs::View::stage_of, crate::specs::View::view))]
    fn finish(self, end: usize) -> Result<WrittenModule<'a>, VerilogFault>
        ensures { MatchResult result (λ w. machine.finish (view self.entry) ≡ Some (module_of w))
            (λ e. (machine.finish (view self.entry) ≡ None) × (e ≡ VerilogFault.Syntax end)) }
    {
        let Reading {
            name,
            ports,
            items,
            stage,
            frames,
            ..
        } = self;
        mem::drop(frames);
        match stage {
            Stage::Plain(Plain::Complete) => {
                mem::drop(stage);
                Ok(WrittenModule { name, ports, items })
            }
            other => {
                mem::drop(other);
                mem::drop(ports);
                mem::drop(items);
                Err(VerilogFault::Syntax { at: end as u64 })
            }
        }
    }
}

/// The written module of the tokens, or the first token that cannot stand there or passes a limit.
/// `end` is the length of the text.
pub fn written_of<'a>(
    alloc: Global,
    lexemes: &[Lexeme<'a>],
    end: usize,
) -> Result<WrittenModule<'a>, VerilogFault>
    ensures { IsRead result lexemes.now end (read_all (tokens_in lexemes.now)) }
{
    let mut reading = Reading::new(alloc);
    let mut counter = Counter::new();
    for lexeme in lexemes {
        match reading.advance(&mut counter, *lexeme) {
            Ok(()) => {}
            Err(fault) => {
                mem::drop(reading);
                return Err(fault);
            }
        }
    }
    reading.finish(end)
}
