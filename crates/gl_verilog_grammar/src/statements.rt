//! Reading items and statements.
ghost use Rattle.std.specs.Prelude.{map};
ghost use Rattle.gl_verilog.specs.Written.{Always, Block, listed};
ghost use Rattle.gl_verilog_grammar.specs.Machine as machine;
ghost use Rattle.gl_verilog_tokens.specs.View.{token_of, statement_of, name_of};
ghost use Rattle.gl_verilog_grammar.specs.View.{frames_of, view, Moves};

use crate::frames::{Frame, Stated, end_ifs, end_statement, take_else};
use crate::matching::{is_mark, is_word};
use crate::next::item_stage;
use crate::reading::Reading;
use crate::stacks::{boxed, put};
use crate::stage::{Plain, Stage};
use gl_verilog_tokens::{Keyword, Sign, Token, Word, WrittenItem, WrittenStatement};
use std::alloc::AllocError;
use std::mem;

impl<'a> Reading<'a> {
    #[tactic(auto, using(crate::proofs::Views::stages, crate::proofs::Views::frames, crate::proofs::Stack::pushes), unfolding(crate::specs::View::view))]
    pub(crate) fn body_if(&mut self, stands: bool, clock: Word<'a>) -> Result<bool, AllocError>
        ensures { Moves result (machine.body_if stands (name_of clock.entry) (view self.old))
            (view self.new) }
    {
        if !stands {
            return Ok(false);
        }
        put(&mut self.frames, Frame::BodyOf(clock))?;
        self.at(Plain::WantStatement)
    }

    // A block of these statements is complete.
    #[tactic(auto, using(crate::proofs::Views::stages, gl_verilog_tokens::proofs::Views::exprs, crate::proofs::Stack::pushes))]
    fn end_list(&mut self, done: Vec<WrittenStatement<'a>>) -> Result<bool, AllocError>
        ensures { Moves result (machine.goto (view self.old) (machine.HaveStatement
            (Block (listed (map statement_of done.entry.items))))) (view self.new) }
    {
        let block = boxed(self.alloc, WrittenStatement::Block(done))?;
        self.goto(Stage::HaveStatement(block))
    }

    #[tactic(auto, using(crate::proofs::Stack::pushes), unfolding(crate::specs::View::view, crate::specs::View::frame_of))]
    fn end_block(&mut self) -> Result<bool, AllocError>
        ensures { Moves result (machine.end_block (frames_of self.old.frames.items) (view self.old))
            (view self.new) }
    {
        match self.frames.pop() {
            Some(Frame::InBegin(done)) => self.end_list(done),
            other => {
                mem::drop(other);
                Ok(false)
            }
        }
    }

    #[tactic(auto, using(crate::proofs::Views::stages, crate::proofs::Views::frames, crate::proofs::Stack::pushes), unfolding(crate::specs::View::view))]
    fn begin_block(&mut self) -> Result<bool, AllocError>
        ensures { Moves result (machine.begun (view self.old)) (view self.new) }
    {
        put(&mut self.frames, Frame::InBegin(Vec::new(self.alloc)))?;
        self.at(Plain::WantStatement)
    }

    // A word that begins a statement, or ends a block.
    #[tactic(auto, using(crate::proofs::Views::stages), unfolding(crate::specs::View::view))]
    fn at_word(&mut self, at: usize, token: Token<'a>) -> Result<bool, AllocError>
        ensures { Moves result (machine.at_word (view self.old) (token_of token.entry))
            (view self.new) }
    {
        if is_word(token, Keyword::If) {
            return self.at(Plain::WantTest(at));
        }
        if is_word(token, Keyword::Begin) {
            return self.begin_block();
        }
        if is_word(token, Keyword::End) {
            return self.end_block();
        }
        Ok(false)
    }

    #[tactic(auto, using(crate::proofs::Views::stages))]
    pub(crate) fn want_statement(&mut self, at: usize, token: Token<'a>) -> Result<bool, AllocError>
        ensures { Moves result (machine.want_statement (view self.old) (token_of token.entry))
            (view self.new) }
    {
        match token {
            Token::Name(name) => self.at(Plain::AfterTarget(name)),
            _ => self.at_word(at, token),
        }
    }

    #[tactic(auto, using(crate::proofs::Views::frames))]
    pub(crate) fn after_target(
        &mut self,
        target: Word<'a>,
        token: Token<'a>,
    ) -> Result<bool, AllocError>
        ensures { Moves result (machine.after_target (name_of target.entry) (view self.old)
            (token_of token.entry)) (view self.new) }
    {
        if is_mark(token, Sign::LessEquals) {
            return self.push(Frame::UpdateTo(target));
        }
        self.push_if(is_mark(token, Sign::OpenBracket), Frame::AddressFor(target))
    }

    // An item with a body is complete, and the token begins what follows it.
    #[tactic(auto, using(crate::proofs::Stack::pushes, gl_verilog_tokens::proofs::Views::items), unfolding(crate::specs::View::view))]
    fn end_always(
        &mut self,
        clock: Word<'a>,
        body: Box<WrittenStatement<'a>>,
        token: Token<'a>,
    ) -> Result<bool, AllocError>
        ensures { Moves result (machine.after_stated (view self.old)
            (frames_of self.old.frames.items) (machine.AsBody
            (Always (name_of clock.entry) (statement_of body.entry.value)))
            (token_of token.entry)) (view self.new) }
    {
        let body = Box::into_inner(body);
        put(&mut self.items, WrittenItem::Always { clock, body })?;
        self.go(item_stage(token))
    }

    // A statement is complete, and the token begins what follows it.
    #[tactic(auto, using(crate::proofs::Views::frames, crate::proofs::Stack::pushes), unfolding(crate::specs::View::view, crate::specs::View::stated_of))]
    pub(crate) fn after_statement(
        &mut self,
        statement: Box<WrittenStatement<'a>>,
        at: usize,
        token: Token<'a>,
    ) -> Result<bool, AllocError>
        ensures { Moves result (machine.after_statement (view self.old)
            (frames_of self.old.frames.items) (statement_of statement.entry.value)
            (token_of token.entry))
            (view self.new) }
    {
        let Some(frame) = self.frames.pop() else {
            mem::drop(statement);
            return Ok(false);
        };
        let stated = end_statement(frame, statement)?;
        match stated {
            Stated::InList(done) => {
                put(&mut self.frames, Frame::InBegin(done))?;
                self.want_statement(at, token)
            }
            Stated::AsBody(clock, body) => self.end_always(clock, body, token),
            Stated::Nowhere => {
                mem::drop(stated);
                Ok(false)
            }
        }
    }

    #[tactic(auto, using(crate::proofs::Views::stages), unfolding(crate::specs::View::view))]
    fn after_else(&mut self, statement: Box<WrittenStatement<'a>>) -> Result<bool, AllocError>
        ensures { Moves result (machine.after_else (view self.old)
            (machine.at_else (frames_of self.old.frames.items)
            (statement_of statement.entry.value)))
            (view self.new) }
    {
        if take_else(self.alloc, &mut self.frames, statement)? {
            self.at(Plain::WantStatement)
        } else {
            Ok(false)
        }
    }

    #[tactic(auto, unfolding(crate::specs::View::view))]
    pub(crate) fn have_statement(
        &mut self,
        statement: Box<WrittenStatement<'a>>,
        at: usize,
        token: Token<'a>,
    ) -> Result<bool, AllocError>
        ensures { Moves result (machine.have_statement (statement_of statement.entry.value)
            (view self.old) (token_of token.entry)) (view self.new) }
    {
        if is_word(token, Keyword::Else) {
            return self.after_else(statement);
        }
        let statement = end_ifs(self.alloc, &mut self.frames, statement)?;
        self.after_statement(statement, at, token)
    }
}
