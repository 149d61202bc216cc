//! Reading expressions.
ghost use Rattle.std.specs.Prelude.{Some};
ghost use Rattle.gl_verilog.specs.Written.{looseness, Assign, Update, UpdateWord};
ghost use Rattle.gl_verilog_grammar.specs.Machine as machine;
ghost use Rattle.gl_verilog_tokens.specs.View.{token_of, infix_of, expr_of, name_of};
ghost use Rattle.gl_verilog_grammar.specs.View.{frames_of, view, closed_of, role_is, Moves};

use crate::closing::{Closed, alone, close_top};
use crate::frames::{Frame, looseness_of, reduce};
use crate::matching::is_mark;
use crate::reading::Reading;
use crate::stacks::{boxed, put};
use crate::stage::{Plain, Role, Stage, role_of};
use gl_verilog_tokens::{
    InfixOp, PrefixOp, Sign, Token, Word, WrittenExpr, WrittenItem, WrittenStatement,
};
use std::alloc::AllocError;
use std::mem;

impl<'a> Reading<'a> {
    // What begins an operand that is more than a token.
    #[tactic(auto, using(crate::proofs::Views::frames))]
    fn at_opening(&mut self, at: usize, token: Token<'a>) -> Result<bool, AllocError>
        ensures { Moves result (machine.at_opening (view self.old) (token_of token.entry))
            (view self.new) }
    {
        if is_mark(token, Sign::OpenParen) {
            return self.push(Frame::InParens);
        }
        if is_mark(token, Sign::OpenBrace) {
            let parts = Vec::new(self.alloc);
            return self.push(Frame::InBraces { at, parts });
        }
        if is_mark(token, Sign::Tilde) {
            let op = PrefixOp::BitNot;
            return self.push(Frame::PrefixOf { op, at });
        }
        if is_mark(token, Sign::Exclamation) {
            let op = PrefixOp::LogicalNot;
            return self.push(Frame::PrefixOf { op, at });
        }
        Ok(false)
    }

    #[tactic(auto, using(crate::proofs::Views::stages, gl_verilog_tokens::proofs::Views::exprs))]
    pub(crate) fn want_operand(&mut self, at: usize, token: Token<'a>) -> Result<bool, AllocError>
        ensures { Moves result (machine.want_operand (view self.old) (token_of token.entry))
            (view self.new) }
    {
        match token {
            Token::Name(name) => self.close_leaf(WrittenExpr::Named(name)),
            Token::Sized {
                size,
                radix,
                digits,
            } => self.close_leaf(WrittenExpr::Constant {
                size,
                radix,
                digits,
            }),
            _ => self.at_opening(at, token),
        }
    }

    #[tactic(auto, using(crate::proofs::Views::frames), unfolding(crate::specs::View::view))]
    fn at_infix(
        &mut self,
        op: InfixOp,
        operand: Box<WrittenExpr<'a>>,
        at: usize,
    ) -> Result<bool, AllocError>
        ensures { Moves result (machine.at_infix (view self.old) (infix_of op)
            (machine.reduce (looseness (infix_of op)) (frames_of self.old.frames.items)
            (expr_of operand.entry.value))) (view self.new) }
    {
        let left = reduce(self.alloc, &mut self.frames, operand, looseness_of(op))?;
        self.push(Frame::InfixOf { op, at, left })
    }

    #[tactic(auto, using(crate::proofs::Views::frames), unfolding(crate::specs::View::view))]
    fn at_question(&mut self, operand: Box<WrittenExpr<'a>>, at: usize) -> Result<bool, AllocError>
        ensures { Moves result (machine.at_question (view self.old)
            (machine.reduce 10 (frames_of self.old.frames.items) (expr_of operand.entry.value)))
            (view self.new) }
    {
        let test = reduce(self.alloc, &mut self.frames, operand, 10)?;
        self.push(Frame::TestOf { at, test })
    }

    // The condition of an `if` is complete.
    #[tactic(auto, using(crate::proofs::Views::stages, crate::proofs::Views::frames, crate::proofs::Stack::pushes), unfolding(crate::specs::View::view))]
    fn end_test(&mut self, at: usize, test: Box<WrittenExpr<'a>>) -> Result<bool, AllocError>
        ensures { Moves result (machine.after_close (view self.old)
            (frames_of self.old.frames.items, machine.ATest (expr_of test.entry.value)))
            (view self.new) }
    {
        put(&mut self.frames, Frame::ThenOf { at, test })?;
        self.at(Plain::WantStatement)
    }

    // An assignment is complete.
    #[tactic(auto, using(gl_verilog_tokens::proofs::Views::items))]
    fn assign(&mut self, target: Word<'a>, value: Box<WrittenExpr<'a>>) -> Result<bool, AllocError>
        ensures { Moves result (Some (machine.with_item (view self.old)
            (Assign (name_of target.entry) (expr_of value.entry.value)))) (view self.new) }
    {
        let value = Box::into_inner(value);
        self.put_item(WrittenItem::Assign { target, value })
    }

    // A register takes a value.
    #[tactic(auto, using(crate::proofs::Views::stages, gl_verilog_tokens::proofs::Views::exprs))]
    fn update(&mut self, target: Word<'a>, value: Box<WrittenExpr<'a>>) -> Result<bool, AllocError>
        ensures { Moves result (machine.goto (view self.old) (machine.HaveStatement
            (Update (name_of target.entry) (expr_of value.entry.value)))) (view self.new) }
    {
        let value = Box::into_inner(value);
        let statement = boxed(self.alloc, WrittenStatement::Update { target, value })?;
        self.goto(Stage::HaveStatement(statement))
    }

    // A word of a memory takes a value.
    #[tactic(auto, using(crate::proofs::Views::stages, gl_verilog_tokens::proofs::Views::exprs))]
    fn update_word(
        &mut self,
        target: Word<'a>,
        address: Box<WrittenExpr<'a>>,
        value: Box<WrittenExpr<'a>>,
    ) -> Result<bool, AllocError>
        ensures { Moves result (machine.goto (view self.old) (machine.HaveStatement
            (UpdateWord (name_of target.entry) (expr_of address.entry.value)
            (expr_of value.entry.value)))) (view self.new) }
    {
        let address = Box::into_inner(address);
        let value = Box::into_inner(value);
        let statement = boxed(
            self.alloc,
            WrittenStatement::UpdateWord {
                target,
                address,
                value,
            },
        )?;
        self.goto(Stage::HaveStatement(statement))
    }

    // What was open on top is closed.
    #[tactic(auto, using(crate::proofs::Views::stages, crate::proofs::Views::frames), unfolding(crate::specs::View::view, crate::specs::View::closed_of))]
    fn after_close(&mut self, closed: Closed<'a>) -> Result<bool, AllocError>
        ensures { Moves result (machine.after_close (view self.old)
            (frames_of self.old.frames.items, closed_of closed.entry)) (view self.new) }
    {
        match closed {
            Closed::AnOperand(operand) => self.close(operand),
            Closed::ATest(at, test) => self.end_test(at, test),
            Closed::AnAddress(target, address) => self.goto(Stage::WantArrow(target, address)),
            Closed::AnAssignment(target, value) => self.assign(target, value),
            Closed::AnUpdate(target, value) => self.update(target, value),
            Closed::AWordUpdate {
                target,
                address,
                value,
            } => self.update_word(target, address, value),
            Closed::AnotherPart { at, test, yes } => self.push(Frame::ColonOf { at, test, yes }),
            Closed::FurtherParts { at, parts } => self.push(Frame::InBraces { at, parts }),
            Closed::Unclosed => {
                mem::drop(closed);
                Ok(false)
            }
        }
    }

    // A sign behind a whole expression.
    #[tactic(auto, unfolding(crate::specs::View::view))]
    fn at_close(&mut self, role: Role, operand: Box<WrittenExpr<'a>>) -> Result<bool, AllocError>
        ensures { Moves result (machine.after_close (view self.old)
            (machine.close_top (role_is role)
            (machine.reduce 11 (frames_of self.old.frames.items) (expr_of operand.entry.value))))
            (view self.new) }
    {
        let closed = close_top(self.alloc, &mut self.frames, role, operand)?;
        self.after_close(closed)
    }

    #[tactic(auto, using(crate::proofs::Views::stages))]
    fn indexed(&mut self, operand: Box<WrittenExpr<'a>>) -> Result<bool, AllocError>
        ensures { Moves result (machine.indexed (view self.old) (expr_of operand.entry.value))
            (view self.new) }
    {
        let name = alone(operand.as_ref());
        mem::drop(operand);
        match name {
            Some(name) => { self.at(Plain::AtIndex(name)) }
            None => Ok(false),
        }
    }

    #[tactic(auto, unfolding(crate::specs::View::view))]
    fn have_operand(
        &mut self,
        operand: Box<WrittenExpr<'a>>,
        at: usize,
        role: Role,
    ) -> Result<bool, AllocError>
        ensures { Moves result (machine.have_operand_by (role_is role) (expr_of operand.entry.value)
            (view self.old)) (view self.new) }
    {
        match role {
            Role::IsInfix(op) => self.at_infix(op, operand, at),
            Role::IsQuestion => self.at_question(operand, at),
            Role::IsColon => self.at_close(Role::IsColon, operand),
            Role::IsComma => self.at_close(Role::IsComma, operand),
            Role::IsBrace => self.at_close(Role::IsBrace, operand),
            Role::IsParen => self.at_close(Role::IsParen, operand),
            Role::IsBracket => self.at_close(Role::IsBracket, operand),
            Role::IsSemicolon => self.at_close(Role::IsSemicolon, operand),
            Role::IsIndex => self.indexed(operand),
            Role::IsOther => {
                mem::drop(operand);
                Ok(false)
            }
        }
    }

    pub(crate) fn have_token(
        &mut self,
        operand: Box<WrittenExpr<'a>>,
        at: usize,
        token: Token<'a>,
    ) -> Result<bool, AllocError>
        ensures { Moves result (machine.have_operand (expr_of operand.entry.value) (view self.old)
            (token_of token.entry)) (view self.new) }
    {
        match token {
            Token::Mark(sign) => self.have_operand(operand, at, role_of(sign)),
            _ => {
                mem::drop(operand);
                Ok(false)
            }
        }
    }

    // An index is a number, or else an expression.
    #[tactic(auto, using(crate::proofs::Views::stages, crate::proofs::Views::frames, crate::proofs::Stack::pushes), unfolding(crate::specs::View::view))]
    pub(crate) fn at_index(
        &mut self,
        name: Word<'a>,
        at: usize,
        token: Token<'a>,
    ) -> Result<bool, AllocError>
        ensures { Moves result (machine.at_index (name_of name.entry) (view self.old)
            (token_of token.entry)) (view self.new) }
    {
        match token {
            Token::Number(place) => self.at(Plain::AtPlace(name, place)),
            _ => {
                put(&mut self.frames, Frame::InIndex(name))?;
                self.want_operand(at, token)
            }
        }
    }

    #[tactic(auto, using(crate::proofs::Views::stages, gl_verilog_tokens::proofs::Views::exprs))]
    pub(crate) fn at_place(
        &mut self,
        name: Word<'a>,
        place: Word<'a>,
        token: Token<'a>,
    ) -> Result<bool, AllocError>
        ensures { Moves result (machine.at_place (name_of name.entry) (name_of place.entry)
            (view self.old) (token_of token.entry)) (view self.new) }
    {
        if is_mark(token, Sign::Colon) {
            return self.at(Plain::WantLow(name, place));
        }
        if is_mark(token, Sign::CloseBracket) {
            return self.close_leaf(WrittenExpr::BitOf { name, place });
        }
        Ok(false)
    }
}
