//! Reading the header and declarations.

ghost use Rattle.std.specs.Prelude.{option_and_then};
ghost use Rattle.gl_verilog.specs.Tokens.{OpenBracket};
ghost use Rattle.gl_verilog_grammar.specs.Machine as machine;
ghost use Rattle.gl_verilog_tokens.specs.View.{token_of, name_of, names_of, range_of};
ghost use Rattle.gl_verilog_grammar.specs.View.{sort_of, owner_of, view, Moves};

use crate::matching::{is_mark, name_in};
use crate::next::{expect, memory_stage, word_stage};
use crate::reading::Reading;
use crate::stacks::{put, with_last};
use crate::stage::{Owner, Plain, Sort, Stage, item_of_names};
use gl_verilog_tokens::{Sign, Token, Word, WrittenPort};
use std::alloc::AllocError;
use std::mem;

impl<'a> Reading<'a> {
    #[tactic(auto, using(crate::proofs::Views::stages), unfolding(crate::specs::View::view))]
    pub(crate) fn want_title(&mut self, token: Token<'a>) -> Result<bool, AllocError>
        ensures { Moves result (option_and_then (machine.titled (view self.old))
            (machine.name_in (token_of token.entry))) (view self.new) }
    {
        match name_in(token) {
            Some(name) => {
                self.name = name;
                self.at(Plain::WantPorts)
            }
            None => Ok(false),
        }
    }

    #[tactic(auto, using(crate::proofs::Views::stages, gl_verilog_tokens::proofs::Views::items, crate::proofs::Stack::pushes), unfolding(crate::specs::View::view))]
    pub(crate) fn named(
        &mut self,
        owner: Owner,
        range: Option<Word<'a>>,
        name: Word<'a>,
    ) -> Result<bool, AllocError>
        ensures { Moves result (machine.named (owner_of owner) (range_of range.entry)
            (name_of name.entry) (view self.old)) (view self.new) }
    {
        match owner {
            Owner::OfPort(direction) => {
                put(
                    &mut self.ports,
                    WrittenPort {
                        direction,
                        range,
                        name,
                    },
                )?;
                self.at(Plain::AfterPort)
            }
            Owner::OfItem(sort) => {
                let names = with_last(Vec::new(self.alloc), name)?;
                self.goto(Stage::AfterName(sort, range, names))
            }
        }
    }

    pub(crate) fn declaring(&mut self, owner: Owner, token: Token<'a>) -> Result<bool, AllocError>
        ensures { Moves result (machine.declaring (owner_of owner) (view self.old)
            (token_of token.entry)) (view self.new) }
    {
        match token {
            Token::Reserved(word) => self.go(word_stage(owner, word)),
            Token::Name(name) => self.named(owner, None, name),
            _ => self.at_range(owner, token),
        }
    }

    #[tactic(auto, using(crate::proofs::Views::stages))]
    fn at_range(&mut self, owner: Owner, token: Token<'a>) -> Result<bool, AllocError>
        ensures { Moves result (machine.go (machine.expect
            (machine.is_mark OpenBracket (token_of token.entry))
            (machine.WantHigh (owner_of owner))) (view self.old)) (view self.new) }
    {
        self.go(expect(is_mark(token, Sign::OpenBracket), Plain::WantHigh(owner)))
    }

    pub(crate) fn want_name(
        &mut self,
        owner: Owner,
        range: Option<Word<'a>>,
        token: Token<'a>,
    ) -> Result<bool, AllocError>
        ensures { Moves result (machine.named_in (owner_of owner) (range_of range.entry)
            (view self.old) (token_of token.entry)) (view self.new) }
    {
        match name_in(token) {
            Some(name) => self.named(owner, range, name),
            None => Ok(false),
        }
    }

    #[tactic(auto, using(crate::proofs::Views::stages))]
    pub(crate) fn after_name(
        &mut self,
        sort: Sort,
        range: Option<Word<'a>>,
        names: Vec<Word<'a>>,
        token: Token<'a>,
    ) -> Result<bool, AllocError>
        ensures { Moves result (machine.after_name (sort_of sort) (range_of range.entry)
            (names_of names.entry.items) (view self.old) (token_of token.entry)) (view self.new) }
    {
        if is_mark(token, Sign::Comma) {
            return self.goto(Stage::WantMore(sort, range, names));
        }
        if is_mark(token, Sign::OpenBracket) {
            let next = memory_stage(sort, range, names.as_slice());
            mem::drop(names);
            return self.go(next);
        }
        if is_mark(token, Sign::Semicolon) {
            return self.put_item(item_of_names(sort, range, names));
        }
        mem::drop(names);
        Ok(false)
    }

    #[tactic(auto, using(crate::proofs::Views::stages, crate::proofs::Stack::pushes))]
    pub(crate) fn want_more(
        &mut self,
        sort: Sort,
        range: Option<Word<'a>>,
        names: Vec<Word<'a>>,
        token: Token<'a>,
    ) -> Result<bool, AllocError>
        ensures { Moves result (machine.want_more (sort_of sort) (range_of range.entry)
            (names_of names.entry.items) (view self.old) (token_of token.entry)) (view self.new) }
    {
        match name_in(token) {
            Some(name) => {
                let names = with_last(names, name)?;
                self.goto(Stage::AfterName(sort, range, names))
            }
            None => {
                mem::drop(names);
                Ok(false)
            }
        }
    }
}
