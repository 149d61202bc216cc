//! Where the reading of a module stands.

ghost use Rattle.std.specs.Prelude.{◌≡◌, option_map};
ghost use Rattle.gl_verilog_grammar.specs.Stages as machine;
ghost use Rattle.gl_verilog_tokens.specs.View.{keyword_of, sign_of, names_of, range_of, item_of};
ghost use Rattle.gl_verilog_grammar.specs.View.{sort_of, owner_of, role_is};

use gl_verilog_tokens::{
    Direction, InfixOp, Keyword, Sign, Word, WrittenExpr, WrittenItem, WrittenStatement,
};

/// What a list of names declares.
#[derive(Clone, Copy)]
pub enum Sort {
    /// Wires.
    WireSort,
    /// Registers.
    RegisterSort,
}

/// What a range and a name belong to.
#[derive(Clone, Copy)]
pub enum Owner {
    /// A port of this direction.
    OfPort(Direction),
    /// An item that declares names of this sort.
    OfItem(Sort),
}

/// What was read last, or is wanted next, where words alone are held.
#[derive(Clone, Copy)]
pub enum Plain<'a> {
    /// `module`
    WantModule,
    /// The name of the module.
    WantTitle,
    /// `(` before the ports.
    WantPorts,
    /// `input` or `output`.
    WantPort,
    /// Behind the word that begins a declaration: another word, a range, or a name.
    Declaring(Owner),
    /// The highest bit of a range.
    WantHigh(Owner),
    /// `:` behind the highest bit.
    WantColon(Owner, Word<'a>),
    /// `0` behind the colon.
    WantZero(Owner, Word<'a>),
    /// `]` behind the range.
    WantClose(Owner, Word<'a>),
    /// The name behind the range, if there was one.
    WantName(Owner, Option<Word<'a>>),
    /// `,` or `)` behind a port.
    AfterPort,
    /// `;` behind the ports.
    AfterPorts,
    /// `0` behind a memory's bracket; the range and the name were read.
    WantFirst(Option<Word<'a>>, Word<'a>),
    /// `:` behind that `0`.
    WantMemoryColon(Option<Word<'a>>, Word<'a>),
    /// The last address of a memory.
    WantLast(Option<Word<'a>>, Word<'a>),
    /// `]` behind a memory's last address.
    WantMemoryClose(Option<Word<'a>>, Word<'a>, Word<'a>),
    /// `;` behind a memory.
    WantMemoryEnd(Option<Word<'a>>, Word<'a>, Word<'a>),
    /// The word that begins an item, or `endmodule`.
    WantItem,
    /// The target behind `assign`.
    WantAssigned,
    /// `=` behind this target.
    WantEquals(Word<'a>),
    /// `@` behind `always`.
    WantAt,
    /// `(` behind `@`.
    WantEdge,
    /// `posedge`
    WantPosedge,
    /// The name of the clock.
    WantClock,
    /// `)` behind this clock.
    WantEdgeEnd(Word<'a>),
    /// A statement.
    WantStatement,
    /// `<=` or `[` behind this target.
    AfterTarget(Word<'a>),
    /// `(` behind an `if`, which stands at this place.
    WantTest(usize),
    /// An operand.
    WantOperand,
    /// A number or an address behind this name and `[`.
    AtIndex(Word<'a>),
    /// `:` or `]` behind this name, `[` and a number.
    AtPlace(Word<'a>, Word<'a>),
    /// The lowest bit behind this name, the highest bit and `:`.
    WantLow(Word<'a>, Word<'a>),
    /// `]` behind this name, its highest and its lowest bit.
    AtPart(Word<'a>, Word<'a>, Word<'a>),
    /// Nothing more: `endmodule` was read.
    Complete,
}

/// What was read last, or is wanted next.
#[derive(Drop)]
pub enum Stage<'a> {
    /// What is wanted where words alone are held.
    Plain(Plain<'a>),
    /// `,` or `;` behind a list of names, or `[` behind the single name of a memory.
    AfterName(Sort, Option<Word<'a>>, Vec<Word<'a>>),
    /// Another name behind a comma.
    WantMore(Sort, Option<Word<'a>>, Vec<Word<'a>>),
    /// `<=` behind a memory's name and the address in brackets.
    WantArrow(Word<'a>, Box<WrittenExpr<'a>>),
    /// What may stand behind this statement.
    HaveStatement(Box<WrittenStatement<'a>>),
    /// What may stand behind this operand.
    HaveOperand(Box<WrittenExpr<'a>>),
}

/// What a sign does behind an operand.
#[derive(Clone, Copy)]
pub enum Role {
    /// It is this operator between two operands.
    IsInfix(InfixOp),
    /// It ends the test of a conditional.
    IsQuestion,
    /// It ends the first value of a conditional.
    IsColon,
    /// It ends a part in braces.
    IsComma,
    /// It closes braces.
    IsBrace,
    /// It closes `(`.
    IsParen,
    /// It closes `[`.
    IsBracket,
    /// It ends an assignment or an update.
    IsSemicolon,
    /// It opens an index.
    IsIndex,
    /// It cannot stand there.
    IsOther,
}

pub(crate) fn role_of(sign: Sign) -> Role
    ensures { role_is result ≡ machine.role_of (sign_of sign) }
{
    match sign {
        Sign::Star => Role::IsInfix(InfixOp::Times),
        Sign::Plus => Role::IsInfix(InfixOp::Added),
        Sign::Minus => Role::IsInfix(InfixOp::Subtracted),
        Sign::Less => Role::IsInfix(InfixOp::Below),
        Sign::LessEquals => Role::IsInfix(InfixOp::AtMost),
        Sign::Greater => Role::IsInfix(InfixOp::Above),
        Sign::GreaterEquals => Role::IsInfix(InfixOp::AtLeast),
        Sign::EqualsEquals => Role::IsInfix(InfixOp::Equal),
        Sign::ExclamationEquals => Role::IsInfix(InfixOp::NotEqual),
        Sign::Ampersand => Role::IsInfix(InfixOp::BitAnd),
        Sign::Caret => Role::IsInfix(InfixOp::BitXor),
        Sign::Bar => Role::IsInfix(InfixOp::BitOr),
        Sign::AmpersandAmpersand => Role::IsInfix(InfixOp::LogicalAnd),
        Sign::BarBar => Role::IsInfix(InfixOp::LogicalOr),
        Sign::Question => Role::IsQuestion,
        Sign::Colon => Role::IsColon,
        Sign::Comma => Role::IsComma,
        Sign::CloseBrace => Role::IsBrace,
        Sign::CloseParen => Role::IsParen,
        Sign::CloseBracket => Role::IsBracket,
        Sign::Semicolon => Role::IsSemicolon,
        Sign::OpenBracket => Role::IsIndex,
        _ => Role::IsOther,
    }
}

#[tactic(auto, unfolding(gl_verilog_tokens::specs::View::item_of))]
pub(crate) fn item_of_names<'a>(
    sort: Sort,
    range: Option<Word<'a>>,
    names: Vec<Word<'a>>,
) -> WrittenItem<'a>
    ensures { item_of result ≡ machine.item_of (sort_of sort) (range_of range.entry)
        (names_of names.entry.items) }
{
    match sort {
        Sort::WireSort => WrittenItem::Wires { range, names },
        Sort::RegisterSort => WrittenItem::Registers { range, names },
    }
}

// `wire` or `reg` behind a direction.
pub(crate) fn with_word(owner: Owner, word: Keyword) -> Option<Owner>
    ensures { option_map owner_of result ≡ machine.with_word (owner_of owner) (keyword_of word) }
{
    match (owner, word) {
        (Owner::OfPort(Direction::In), Keyword::Wire) => Some(Owner::OfPort(Direction::InWire)),
        (Owner::OfPort(Direction::Out), Keyword::Wire) => Some(Owner::OfPort(Direction::OutWire)),
        (Owner::OfPort(Direction::Out), Keyword::Reg) => Some(Owner::OfPort(Direction::OutReg)),
        _ => None,
    }
}
