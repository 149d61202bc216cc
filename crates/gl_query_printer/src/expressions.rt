//! Expressions to tokens.

ghost use Rattle.std.specs.Prelude.{◌≡◌, ◌++◌, ◌∷◌, [], OnOk};
ghost use Rattle.gl_query.specs.Shapes.{expr_shape};
ghost use Rattle.gl_query_tokens.specs.declared.token.Token.TheVariants as token;
ghost use Rattle.gl_query_tokens.specs.declared.token.Plain.TheVariants as plain;
ghost use Rattle.gl_schema.specs.SchemaText.{kind_text};
ghost use Rattle.gl_query_reader.specs.Written as written;
ghost use Rattle.gl_query_printer.specs.Canonical.{column_of, expr_of, name_of};

use crate::tokens::{
    close_unless, open_unless, put, put_kind, put_name, put_number, put_open, put_plain,
};
use gl_bits::Memory;
use gl_query::{Expr, Op, TextBytes};
use gl_query_reader::{left_looseness, looseness};
use gl_query_tokens::{Plain, Token};
use gl_values::Kind;
use std::alloc::Global;

// How loose an expression is.
#[tactic(auto, using(crate::proofs::Named::column_level))]
fn level(expr: &Expr) -> u8
    ensures { result ≡ written.level (expr_of (expr_shape expr.now)) }
{
    match expr {
        Expr::Column(_)
        | Expr::Number(_)
        | Expr::Minus(_)
        | Expr::Letters { .. }
        | Expr::Cast { .. } => 0,
        Expr::Flip { .. } => 1,
        Expr::Not { .. } => 9,
        Expr::Binary { op, .. } => looseness(*op),
    }
}

// Puts a column, or a parameter behind its colon.
fn put_column(alloc: Global, tokens: &mut Vec<Token>, name: &[u8]) -> Result<(), Memory>
    ensures { OnOk result (tokens.new.items ≡ tokens.old.items
        ++ written.spell (column_of name.now)) }
{
    match name.split_first() {
        None => put_name(alloc, tokens, name),
        Some((first, rest)) => {
            if *first != b':' {
                return put_name(alloc, tokens, name);
            }
            put(tokens, Token::Colon { at: 0 })?;
            put_name(alloc, tokens, rest)
        }
    }
}

// Puts a text literal.
fn put_letters(alloc: Global, tokens: &mut Vec<Token>, letters: &[u8]) -> Result<(), Memory>
    ensures { OnOk result (tokens.new.items ≡ tokens.old.items ++ token.Letters letters.now 0
        ∷ []) }
{
    let text = TextBytes::from_vec(Vec::from_slice(alloc, letters)?);
    put(tokens, Token::Letters { text, at: 0 })
}

// Puts what stands behind the argument of a CAST.
fn put_cast_end(alloc: Global, tokens: &mut Vec<Token>, kind: Kind) -> Result<(), Memory>
    ensures { OnOk result (tokens.new.items ≡ tokens.old.items ++ token.Plain plain.As
        ∷ token.Name (name_of (kind_text kind)) ∷ token.Plain plain.Close ∷ []) }
{
    put_plain(tokens, Plain::As)?;
    put_kind(alloc, tokens, kind)?;
    put_plain(tokens, Plain::Close)
}

/// Puts an expression, each operand in brackets exactly where it is looser than its place allows.
#[tactic(auto, using(crate::proofs::Operands::operands))]
pub(crate) fn put_expr(alloc: Global, tokens: &mut Vec<Token>, expr: &Expr) -> Result<(), Memory>
    ensures { OnOk result (tokens.new.items ≡ tokens.old.items
        ++ written.spell (expr_of (expr_shape expr.now))) }
{
    match expr {
        Expr::Column(name) => put_column(alloc, tokens, name.text.as_slice()),
        Expr::Number(number) => put_number(tokens, number.value),
        Expr::Minus(number) => {
            put(tokens, Token::Operator { op: Op::Sub, at: 0 })?;
            put_number(tokens, number.value)
        }
        Expr::Letters { text, .. } => put_letters(alloc, tokens, text.as_slice()),
        Expr::Not { arg, .. } => {
            let fits = level(arg) < 9;
            put(tokens, Token::Not { at: 0 })?;
            open_unless(tokens, fits)?;
            put_expr(alloc, tokens, arg)?;
            close_unless(tokens, fits)
        }
        Expr::Flip { arg, .. } => {
            let fits = level(arg) < 2;
            put(tokens, Token::Tilde { at: 0 })?;
            open_unless(tokens, fits)?;
            put_expr(alloc, tokens, arg)?;
            close_unless(tokens, fits)
        }
        Expr::Cast { arg, kind, .. } => {
            put(tokens, Token::Cast { at: 0 })?;
            put_open(tokens)?;
            put_expr(alloc, tokens, arg)?;
            put_cast_end(alloc, tokens, *kind)
        }
        Expr::Binary {
            op,
            left,
            right,
            ..
        } => {
            let left_fits = level(left) <= left_looseness(*op);
            let right_fits = level(right) < looseness(*op);
            open_unless(tokens, left_fits)?;
            put_expr(alloc, tokens, left)?;
            close_unless(tokens, left_fits)?;
            put(tokens, Token::Operator { op: *op, at: 0 })?;
            open_unless(tokens, right_fits)?;
            put_expr(alloc, tokens, right)?;
            close_unless(tokens, right_fits)
        }
    }
}
