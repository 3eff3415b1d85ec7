//! Operators, and how tightly they bind.

ghost use Rattle.std.specs.Prelude.{◌≡◌, ◌≤◌, Some, drop};
ghost use Rattle.std.specs.Option.{option_map};
ghost use Rattle.eif_grammar.specs.ExpressionRules as expression;
ghost use Rattle.eif_grammar.specs.Forms as form;
ghost use Rattle.eif_grammar.specs.Outcomes.{Runs, got};
ghost use Rattle.eif_grammar.specs.Spelling.{head};
ghost use Rattle.eif_parse_expr.specs.Readings.{Leaves};
ghost use Rattle.eif_parse_expr.specs.Subrules as rule;

use crate::look::{after, behind, place_at};
use crate::parsed::Parsed;
use eif_base::Place;
use eif_grammar::Terminal;
use eif_lex::Tokens;
use eif_tree::Op;

/// A binary operator where it stands.
#[derive(Clone, Copy)]
pub struct Sign {
    pub op: Op,
    pub place: Place,
}

/// The second token that an operator may have, and the operator that it then is.
#[derive(Clone, Copy)]
struct SecondToken {
    terminal: Terminal,
    op: Op,
}

fn operator(terminal: Terminal) -> Option<Op>
    ensures { result ≡ form.operator terminal }
{
    match terminal {
        Terminal::Implies => Some(Op::Implies),
        Terminal::Or => Some(Op::Or),
        Terminal::Xor => Some(Op::Xor),
        Terminal::And => Some(Op::And),
        Terminal::Equal => Some(Op::Equal),
        Terminal::NotEqual => Some(Op::NotEqual),
        Terminal::Less => Some(Op::Less),
        Terminal::Greater => Some(Op::Greater),
        Terminal::LessEqual => Some(Op::LessEqual),
        Terminal::GreaterEqual => Some(Op::GreaterEqual),
        Terminal::Plus => Some(Op::Plus),
        Terminal::Minus => Some(Op::Minus),
        Terminal::Times => Some(Op::Times),
        Terminal::Divide => Some(Op::Divide),
        Terminal::Modulo => Some(Op::Modulo),
        Terminal::Power => Some(Op::Power),
        _ => None,
    }
}

/// A sign or `not`, before its operand.
pub fn prefix_operator(terminal: Terminal) -> Option<Op>
    ensures { result ≡ form.prefix_operator terminal }
{
    match terminal {
        Terminal::Not => Some(Op::Not),
        Terminal::Plus => Some(Op::Plus),
        Terminal::Minus => Some(Op::Minus),
        _ => None,
    }
}

/// How tightly an operator binds: 1 is least.
fn level(op: Op) -> u32
    ensures value { result ≡ form.level op }
    ensures most { result ≤ 7 }
{
    match op {
        Op::Implies => 1,
        Op::Or | Op::OrElse | Op::Xor => 2,
        Op::And | Op::AndThen => 3,
        Op::Equal | Op::NotEqual | Op::Less | Op::Greater | Op::LessEqual | Op::GreaterEqual => 4,
        Op::Plus | Op::Minus => 5,
        Op::Times | Op::Divide | Op::Modulo => 6,
        Op::Power => 7,
        Op::Not => 0,
    }
}

/// The least level of the operators in the right operand. `^` alone associates to the right.
pub fn right_level(op: Op) -> u32
    ensures { result ≡ form.right_level op }
{
    match op {
        Op::Power => level(op),
        _ => level(op) + 1,
    }
}

fn second_token(op: Op) -> Option<SecondToken>
    ensures { option_map (λ s. (s.terminal, s.op)) result ≡ expression.second_token op }
{
    match op {
        Op::And => Some(SecondToken {
            terminal: Terminal::Then,
            op: Op::AndThen,
        }),
        Op::Or => Some(SecondToken {
            terminal: Terminal::Else,
            op: Op::OrElse,
        }),
        _ => None,
    }
}

/// The operator that token `at` is or begins, if its level is no lower.
pub fn operator_at(tokens: &Tokens<'_>, at: u32, least: u32) -> Option<Op>
    ensures { result ≡ rule.of_level least (form.operator (head (drop at tokens.now.tokens))) }
{
    match operator(tokens.next_terminal(at)) {
        Some(op) if least <= level(op) => Some(op),
        _ => None,
    }
}

/// The whole operator that token `at` is or begins.
pub fn sign_at(tokens: &Tokens<'_>, at: u32, first: Op) -> Parsed<Sign>
    requires { form.operator (head (drop at tokens.now.tokens)) ≡ Some first }
    ensures { Leaves (Runs (rule.sign first) (drop at tokens.now.tokens)) tokens.now.tokens at result.next (got result.tree) }
{
    let place = place_at(tokens, at);
    let next = after(tokens, at);
    let alone = Parsed {
        tree: Sign { op: first, place },
        next,
        height: 0,
    };
    let Some(second) = second_token(first) else {
        return alone;
    };
    match behind(tokens, next, second.terminal) {
        Some(next) => Parsed {
            tree: Sign {
                op: second.op,
                place,
            },
            next,
            height: 0,
        },
        None => alone,
    }
}
