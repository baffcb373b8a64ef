//! Trees as text, with a parenthesis wherever one part stands in another, `{..}` for blocks, and places behind `@`.

use super::shown::Shown;
use ctd_syntax::{
    Action, Assignment, Choice, Command, Compare, Expr, IntArguments, Loop, LoopGuard, Name, Place,
    Program, RegexArguments, Test, Var,
};

// No tree of a program is as deep as this.
const DEPTH: u16 = 2_000;

// Bytes between quotes.
pub(super) fn write_text(out: &mut Shown, bytes: &[u8]) {
    out.put("\"");
    out.put_bytes(bytes);
    out.put("\"");
}

fn write_place(out: &mut Shown, place: Place) {
    out.put_form(format_args!("@{}:{}", place.line, place.column));
}

// Names with commas between them, in parentheses.
fn write_names(out: &mut Shown, names: &[Name]) {
    let mut before = "(";
    for name in names {
        out.put(before);
        out.put_bytes(name.as_slice());
        before = ",";
    }
    out.put(")");
}

#[cycle(expr_text)]
fn write_pair(out: &mut Shown, depth: u16, left: &Expr, sign: &str, right: &Expr) {
    let Some(depth) = depth.checked_sub(1) else {
        return out.put("...");
    };
    out.put("(");
    write_expr(out, depth, left);
    write_operand(out, depth, sign, right);
}

// An operand between its sign and the parenthesis.
#[cycle(expr_text)]
fn write_operand(out: &mut Shown, depth: u16, sign: &str, operand: &Expr) {
    let Some(depth) = depth.checked_sub(1) else {
        return out.put("...");
    };
    out.put(sign);
    write_expr(out, depth, operand);
    out.put(")");
}

// A variable that a command sets.
fn write_var(out: &mut Shown, var: &Var) {
    write_indexed(out, DEPTH, &var.name, var.indices.as_slice());
}

// A name with its indices, of which there may be none.
#[cycle(expr_text)]
fn write_indexed(out: &mut Shown, depth: u16, name: &Name, indices: &[Expr]) {
    let Some(depth) = depth.checked_sub(1) else {
        return out.put("...");
    };
    out.put_bytes(name.as_slice());
    let mut first = true;
    for index in indices {
        out.put(if first { "[" } else { "," });
        write_expr(out, depth, index);
        first = false;
    }
    if !indices.is_empty() {
        out.put("]");
    }
}

#[cycle(expr_text)]
fn write_expr(out: &mut Shown, depth: u16, e: &Expr) {
    let Some(depth) = depth.checked_sub(1) else {
        return out.put("...");
    };
    match e {
        Expr::Numeral(n) => out.put_form(format_args!("{}", n.value())),
        Expr::Text(bytes) => write_text(out, bytes.as_slice()),
        Expr::Name(name) => out.put_bytes(name.as_slice()),
        Expr::Element(v) => write_indexed(out, depth, &v.name, v.indices.as_slice()),
        Expr::Strlen(operand) => write_operand(out, depth, "STRLEN(", operand),
        Expr::Minus(operand) => write_operand(out, depth, "(-", operand),
        Expr::Add(a, b) => write_pair(out, depth, a, "+", b),
        Expr::Sub(a, b) => write_pair(out, depth, a, "-", b),
        Expr::Mul(a, b) => write_pair(out, depth, a, "*", b),
        Expr::Div(a, b) => write_pair(out, depth, a, "/", b),
        Expr::Rem(a, b) => write_pair(out, depth, a, "%", b),
        Expr::Pow(a, b) => write_pair(out, depth, a, "^", b),
    }
}

fn sign_of(by: Compare) -> &'static str {
    match by {
        Compare::Less => "<",
        Compare::Greater => ">",
        Compare::AtMost => "<=",
        Compare::AtLeast => ">=",
        Compare::Equal => "==",
        Compare::Unequal => "!=",
    }
}

fn write_in_array(out: &mut Shown, operand: &Expr, name: &Name) {
    out.put("INARRAY(");
    write_expr(out, DEPTH, operand);
    out.put(",");
    out.put_bytes(name.as_slice());
    out.put(")");
}

#[cycle(test_text)]
fn write_tests(out: &mut Shown, depth: u16, left: &Test, sign: &str, right: &Test) {
    let Some(depth) = depth.checked_sub(1) else {
        return out.put("...");
    };
    out.put("(");
    write_test(out, depth, left);
    out.put(sign);
    write_test(out, depth, right);
    out.put(")");
}

#[cycle(test_text)]
fn write_test(out: &mut Shown, depth: u16, t: &Test) {
    let Some(depth) = depth.checked_sub(1) else {
        return out.put("...");
    };
    match t {
        Test::Or(a, b) => write_tests(out, depth, a, "||", b),
        Test::And(a, b) => write_tests(out, depth, a, "&&", b),
        Test::Not(operand) => {
            out.put("(!");
            write_test(out, depth, operand);
            out.put(")");
        }
        Test::Compare(by, a, b) => write_pair(out, DEPTH, a, sign_of(*by), b),
        Test::Match(operand) => write_operand(out, DEPTH, "MATCH(", operand),
        Test::IsEof => out.put("ISEOF"),
        Test::Unique(names) => {
            out.put("UNIQUE");
            write_names(out, names.as_slice());
        }
        Test::InArray(operand, name) => write_in_array(out, operand, name),
    }
}

// The variable that a command sets, behind a comma, where there is one; and the parenthesis.
fn write_target(out: &mut Shown, target: &Option<Var>) {
    if let Some(var) = target {
        out.put(",");
        write_var(out, var);
    }
    out.put(")");
}

fn write_assignments(out: &mut Shown, list: &[Assignment]) {
    let mut before = "(";
    for one in list {
        out.put(before);
        write_var(out, &one.target);
        out.put("=");
        write_expr(out, DEPTH, &one.value);
        before = ",";
    }
    out.put(")");
}

// Commands with blanks between them.
#[cycle(command_text)]
fn write_commands(out: &mut Shown, depth: u16, list: &[Command]) {
    let Some(depth) = depth.checked_sub(1) else {
        return out.put("...");
    };
    let mut first = true;
    for command in list {
        out.put(if first { "" } else { " " });
        write_command(out, depth, command);
        first = false;
    }
}

// The parenthesis of a loop, its counter with a comma behind it, where there is one, and its count or test.
fn write_guard(out: &mut Shown, repeated: &Loop) {
    out.put("(");
    if let Some(var) = &repeated.counter {
        write_var(out, var);
        out.put(",");
    }
    match &repeated.guard {
        LoopGuard::Times(count) => write_expr(out, DEPTH, count),
        LoopGuard::While(condition) => write_test(out, DEPTH, condition),
    }
}

fn loop_word(repeated: &Loop) -> &'static str {
    match (&repeated.guard, &repeated.counter) {
        (LoopGuard::Times(_), None) => "REP",
        (LoopGuard::Times(_), Some(_)) => "REPI",
        (LoopGuard::While(_), None) => "WHILE",
        (LoopGuard::While(_), Some(_)) => "WHILEI",
    }
}

fn word_of(action: &Action) -> &'static str {
    match action {
        Action::Space => "SPACE",
        Action::Newline => "NEWLINE",
        Action::Eof => "EOF",
        Action::Int(_) => "INT",
        Action::String(_) => "STRING",
        Action::Regex(_) => "REGEX",
        Action::Assert(_) => "ASSERT",
        Action::Set(_) => "SET",
        Action::Unset(_) => "UNSET",
        Action::Loop(repeated) => loop_word(repeated),
        Action::If(_) => "IF",
    }
}

// What stands behind the word of a command that opens no block.
fn write_arguments(out: &mut Shown, action: &Action) {
    match action {
        Action::Space | Action::Newline | Action::Eof | Action::Loop(_) | Action::If(_) => {}
        Action::Int(integer) => write_int(out, integer),
        Action::String(text) => write_operand(out, DEPTH, "(", text),
        Action::Regex(regex) => write_regex(out, regex),
        Action::Assert(condition) => {
            out.put("(");
            write_test(out, DEPTH, condition);
            out.put(")")
        }
        Action::Set(list) => write_assignments(out, list.as_slice()),
        Action::Unset(names) => write_names(out, names.as_slice()),
    }
}

fn write_int(out: &mut Shown, integer: &IntArguments) {
    out.put("(");
    write_expr(out, DEPTH, &integer.low);
    out.put(",");
    write_expr(out, DEPTH, &integer.high);
    write_target(out, &integer.target);
}

fn write_regex(out: &mut Shown, regex: &RegexArguments) {
    let literal = &regex.literal;
    out.put("(");
    write_text(out, literal.bytes.as_slice());
    write_place(out, literal.place);
    out.put_form(format_args!("#{}", regex.number));
    write_target(out, &regex.target);
}

#[cycle(command_text)]
fn write_command(out: &mut Shown, depth: u16, command: &Command) {
    let Some(depth) = depth.checked_sub(1) else {
        return out.put("...");
    };
    out.put(word_of(&command.action));
    write_place(out, command.place);
    match &command.action {
        Action::Loop(repeated) => write_loop(out, depth, repeated),
        Action::If(choice) => write_choice(out, depth, choice),
        other => write_arguments(out, other),
    }
}

// The separator of a loop stands behind a comma, where there is one, and its block in braces.
#[cycle(command_text)]
fn write_loop(out: &mut Shown, depth: u16, repeated: &Loop) {
    let Some(depth) = depth.checked_sub(1) else {
        return out.put("...");
    };
    write_guard(out, repeated);
    if let Some(command) = &repeated.between {
        out.put(",");
        write_command(out, depth, command);
    }
    out.put("){");
    write_commands(out, depth, repeated.body.as_slice());
    out.put("}");
}

#[cycle(command_text)]
fn write_choice(out: &mut Shown, depth: u16, choice: &Choice) {
    let Some(depth) = depth.checked_sub(1) else {
        return out.put("...");
    };
    out.put("(");
    write_test(out, DEPTH, &choice.condition);
    out.put("){");
    write_commands(out, depth, choice.then_do.as_slice());
    out.put("}{");
    write_commands(out, depth, choice.else_do.as_slice());
    out.put("}");
}

// The commands of a program with blanks between them.
pub(super) fn write_program(out: &mut Shown, program: &Program) {
    write_commands(out, DEPTH, program.commands())
}
