//! The trees of programs: one variant for each alternative of the grammar that is not a single part or parentheses
//! (docs/LANGUAGE.md, grammar). Each list in a tree is a small type of its own.
//!
//! Destructors are written out, and not derived, so that the crates above prove nothing of how a tree is dropped.

ghost use Rattle.std.specs.Prelude.{◌≡◌};
ghost use Rattle.ctd_program.specs.calls.View.{commands_of};

use crate::numeral::Numeral;
use ctd_token::{Bytes, Name, Place};
use std::marker::Model;

/// An expression.
#[cycle(expr)]
pub enum Expr {
    /// The value of a variable without indices.
    Name(Name),
    /// A number as written.
    Numeral(Numeral),
    /// A string as it stands for.
    Text(Bytes),
    /// The value of a variable at its indices.
    Element(Box<Element>),
    /// `STRLEN(e)`: the length of a string in bytes.
    Strlen(Box<Expr>),
    /// `-e`
    Minus(Box<Expr>),
    /// `a + b`
    Add(Box<Expr>, Box<Expr>),
    /// `a - b`
    Sub(Box<Expr>, Box<Expr>),
    /// `a * b`
    Mul(Box<Expr>, Box<Expr>),
    /// `a / b`
    Div(Box<Expr>, Box<Expr>),
    /// `a % b`
    Rem(Box<Expr>, Box<Expr>),
    /// `a ^ b`
    Pow(Box<Expr>, Box<Expr>),
}

impl Drop for Expr {
    #[cycle(expr)]
    fn drop(self) {
        match self {
            Expr::Name(_) | Expr::Numeral(_) | Expr::Text(_) => {}
            Expr::Element(_) | Expr::Strlen(_) | Expr::Minus(_) => {}
            Expr::Add(_, _) | Expr::Sub(_, _) | Expr::Mul(_, _) => {}
            Expr::Div(_, _) | Expr::Rem(_, _) | Expr::Pow(_, _) => {}
        }
    }
}

/// An element of an array: a name with its indices.
#[cycle(expr)]
pub struct Element {
    pub name: Name,
    pub indices: Exprs,
}

impl Drop for Element {
    #[cycle(expr)]
    fn drop(self) {
        let Element {
            name: _,
            indices: _,
        } = self;
    }
}

/// A list of expressions.
#[cycle(expr)]
pub struct Exprs {
    items: Vec<Expr>,
}

impl Drop for Exprs {
    #[cycle(expr)]
    fn drop(self) {
        let Exprs { items: _ } = self;
    }
}

/// A variable that a command sets: a name with its indices, of which an unindexed variable has none.
#[derive(Drop)]
pub struct Var {
    pub name: Name,
    pub indices: Exprs,
}

/// The six comparisons.
#[derive(Clone, Copy)]
pub enum Compare {
    Less,
    Greater,
    AtMost,
    AtLeast,
    Equal,
    Unequal,
}

/// A list of names.
pub struct Names {
    items: Vec<Name>,
}

impl Drop for Names {
    fn drop(self) {
        let Names { items: _ } = self;
    }
}

/// A test.
pub enum Test {
    /// `a || b`
    Or(Box<Test>, Box<Test>),
    /// `a && b`
    And(Box<Test>, Box<Test>),
    /// `!t`
    Not(Box<Test>),
    /// `a < b` and the other five
    Compare(Compare, Expr, Expr),
    /// `MATCH(e)`: the next byte is one of the bytes of e.
    Match(Expr),
    /// `ISEOF`: the end of the data is reached.
    IsEof,
    /// `UNIQUE(a,b,..)`: the tuples of the values at the same indices are distinct.
    Unique(Names),
    /// `INARRAY(e,name)`: the value occurs among the values of the name.
    InArray(Expr, Name),
}

impl Drop for Test {
    fn drop(self) {
        match self {
            Test::IsEof | Test::Match(_) | Test::Unique(_) => {}
            Test::Compare(_, _, _) | Test::InArray(_, _) => {}
            Test::Or(_, _) | Test::And(_, _) | Test::Not(_) => {}
        }
    }
}

/// A variable and the expression whose value it gets.
pub struct Assignment {
    pub target: Var,
    pub value: Expr,
}

impl Drop for Assignment {
    fn drop(self) {
        let Assignment {
            target: _,
            value: _,
        } = self;
    }
}

/// A list of assignments.
pub struct Assignments {
    items: Vec<Assignment>,
}

impl Drop for Assignments {
    fn drop(self) {
        let Assignments { items: _ } = self;
    }
}

/// The literal of a REGEX.
pub struct PatternLiteral {
    pub bytes: Bytes,
    /// The place of its opening quote.
    pub place: Place,
}

impl Drop for PatternLiteral {
    fn drop(self) {
        let PatternLiteral { bytes: _, place: _ } = self;
    }
}

/// What INT takes: the least and the greatest integer, and the variable that gets what it reads, if there is one.
pub struct IntArguments {
    pub low: Expr,
    pub high: Expr,
    pub target: Option<Var>,
}

impl Drop for IntArguments {
    fn drop(self) {
        let IntArguments {
            low: _,
            high: _,
            target: _,
        } = self;
    }
}

/// What REGEX takes: its literal, and the variable that gets what it matches, if there is one.
pub struct RegexArguments {
    /// The number of its literal: 0, 1, 2, .. in the order of the text, one for all that are written alike. It is a hint for those who look
    /// up its pattern, of which no contract says anything.
    pub number: u32,
    pub literal: PatternLiteral,
    pub target: Option<Var>,
}

impl Drop for RegexArguments {
    fn drop(self) {
        let RegexArguments {
            number: _,
            literal: _,
            target: _,
        } = self;
    }
}

/// A command, with the place of its word.
#[cycle(command)]
pub struct Command {
    pub place: Place,
    pub action: Action,
}

impl Drop for Command {
    #[cycle(command)]
    fn drop(self) {
        let Command {
            place: _,
            action: _,
        } = self;
    }
}

/// What a command does. The separator of a loop may be absent. What a command takes is boxed: an enum is as large as its largest
/// variant.
#[cycle(command)]
pub enum Action {
    /// `SPACE`
    Space,
    /// `NEWLINE`
    Newline,
    /// `EOF`
    Eof,
    /// `INT(min,max[,target])`
    Int(Box<IntArguments>),
    /// `STRING(e)`
    String(Box<Expr>),
    /// `REGEX(pattern[,target])`
    Regex(Box<RegexArguments>),
    /// `ASSERT(t)`
    Assert(Box<Test>),
    /// `SET(v = e, ..)`
    Set(Box<Assignments>),
    /// `UNSET(a, ..)`
    Unset(Box<Names>),
    /// `REP(count[,separator]) .. END`, `REPI(counter,count[,separator]) .. END`, `WHILE(t[,separator]) .. END` and
    /// `WHILEI(counter,t[,separator]) .. END`
    Loop(Box<Loop>),
    /// `IF(t) .. [ELSE ..] END`
    If(Box<Choice>),
}

impl Drop for Action {
    #[cycle(command)]
    fn drop(self) {
        match self {
            Action::Space | Action::Newline | Action::Eof => {}
            Action::Int(_) | Action::String(_) | Action::Regex(_) => {}
            Action::Assert(_) | Action::Set(_) | Action::Unset(_) => {}
            Action::Loop(_) | Action::If(_) => {}
        }
    }
}

/// How long a loop goes on.
pub enum LoopGuard {
    /// `REP`, `REPI`: for a number of turns.
    Times(Box<Expr>),
    /// `WHILE`, `WHILEI`: as long as the test is true.
    While(Box<Test>),
}

impl Drop for LoopGuard {
    fn drop(self) {
        match self {
            LoopGuard::Times(_) | LoopGuard::While(_) => {}
        }
    }
}

/// A loop.
#[cycle(command)]
pub struct Loop {
    /// How long it goes on.
    pub guard: LoopGuard,
    /// `REPI`, `WHILEI`: the variable that gets the number of each turn.
    pub counter: Option<Box<Var>>,
    /// The command that is done between two turns, if there is one.
    pub between: Option<Box<Command>>,
    /// The commands that each turn does.
    pub body: Commands,
}

impl Drop for Loop {
    #[cycle(command)]
    fn drop(self) {
        let Loop {
            guard: _,
            counter: _,
            between: _,
            body: _,
        } = self;
    }
}

/// A test with the commands that are done where it is true, and those where it is false; with no ELSE these are none.
#[cycle(command)]
pub struct Choice {
    pub condition: Box<Test>,
    pub then_do: Commands,
    pub else_do: Commands,
}

impl Drop for Choice {
    #[cycle(command)]
    fn drop(self) {
        let Choice {
            condition: _,
            then_do: _,
            else_do: _,
        } = self;
    }
}

/// A list of commands.
#[cycle(command)]
pub struct Commands {
    items: Vec<Command>,
}

impl Drop for Commands {
    #[cycle(command)]
    fn drop(self) {
        let Commands { items: _ } = self;
    }
}

/// A program: a list of commands.
pub struct Program {
    commands: Commands,
}

impl Drop for Program {
    fn drop(self) {
        let Program {
            commands: _commands,
        } = self;
    }
}

impl Model for Program {
    ghost use Rattle.std.specs.Prelude.{List};
    ghost use Rattle.std.specs.Coded.{codes};
    ghost use Rattle.ctd_program.specs.declared.tree.Command.{Command};
    ghost use Rattle.ctd_program.specs.contracts.tree.Command as c;
    ghost use Rattle.ctd_program.specs.calls.View.{commands_of};

    ghost Value = { List Command };

    ghost coded = { Prim.hlevel (codes, c.the_row.coded) };

    ghost view = { λ p. commands_of p.commands };
}

impl Exprs {
    ghost use Rattle.ctd_program.specs.calls.View.{exprs_of};

    /// A list with these expressions, which takes no memory.
    pub fn from_vec(items: Vec<Expr>) -> Exprs
        ensures { exprs_of result ≡ items.items }
    {
        Exprs { items }
    }

    /// Lends the list.
    pub fn as_slice(&self) -> &[Expr]
        ensures { result.now ≡ exprs_of self.now }
    {
        self.items.as_slice()
    }
}

impl Names {
    ghost use Rattle.ctd_program.specs.calls.View.{names_of};

    /// A list with these names, which takes no memory.
    pub fn from_vec(items: Vec<Name>) -> Names
        ensures { names_of result ≡ items.items }
    {
        Names { items }
    }

    /// Lends the list.
    pub fn as_slice(&self) -> &[Name]
        ensures { result.now ≡ names_of self.now }
    {
        self.items.as_slice()
    }
}

impl Assignments {
    ghost use Rattle.ctd_program.specs.calls.View.{assignments_of};

    /// A list with these assignments, which takes no memory.
    pub fn from_vec(items: Vec<Assignment>) -> Assignments
        ensures { assignments_of result ≡ items.items }
    {
        Assignments { items }
    }

    /// Lends the list.
    pub fn as_slice(&self) -> &[Assignment]
        ensures { result.now ≡ assignments_of self.now }
    {
        self.items.as_slice()
    }
}

impl Commands {
    /// A list with these commands, which takes no memory.
    pub fn from_vec(items: Vec<Command>) -> Commands
        ensures { commands_of result ≡ items.items }
    {
        Commands { items }
    }

    /// Lends the list.
    pub fn as_slice(&self) -> &[Command]
        ensures { result.now ≡ commands_of self.now }
    {
        self.items.as_slice()
    }
}

impl Program {
    /// A program of these commands.
    pub fn new(commands: Commands) -> Program
        ensures { result ≡ commands_of commands }
    {
        Program { commands }
    }

    /// Lends the program's list of commands.
    pub fn commands(&self) -> &[Command]
        ensures { result.now ≡ self.now }
    {
        self.commands.as_slice()
    }
}
