//! The commands of one byte, and the end of the data.
ghost use Rattle.ctd_command.specs.Blanks.{space, newline, end, newline_between_blanks, end_behind_blanks};
ghost use Rattle.ctd_command.specs.Commands.{one_byte, eof};
ghost use Rattle.ctd_command.specs.calls.Performs.{IsSound, Performs};

use crate::failure::CommandFailure;
use crate::machine::Run;
use ctd_outcome::Reason;
use ctd_program::Mode;
use ctd_source::Source;

impl<'d, D: Source> Run<'d, D> {
    /// SPACE: passes one byte 0x20, or under `BlanksOk` as many blanks as there are, one at least; else it is ExpectedSpace.
    #[inline(never)]
    pub fn space(&mut self) -> Result<(), CommandFailure>
        requires sound { IsSound self.old }
        ensures performs { Performs self.old self.new result space }
    {
        match self.mode {
            Mode::Exact => self.one_byte(b' ', Reason::ExpectedSpace),
            Mode::BlanksOk => self.some_blanks(),
        }
    }

    /// NEWLINE: passes one byte 0x0A, under `BlanksOk` with the blanks before and behind it; else it is ExpectedNewline.
    #[inline(never)]
    pub fn newline(&mut self) -> Result<(), CommandFailure>
        requires sound { IsSound self.old }
        ensures performs { Performs self.old self.new result newline }
    {
        match self.mode {
            Mode::Exact => self.one_byte(b'\n', Reason::ExpectedNewline),
            Mode::BlanksOk => self.newline_between_blanks(),
        }
    }

    /// EOF, and the end of a program: the data end here, under `BlanksOk` behind blanks; else it is ExpectedEof.
    pub fn end(&mut self) -> Result<(), CommandFailure>
        requires sound { IsSound self.old }
        ensures performs { Performs self.old self.new result end }
    {
        match self.mode {
            Mode::Exact => self.end_of_data(),
            Mode::BlanksOk => self.end_behind_blanks(),
        }
    }

    /// A line feed with the blanks around it.
    #[inline(never)]
    fn newline_between_blanks(&mut self) -> Result<(), CommandFailure>
        requires sound { IsSound self.old }
        ensures performs { Performs self.old self.new result newline_between_blanks }
    {
        self.skip_blanks()?;
        self.one_byte(b'\n', Reason::ExpectedNewline)?;
        self.skip_blanks()
    }

    /// Skips blanks, then requires the end of the data.
    fn end_behind_blanks(&mut self) -> Result<(), CommandFailure>
        requires sound { IsSound self.old }
        ensures performs { Performs self.old self.new result end_behind_blanks }
    {
        self.skip_blanks()?;
        self.end_of_data()
    }

    /// Passes this byte, and else rejects the data for this reason.
    #[inline(always)]
    fn one_byte(&mut self, wanted: u8, reason: Reason) -> Result<(), CommandFailure>
        requires sound { IsSound self.old }
        ensures performs { Performs self.old self.new result (one_byte wanted reason) }
    {
        match self.cursor.pass_if_eq(wanted) {
            Ok(true) => Ok(()),
            Ok(false) => Err(CommandFailure::rejected(reason)),
            Err(fault) => Err(CommandFailure::from(fault)),
        }
    }

    /// Passes nothing, where the end of the data is reached.
    fn end_of_data(&mut self) -> Result<(), CommandFailure>
        requires sound { IsSound self.old }
        ensures performs { Performs self.old self.new result eof }
    {
        match self.next()? {
            None => Ok(()),
            Some(_byte) => Err(CommandFailure::rejected(Reason::ExpectedEof)),
        }
    }
}
