//! What a caller of a cursor may conclude of the data of a whole call.

use crate::cursor::Cursor;
use crate::source::Source;

impl<'d, R: Source> Cursor<'d, R> {
    ghost use Rattle.ctd_source.specs.calls.Received.{StartReceivesNothing, ReadingReceivesMore, MovingReceivesNoMore, AgreeingDataAreConsistent};

    /// A law and no code: a caller that keeps account of the bytes given so far, from the start on, knows that the
    /// cursor is consistent with all data under its limit that agree with these bytes and with what was seen of the end.
    pub fn received_is_sound()
        ensures starts { StartReceivesNothing R.Source }
        ensures reads { ReadingReceivesMore R.Source }
        ensures moves { MovingReceivesNoMore R.Source }
        ensures agreeing { AgreeingDataAreConsistent R.Source }
    {}
}
