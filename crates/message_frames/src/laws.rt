//! Laws of streams of messages.

ghost use Rattle.message_frames.specs.Laws.{BrokenStays, EndsAreOne, EndsHaveNoMessage, MessagesAreOne, MessagesStay};

/// Bytes begin with one message at most, and end in one way: so a stream is read in one way.
pub fn streams_are_read_in_one_way()
    ensures messages { MessagesAreOne }
    ensures none { EndsHaveNoMessage }
    ensures ends { EndsAreOne }
{}

/// What follows changes no message, and mends no bytes that are none: so it does not matter in which pieces a stream comes.
pub fn pieces_make_no_difference()
    ensures messages { MessagesStay }
    ensures broken { BrokenStays }
{}
