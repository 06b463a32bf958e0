//! Laws of the bytes: functions that do nothing, and whose contracts say what holds of every input
//! and every reply.
ghost use Rattle.contest_http.specs.Laws.{FramesTakeHeads, HeadsAreFronts, HeadsAreShortest};
ghost use Rattle.contest_http.specs.Laws.{HeadsWithoutEnd, OneFrame, OneSpelling};

/// An input is framed in one way, and its frame takes the head at least.
pub fn one_frame()
    ensures one { OneFrame }
    ensures head { FramesTakeHeads }
{}

/// A reply has one text at a moment.
pub fn one_spelling()
    ensures { OneSpelling }
{}

/// A head is the shortest front of its input with the end of a head; where there is none, all of
/// the input, up to the limit.
pub fn heads_are_shortest()
    ensures front { HeadsAreFronts }
    ensures shortest { HeadsAreShortest }
    ensures unended { HeadsWithoutEnd }
{}
