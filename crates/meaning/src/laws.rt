// The laws about the meaning: each function promises one, for all values. They compute nothing: without the proof of its law none is built.
ghost use Rattle.meaning.specs.Laws.{OneSide, BothSides, Once, CommandsInOrder, TrianglesInOrder, Turned, Nearer, AllNearer, Framed, LeftOut};
ghost use Rattle.meaning.specs.Bounds.{NoNumberTooLarge};
ghost use Rattle.meaning.specs.States.{Obeys};

// Of an edge taken both ways every place is on just one side.
pub fn one_side()
    ensures { OneSide }
{}

// Of two triangles on both sides of an edge exactly one has each place on it between its ends.
pub fn both_sides()
    ensures { BothSides }
{}

// A triangle that is cut at a place of it has every place in exactly one piece.
pub fn cut_once()
    ensures { Once }
{}

// A list of commands, and of triangles, in two parts does as both one after the other; corners in another order round the same way paint the same.
pub fn in_order()
    ensures commands { CommandsInOrder }
    ensures triangles { TrianglesInOrder }
    ensures turned { Turned }
{}

// A command as it is read, and then its triangles one by one, do what the command means.
pub fn as_read()
    ensures { Obeys }
{}

// With tests 1 and 2 triangles bring depths only nearer.
pub fn only_nearer()
    ensures one { Nearer }
    ensures all { AllNearer }
{}

// Outside the frame nothing changes.
pub fn framed()
    ensures { Framed }
{}

// What a farthest depth leaves out would not have been painted.
pub fn left_out()
    ensures { LeftOut }
{}

// Of all that a file can hold, no number on the way to a dot passes 2^62.
pub fn no_number_too_large()
    ensures { NoNumberTooLarge }
{}
