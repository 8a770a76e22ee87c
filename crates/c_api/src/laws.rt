// What the lengths of the calls' own buffers come to.
ghost use Rattle.c_api.specs.Laws.{StackEnough, BuffersEnough, OutputEnough};

// No call is refused with 13 or 23, nor with 26 where the output has 24,576 bytes or more.
pub fn buffers_are_long_enough()
    ensures stack { StackEnough }
    ensures work { BuffersEnough }
    ensures output { OutputEnough }
{}
