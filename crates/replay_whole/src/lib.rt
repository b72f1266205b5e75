// The text for a whole capture, which is read in windows.
#![tactic(auto)]

ghost use Rattle.replay_whole.specs.Joining.{EveryCapture};

// Of every capture, also of such as no memory holds: a claim about the results of `replay_window::play_window`, and a function that does nothing.
pub fn every_capture()
    ensures { EveryCapture }
{}
