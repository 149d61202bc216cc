//! Laws of joint plans, and worked ones. The contract of each function is the law; it does nothing.

ghost use Rattle.gl_plan.specs.Together.{SeveralPassOneLimit};
ghost use Rattle.gl_plan.specs.Worked.{WorkedSeveral};
ghost use Rattle.gl_plan.specs.WorkedFrames.{WorkedFrames};

/// A joint plan that passes a limit passes no other, and is not within the limits.
pub fn several_pass_one_limit()
    ensures { SeveralPassOneLimit }
{}

/// Joint plans of two statements that were worked out by hand.
pub fn worked_several()
    ensures { WorkedSeveral }
{}

/// Plans of selects of frames, their latencies and gaps, that were worked out by hand.
pub fn worked_frames()
    ensures { WorkedFrames }
{}
