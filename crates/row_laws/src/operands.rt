//! The laws. The functions have no bodies: each stands for its clauses.

ghost use Rattle.row_laws.specs.CallOperands.{ArgumentsHaveRoom, CalledFramesFit, CallersFit, CallsAreGiven, ResumedFramesFit, StaticCallsAreGiven, StaticFramesFit};
ghost use Rattle.row_laws.specs.FittingInstances.{AllAreBelowObject, CapabilitiesFit, InstancesAreDecided, InstancesAreHeld, InstancesFit};
ghost use Rattle.row_laws.specs.Operands.{ElementsAreFound, ElementsFit, NewObjectsFit, PushedFit, TakenMeet};
ghost use Rattle.row_laws.specs.StandingFrames.{CodeIsOne, RunningFramesAreTyped, RunningFramesHaveCode};

/// Each class stands below java/lang/Object.
pub fn classes_are_below_object()
    ensures { AllAreBelowObject }
{}

/// An instance of a type fits the type as typing reads it, where interfaces are java/lang/Object, and may be held where the type is
/// declared.
pub fn instances_fit()
    ensures types { InstancesFit }
    ensures capabilities { CapabilitiesFit }
    ensures values { InstancesAreHeld }
{}

/// A value is an instance of a type, or it isn't.
pub fn instances_are_decided()
    ensures { InstancesAreDecided }
{}

/// What an instruction takes is on top of the stack and meets what it asks, and what fits the types that it gives may take its place.
pub fn operands_are_on_top()
    ensures taken { TakenMeet }
    ensures pushed { PushedFit }
{}

/// Where an element is loaded, an array or null and an index are on top, and each item of the array may take their place.
pub fn elements_are_found()
    ensures operands { ElementsAreFound }
    ensures items { ElementsFit }
{}

/// A new object fits its place on the stack.
pub fn new_objects_fit()
    ensures { NewObjectsFit }
{}

/// A frame that runs stands at an instruction, whose typing tells what it holds before and after.
pub fn running_frames_are_typed()
    ensures code { RunningFramesHaveCode }
    ensures one_code { CodeIsOne }
    ensures typed { RunningFramesAreTyped }
{}

/// A frame that a call has left stands at its call, and goes on after it with the answer.
pub fn callers_fit()
    ensures left { CallersFit }
    ensures resumed { ResumedFramesFit }
{}

/// A call finds on the stack what its method asks for, and a receiver before that, unless it is invokestatic.
pub fn calls_are_given()
    ensures statics { StaticCallsAreGiven }
    ensures others { CallsAreGiven }
{}

/// A frame that begins a method with values of its parameters' types, behind a receiver where it isn't static, fits there, and the values
/// have room in its locals.
pub fn called_frames_fit()
    ensures others { CalledFramesFit }
    ensures statics { StaticFramesFit }
    ensures room { ArgumentsHaveRoom }
{}
