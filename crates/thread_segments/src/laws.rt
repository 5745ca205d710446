//! Laws. The functions have no bodies: each stands for its clause.

ghost use Rattle.thread_segments.specs.KnownStubs.{HaveSameInstances};
ghost use Rattle.thread_segments.specs.SoundLaws.{EndsKeepSound, PushesKeepSound};

/// Settings that know the capabilities of what domains share have the instances that its test of a capability tells.
pub fn settings_have_same_instances()
    ensures { HaveSameInstances }
{}

/// What domains share stays sound where a segment is put on top of a thread.
pub fn pushes_keep_sound()
    ensures { PushesKeepSound }
{}

/// What domains share stays sound where a domain ends.
pub fn ends_keep_sound()
    ensures { EndsKeepSound }
{}
