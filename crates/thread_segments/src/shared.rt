//! What domains share, and how a domain gets its part of it.

ghost use Rattle.std.specs.Prelude.{◌≡◌, ◌≢◌, ◌⊎◌, ℕ, ◌-◌, ◌↔◌, ◌<◌, Contains, MatchOption, false, None, IsTrue, IsSome, Err, OnOk, OnErr, IfOk, Some, option_copied, option_map, vec_capacity, vec_len, ◌≤◌, length, slice_get, ◌==◌};
ghost use Rattle.jk_model.specs.declared.identifiers.ClassId.{ClassId as Class};
ghost use Rattle.jk_model_classes.specs.declared.records.BaseRef.TheVariants as Base;
ghost use Rattle.jk_model_classes.specs.declared.sharing.Stub.{Stub as AStub};
ghost use Rattle.frame_store.specs.FrameContents.{Closes, IsAdmitted as HasDomain};
ghost use Rattle.jk_model_heaps.specs.Capabilities.{IsGivenOut, has_number};
ghost use Rattle.jk_model_sharing.specs.BoundNames.{BoundName as Name, LooksUp, bound_as, longest_name};
ghost use Rattle.jk_model_sharing.specs.CapabilityCalls.{LacksNumbers};
ghost use Rattle.jk_model_sharing.specs.KnownStubs.{AreRising};
ghost use Rattle.jk_model_sharing.specs.Segments.{with_revoked, with_stop};
ghost use Rattle.jk_model_sharing.specs.SharedStates.{SharedState as State, Drops, MayBegin, Resumes, SharedDomain as Domain, Stops, Suspends, admitted, caps_of, domain_numbered, first_state, popped, pushed, spent, stub_of, with_flags};
ghost use Rattle.thread_segments.specs.Answers.{Begins, BindsFor, CreatesFor, EndsWith, IsLeastAbove, IsLiveNumber, RevokesFor, UnbindsFor, count_numbers_left, known_class, known_status, number_below, quotas_of, segment_info, spent_steps, steps_left_of, thread_number, top_number};
ghost use Rattle.thread_segments.specs.Asked.{AreWithin, HasRoomForSegment, IsAdmitted, IsLiveDomain, IsLiveThread, IsNext, IsThere, MayDrawSegment, MayDrawThread, MaySpend, MaySpendSteps};
ghost use Rattle.thread_segments.specs.RestoredStates.{IsRestorable, IsStateOf};
ghost use Rattle.thread_segments.specs.SoundStates.{AreSound};
ghost use Rattle.thread_segments.specs.StateParts.{ArePartsOf};

use crate::capabilities::Capabilities;
use crate::domains::{DomainEntry, count_end, domain_parts, end_entry};
use crate::endings::take_out_all;
use crate::names::{MOST_UNITS, Names};
use crate::parts::SharedParts;
use crate::restoring::{
    restored_caps, restored_entries, restored_names, restored_stubs, restored_threads,
};
use crate::stub_index::StubIndex;
use capability_table::CapsError;
use class_table::ClassTable;
use frame_store::FrameStore;
use instance_tests::CapabilityTests;
use jk_model::{
    CapId, CapStatus, ClassId, DomainId, List, OutOfMemory, Quotas, Raise, SegmentNo, Standing,
    ThreadNo,
};
use jk_model_classes::{BaseRef, Stub, TypeRef};
use jk_model_heaps::system_classes::{CAPABILITY, ILLEGAL_ARGUMENT_EXCEPTION, OBJECT, REMOTE};
use std::alloc::Global;
use std::marker::Model;
use thread_stacks::{Flag, SegmentInfo, Threads};

/// The threads and their segments, the capabilities with their stubs, the repository, and what is counted of each domain. The
/// memory for all that a domain may have is taken when it is admitted or made anew, and no other call but `parts` takes any.
#[derive(Drop)]
pub struct Shared {
    domains: Vec<DomainEntry>,
    caps: Capabilities,
    stubs: StubIndex,
    names: Names,
    threads: Threads,
}

impl Model for Shared {
    ghost use Rattle.jk_model_sharing.specs.SharedStates.{SharedState};
    ghost use Rattle.thread_segments.specs.DomainEntries.{IsKept, state_of};

    ghost Value = { SharedState };

    ghost view = { λ s. state_of s.domains.items s.caps s.stubs.stubs s.names s.threads };

    ghost invariant = { λ s. IsKept s.domains.items s.caps s.stubs.stubs s.names s.threads };
}

impl Shared {
    /// No domains, threads, capabilities and names. The first thread and the first segment will have the number 1.
    pub fn new(alloc: Global) -> Result<Shared, OutOfMemory>
        ensures { IfOk result (λ s. s ≡ first_state) }
    {
        let domains = Vec::new(alloc);
        let caps = Capabilities::new(alloc);
        let stubs = StubIndex::new(alloc);
        let names = Names::new(alloc);
        let threads = Threads::new(alloc);
        Ok(Shared {
            domains,
            caps,
            stubs,
            names,
            threads,
        })
    }

    /// The state of these parts, with these stubs, among which is one of each capability's class: so what `parts` told is made anew. It takes
    /// the memory for all that live domains may have, in time in proportion to the parts and stubs, to the quotas of capabilities, and on
    /// average to the other quotas of live domains, with a logarithm for each segment.
    pub fn from_parts(
        alloc: Global,
        parts: SharedParts,
        stubs: List<Stub>,
    ) -> Result<Shared, OutOfMemory>
        requires state { (s : State) × IsStateOf s parts stubs }
        ensures parts { IfOk result (λ shared. IsStateOf shared parts stubs) }
        ensures same { IfOk result (λ shared. (s : State) → IsStateOf s parts stubs → shared ≡ s) }
    {
        Ok(Shared {
            domains: restored_entries(alloc, &parts)?,
            caps: restored_caps(alloc, &parts)?,
            stubs: restored_stubs(alloc, stubs)?,
            names: restored_names(alloc, &parts)?,
            threads: restored_threads(alloc, &parts)?,
        })
    }

    /// Admits the next domain, with the stubs of its folder's classes. `Numbers` comes exactly where the ranges of capability
    /// numbers would together pass 16,777,215. It takes the memory for all that the domain may have, in time in proportion to its
    /// capabilities and stubs, and on average to its other quotas. After an error all is as before.
    pub fn admit(&mut self, d: DomainId, q: &Quotas, stubs: List<Stub>) -> Result<(), CapsError>
        requires next { IsNext self.old d }
        requires quotas { AreWithin q.now }
        ensures ok { OnOk result (self.new ≡ admitted d q.now stubs self.old) }
        ensures as_before { OnErr result (self.new ≡ self.old) }
        ensures numbers { result ≡ Err CapsError.Numbers → LacksNumbers (caps_of self.old) q.now.caps }
        ensures only_numbers { LacksNumbers (caps_of self.old) q.now.caps → result ≡ Err CapsError.Numbers }
    {
        if q.caps > self.caps.numbers_left() {
            return Err(CapsError::Numbers);
        }
        reserve(&mut self.domains)?;
        self.stubs.reserve(stubs.len())?;
        self.threads.reserve(q.threads, q.chunks)?;
        self.names.reserve(q.names)?;
        self.caps.admit(d, q.caps)?;
        self.stubs.add(stubs);
        self.domains.push_reserved(DomainEntry {
            live: true,
            quotas: *q,
            steps_left: q.steps,
            threads: 0,
            names: 0,
        });
        Ok(())
    }

    /// Whatever the calls did, what domains share is sound. It does nothing.
    pub fn is_sound(&self)
        ensures { AreSound self.now }
    {
        let _ = &self.domains;
    }

    /// Whatever the calls did, what domains share can be made anew of its parts and stubs. It does nothing.
    pub fn is_restorable(&self)
        ensures { IsRestorable self.now }
    {
        self.threads.segments_rise();
        let _ = &self.domains;
    }

    /// All but the stubs, as plain lists. It takes time in proportion to them and to the quotas of capabilities, with a logarithm for each
    /// segment.
    pub fn parts(&self) -> Result<SharedParts, OutOfMemory>
        ensures { IfOk result (λ parts. ArePartsOf self.now parts) }
    {
        let alloc = *self.domains.allocator();
        Ok(SharedParts {
            next_thread: self.threads.next_thread(),
            next_segment: self.threads.next_segment(),
            domains: domain_parts(alloc, self.domains.as_slice())?,
            caps: self.caps.parts(alloc)?,
            names: self.names.parts(alloc)?,
            threads: self.threads.parts(alloc)?,
        })
    }

    /// How many numbers of capabilities are in no range yet.
    pub fn numbers_left(&self) -> u32
        ensures { result ≡ count_numbers_left self.now }
    {
        self.caps.numbers_left()
    }

    /// The quotas of a domain that was admitted.
    pub fn quotas(&self, d: DomainId) -> &Quotas
        requires { IsAdmitted self.now d }
        ensures { Some result.now ≡ quotas_of self.now d }
    {
        let entry = &self.domains[d.0 as usize];
        &entry.quotas
    }

    /// How many steps a live domain may still take. None exactly where it has no budget.
    pub fn steps_left(&self, d: DomainId) -> Option<u32>
        requires { IsLiveDomain self.now d }
        ensures { result ≡ steps_left_of self.now d }
    {
        let entry = &self.domains[d.0 as usize];
        entry.steps_left
    }

    /// Counts a step of a live domain. Where it has a budget, that isn't 0; where it has none, nothing changes.
    pub fn spend_step(&mut self, d: DomainId)
        requires live { IsLiveDomain self.old d }
        requires budget { MaySpend self.old d }
        ensures { self.new ≡ spent d self.old }
    {
        let entry = &mut self.domains[d.0 as usize];
        entry.steps_left = one_less(entry.steps_left);
    }

    /// Counts so many steps of a live domain. Where it has a budget, that isn't less; where it has none, nothing changes.
    pub fn spend_steps(&mut self, d: DomainId, steps: u32)
        requires live { IsLiveDomain self.old d }
        requires budget { MaySpendSteps self.old d steps }
        ensures { self.new ≡ spent_steps steps d self.old }
    {
        let entry = &mut self.domains[d.0 as usize];
        entry.steps_left = fewer(entry.steps_left, steps);
    }

    /// Whether a live domain may begin a thread: fewer live ones were started in it than its quota allows.
    pub fn may_begin(&self, d: DomainId) -> bool
        requires { IsLiveDomain self.now d }
        ensures { IsTrue result ↔ MayBegin self.now d }
    {
        let entry = &self.domains[d.0 as usize];
        entry.threads < entry.quotas.threads
    }

    /// Begins a thread in a live domain that has fewer segments than chunks, with one segment. None, with all as before, exactly
    /// where it may not begin one. Threads and segments take the next numbers, which rise by one.
    pub fn begin(&mut self, d: DomainId) -> Option<ThreadNo>
        requires live { IsLiveDomain self.old d }
        requires room { HasRoomForSegment self.old d }
        requires thread { MayDrawThread self.old }
        requires segment { MayDrawSegment self.old }
        ensures { Begins self.old d result self.new }
    {
        if !self.may_begin(d) {
            return None;
        }
        let t = self.threads.begin(d);
        let entry = &mut self.domains[d.0 as usize];
        entry.threads += 1;
        Some(t)
    }

    /// Puts a segment of a live domain, which has fewer segments than chunks, on top of a live thread, and answers its number.
    #[inline(always)]
    pub fn push(&mut self, t: ThreadNo, d: DomainId) -> SegmentNo
        requires live { IsLiveDomain self.old d }
        requires thread { IsLiveThread self.old t }
        requires room { HasRoomForSegment self.old d }
        requires number { MayDrawSegment self.old }
        ensures number { result.0 ≡ self.old.next_segment }
        ensures pushed { self.new ≡ pushed t d self.old }
    {
        self.threads.push(t, d)
    }

    /// Takes the top segment off a live thread. A thread that has none left has ended.
    #[inline(always)]
    pub fn pop(&mut self, t: ThreadNo)
        requires { IsLiveThread self.old t }
        ensures { self.new ≡ popped t self.old }
    {
        let started = match self.threads.pop(t) {
            Some(started) => started,
            None => return,
        };
        let room = count_end(&mut self.domains, started);
        self.threads.release_threads(room);
    }

    /// The top segment of a thread. None exactly where the thread isn't live.
    pub fn top(&self, t: ThreadNo) -> Option<SegmentNo>
        ensures { result ≡ top_number self.now t }
    {
        self.threads.top(t)
    }

    /// The segment directly below another. None exactly below a lowest one.
    pub fn below(&self, s: SegmentNo) -> Option<SegmentNo>
        requires { IsThere self.now s }
        ensures { result ≡ number_below self.now s }
    {
        self.threads.below(s)
    }

    /// The least number of a live thread above. None exactly where there is none.
    pub fn next_live(&self, above: u32) -> Option<u32>
        ensures { IsLeastAbove (IsLiveNumber self.now.threads) above result }
    {
        self.threads.next_live(above)
    }

    /// Lists the threads of which the end of a domain leaves nothing, so that `next_ending` takes a logarithm as long as nothing else is
    /// changed. It takes time in proportion to the segments of the domain, with a logarithm.
    pub fn list_endings(&mut self, d: DomainId)
        ensures { self.new ≡ self.old }
    {
        self.threads.list_endings(d);
    }

    /// The least live thread above this number of which the end of a live domain leaves nothing. None exactly where there is none. It
    /// takes a logarithm where `list_endings` was called for the domain and nothing has changed since. Else it goes over the live threads
    /// from there on, over segments of the domain, and over one more of each thread.
    pub fn next_ending(&self, d: DomainId, above: u32) -> Option<ThreadNo>
        requires { IsLiveDomain self.now d }
        ensures { IsLeastAbove (EndsWith self.now.threads d) above (option_map thread_number result) }
    {
        self.threads.next_ending(d, above)
    }

    /// What is known of a segment. None exactly where it isn't there.
    pub fn segment(&self, s: SegmentNo) -> Option<SegmentInfo>
        ensures { result ≡ segment_info self.now s }
    {
        self.threads.segment(s)
    }

    /// Sets or clears that RevokedException is pending in a segment that is there.
    pub fn set_revoked(&mut self, s: SegmentNo, on: bool)
        requires { IsThere self.old s }
        ensures { self.new ≡ with_flags s (with_revoked on) self.old }
    {
        self.threads.set_flag(s, Flag::Revoked, on);
    }

    /// Clears that ThreadDeath is pending in a segment that is there.
    pub fn clear_stop(&mut self, s: SegmentNo)
        requires { IsThere self.old s }
        ensures { self.new ≡ with_flags s (with_stop false) self.old }
    {
        self.threads.set_flag(s, Flag::Stop, false);
    }

    /// Lets a segment rest while it is on top. Nothing changes where it isn't there.
    pub fn suspend(&mut self, s: SegmentNo)
        ensures { Suspends self.old s self.new }
    {
        self.threads.set_flag(s, Flag::Suspended, true);
    }

    /// Lets a segment rest no longer. Nothing changes where it isn't there.
    pub fn resume(&mut self, s: SegmentNo)
        ensures { Resumes self.old s self.new }
    {
        self.threads.set_flag(s, Flag::Suspended, false);
    }

    /// Lets ThreadDeath be pending in a segment. Nothing changes where it isn't there.
    pub fn stop(&mut self, s: SegmentNo)
        ensures { Stops self.old s self.new }
    {
        self.threads.set_flag(s, Flag::Stop, true);
    }

    /// Ends a live domain: its segments are taken out of all threads, its capabilities are revoked, and the names that it bound are
    /// removed; and closes it in the store of frames. The memory that was taken for it serves the domains that are admitted later. It takes
    /// time in proportion to its segments, with a logarithm, to its capabilities, and to the names that are bound.
    pub fn drop_domain<F: FrameStore>(&mut self, frames: &mut F, d: DomainId)
        requires live { IsLiveDomain self.old d }
        requires frames { HasDomain (F.content frames.old) d }
        ensures dropped { Drops self.old d self.new }
        ensures closed { Closes (F.content frames.old) (F.content frames.new) d }
    {
        take_out_all(&mut self.threads, &mut self.domains, d);
        self.caps.revoke_all(d);
        self.names.remove_all(d);
        let room = end_entry(&mut self.domains, d);
        self.threads.release_threads(room.threads);
        self.threads.release_segments(room.segments);
        self.names.release(room.names);
        frames.close(d);
    }

    /// Creates a capability of a live domain at an object of its heap, of this class. IllegalArgumentException is raised exactly
    /// where the class has no stub, and else QuotaException exactly where the domain's range of numbers is used up; then all is as
    /// before. It takes constant time.
    pub fn create(&mut self, d: DomainId, class: ClassId, target: u32) -> Result<CapId, Raise>
        requires { IsLiveDomain self.old d }
        ensures { CreatesFor self.old d class target result self.new }
    {
        match self.stubs.find(class) {
            Some(_) => self.caps.create(d, class, target),
            None => Err(Raise::Fresh(ILLEGAL_ARGUMENT_EXCEPTION)),
        }
    }

    /// Revokes a capability that was given out, for a live domain. SecurityException is raised exactly where another domain owns it,
    /// and then all is as before. One that is revoked stays so.
    pub fn revoke(&mut self, d: DomainId, k: CapId) -> Result<(), Raise>
        requires live { IsLiveDomain self.old d }
        requires given { IsGivenOut (caps_of self.old) k }
        ensures { RevokesFor self.old d k result self.new }
    {
        if !self.owns(d, k) {
            return Err(Raise::Standing(Standing::Security));
        }
        self.caps.revoke(k);
        Ok(())
    }

    /// The capability of a name. None exactly where the name isn't bound.
    pub fn lookup(&self, name: &[u16]) -> Option<CapId>
        ensures { LooksUp self.now.names name.now result }
    {
        self.names.cap(name)
    }

    /// Binds a name to a capability that was given out, for a live domain. IllegalArgumentException is raised exactly where the
    /// name has over 64 units or another domain bound it, and else QuotaException exactly where it isn't bound and the domain has
    /// bound as many names as it may; then all is as before. A name that is bound keeps its place, and another goes last.
    pub fn bind(&mut self, d: DomainId, name: &[u16], k: CapId) -> Result<(), Raise>
        requires live { IsLiveDomain self.old d }
        requires given { IsGivenOut (caps_of self.old) k }
        ensures { BindsFor self.old (record { text = name.now; cap = k; binder = d }) result self.new }
    {
        if name.len() > MOST_UNITS {
            return Err(Raise::Fresh(ILLEGAL_ARGUMENT_EXCEPTION));
        }
        match self.names.find(name) {
            Some(place) => self.bind_anew(d, place, k),
            None => self.bind_new(d, name, k),
        }
    }

    /// Binds the name at a place anew, for a live domain.
    fn bind_anew(&mut self, d: DomainId, place: usize, k: CapId) -> Result<(), Raise>
        requires live { IsLiveDomain self.old d }
        requires given { IsGivenOut (caps_of self.old) k }
        requires bound { place < length self.old.names }
        ensures { (n : Name) → slice_get self.old.names place ≡ Some n
            → BindsFor self.old (record { text = n.text; cap = k; binder = d }) result self.new }
    {
        if !is_same(self.names.binder(place), d) {
            return Err(Raise::Fresh(ILLEGAL_ARGUMENT_EXCEPTION));
        }
        self.names.set_cap(place, k);
        Ok(())
    }

    /// Binds a name of at most 64 units that isn't bound, for a live domain.
    fn bind_new(&mut self, d: DomainId, name: &[u16], k: CapId) -> Result<(), Raise>
        requires live { IsLiveDomain self.old d }
        requires given { IsGivenOut (caps_of self.old) k }
        requires short { length name.now ≤ longest_name }
        requires new { bound_as self.old.names name.now ≡ None }
        ensures { BindsFor self.old (record { text = name.now; cap = k; binder = d }) result self.new }
    {
        let entry = &self.domains[d.0 as usize];
        if entry.names >= entry.quotas.names {
            return Err(Raise::Standing(Standing::Quota));
        }
        self.names.add(name, k, d);
        let entry = &mut self.domains[d.0 as usize];
        entry.names += 1;
        Ok(())
    }

    /// Unbinds a name, for a live domain. SecurityException is raised exactly where another domain bound it, and then all is as
    /// before, as where it isn't bound.
    pub fn unbind(&mut self, d: DomainId, name: &[u16]) -> Result<(), Raise>
        requires { IsLiveDomain self.old d }
        ensures { UnbindsFor self.old d name.now result self.new }
    {
        match self.names.find(name) {
            Some(place) => self.remove_name(d, place),
            None => Ok(()),
        }
    }

    /// Unbinds the name at a place, for a live domain.
    fn remove_name(&mut self, d: DomainId, place: usize) -> Result<(), Raise>
        requires live { IsLiveDomain self.old d }
        requires bound { place < length self.old.names }
        ensures { (n : Name) → slice_get self.old.names place ≡ Some n → UnbindsFor self.old d n.text result self.new }
    {
        if !is_same(self.names.binder(place), d) {
            return Err(Raise::Standing(Standing::Security));
        }
        self.names.remove(place);
        let entry = &mut self.domains[d.0 as usize];
        entry.names -= 1;
        Ok(())
    }

    /// Whether a capability that was given out is a domain's.
    fn owns(&self, d: DomainId, k: CapId) -> bool
        requires live { IsLiveDomain self.now d }
        requires given { IsGivenOut (caps_of self.now) k }
        ensures { (e : Domain) → domain_numbered self.now d ≡ Some e → result ≡ has_number k e.caps }
    {
        match self.caps.status(k) {
            Some(status) => status.owner == d,
            None => false,
        }
    }

    /// What is known of a capability. None exactly where it wasn't given out.
    pub fn status(&self, k: CapId) -> Option<CapStatus>
        ensures { result ≡ known_status self.now k }
    {
        self.caps.status(k)
    }

    /// The class that a capability's target had when it was created, in constant time. None exactly where it wasn't given out.
    pub fn capability_class(&self, k: CapId) -> Option<ClassId>
        ensures { result ≡ known_class self.now k }
    {
        self.caps.class_of(k)
    }

    /// The stub with which a capability was made. None exactly where it wasn't given out.
    pub fn stub(&self, k: CapId) -> Option<&Stub>
        ensures { option_copied result ≡ stub_of self.now k }
    {
        match self.caps.class_of(k) {
            Some(class) => self.stubs.find(class),
            None => None,
        }
    }

    /// Whether an interface is one of those of a capability's stub.
    fn shows(&self, k: CapId, interface: ClassId) -> bool
        requires { (stub : AStub) → stub_of self.now k ≡ Some stub → AreRising stub.interfaces }
        ensures { (stub : AStub) → stub_of self.now k ≡ Some stub → (IsTrue result ↔ Contains stub.interfaces (record { 0 = interface.0 })) }
    {
        match self.stub(k) {
            Some(stub) => is_listed(stub.interfaces.as_slice(), interface),
            None => false,
        }
    }
}

impl CapabilityTests for Shared {
    ghost use Rattle.thread_segments.specs.KnownStubs.{KnowsStubs, known_capabilities};

    ghost known = { known_capabilities };

    ghost agrees = { KnowsStubs };

    // An interface of the stub has those above it in the stub too, so no class is asked.
    fn is_capability_a(&self, t: &ClassTable, k: CapId, kind: &TypeRef) -> bool {
        let _ = t;
        match class_of(kind) {
            Some(c) => is_any_capability(c) || self.shows(k, c),
            None => false,
        }
    }
}

/// Whether two domains are one.
fn is_same(a: DomainId, b: DomainId) -> bool
    ensures { result ≡ (a.0 == b.0) }
{
    a == b
}

/// One fewer, where there is a number.
fn one_less(left: Option<u32>) -> Option<u32>
    requires { left ≢ Some 0 }
    ensures { result ≡ option_map (λ n. n - 1) left }
{
    match left {
        Some(n) => Some(n - 1),
        None => None,
    }
}

/// So many fewer, where there is a number.
fn fewer(left: Option<u32>, steps: u32) -> Option<u32>
    requires { (n : ℕ) → left ≡ Some n → steps ≤ n }
    ensures { result ≡ option_map (λ n. n - steps) left }
{
    match left {
        Some(n) => Some(n - steps),
        None => None,
    }
}

/// The class that a type is; none where it is an array, or a kind of numbers.
fn class_of(t: &TypeRef) -> Option<ClassId>
    ensures { MatchOption result ((c : Class) → t.now ≡ record { dims = 0; base = Base.Class c } → ⊥)
        (λ c. t.now ≡ record { dims = 0; base = Base.Class c }) }
{
    if t.dims != 0 {
        return None;
    }
    match t.base {
        BaseRef::Class(c) => Some(c),
        _ => None,
    }
}

/// Whether each capability is an instance of a class.
fn is_any_capability(c: ClassId) -> bool
    ensures { IsTrue result ↔ ((c ≡ OBJECT) ⊎ (c ≡ CAPABILITY) ⊎ (c ≡ REMOTE)) }
{
    c == OBJECT || c == CAPABILITY || c == REMOTE
}

/// Makes room for one more domain.
fn reserve(domains: &mut Vec<DomainEntry>) -> Result<(), OutOfMemory>
    ensures same { domains.new.items ≡ domains.old.items }
    ensures room { OnOk result (vec_len domains.new < vec_capacity domains.new) }
{
    domains.reserve(1)?;
    Ok(())
}

/// Whether an interface is one of these, which rise by number.
fn is_listed(interfaces: &[ClassId], interface: ClassId) -> bool
    requires { AreRising interfaces.now }
    ensures { IsTrue result ↔ Contains interfaces.now interface }
{
    interfaces
        .binary_search_by(|c| c.0.cmp(&interface.0))
        .is_ok()
}
