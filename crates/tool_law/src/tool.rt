// The trait of all tools.
ghost use Rattle.std.specs.Prelude.{◌≡◌, ◌++◌, ℕ, Bool, List, [], false, IfOk, IsOk, OnOk};
ghost use Rattle.ins_views.specs.Views.{ViewFields};
ghost use Rattle.insert_points.specs.declared.call.Call.{Call};
ghost use Rattle.insert_points.specs.declared.call.Event.{Event};
ghost use Rattle.insert_points.specs.declared.call.Thing.{Thing};
ghost use Rattle.tool_law.specs.Law.{AppendsText, KeepsMeaning, Merges, TakesEvent};

use arrayvec::ArrayVec;
use ins_views::Views;
use insert_points::{Call, Event, Thing};
use std::alloc::{AllocError, Global};

/// A tool: the calls that it asks for, and a value of the events that they give. The events of a run may be given to several
/// locals, piece by piece; merged in the order of the pieces, these make the value of all events.
pub trait Tool: Sync {
    /// What a tool keeps of a piece's events.
    type Local: Send + Drop;

    /// What it keeps of all events so far.
    type Shared: Send + Drop;

    /// Whether a local may take memory for an event.
    const GROWS: bool;

    ghost GROWS: { Bool };

    // The value of a list of events.
    ghost Value: { Type 0 };

    ghost value: { Self → List Event → Value };

    // Whether a shared state stands for a list of events, and a local for a piece's.
    ghost is_value: { Self → List Event → Self.Shared → Type 0 };

    ghost is_local: { Self → List Event → Self.Local → Type 0 };

    // What a local stands for is a plain fact, so that a type may keep it.
    ghost once: { (tool : Self) (ys : List Event) (local : Self.Local) → IsProp (is_local tool ys local) };

    // The text of a value, by what is known of the program's code.
    ghost text_of: { Self → ViewFields → Value → List ℕ };

    // The calls that a thing is given.
    ghost calls_of: { Self → Thing → List Call };

    /// Adds the calls for a thing.
    fn insert(&self, thing: &Thing, calls: &mut ArrayVec<Call, 8>)
        requires { calls.old.items ≡ [] }
        ensures { calls.new.items ≡ calls_of self.now thing.now };

    /// The state of no event.
    fn start(&self, alloc: Global, views: &Views) -> Result<Self::Shared, AllocError>
        ensures { IfOk result (is_value self.now []) };

    /// The local of no event.
    fn begin(&self, alloc: Global) -> Result<Self::Local, AllocError>
        ensures { IfOk result (is_local self.now []) };

    /// Takes one more event.
    fn on(&self, local: &mut Self::Local, event: &Event) -> Result<(), AllocError>
        ensures law { OnOk result (TakesEvent (is_local self.now) event.now local.old local.new) }
        ensures steady { GROWS ≡ false → IsOk result };

    /// Ends a piece. It changes no meaning.
    fn end(&self, local: &mut Self::Local)
        ensures { KeepsMeaning (is_local self.now) local.old local.new };

    /// Adds a piece's events behind those that there are.
    fn merge(&self, shared: &mut Self::Shared, local: Self::Local) -> Result<(), AllocError>
        ensures { OnOk result
            (Merges (is_local self.now) (is_value self.now) shared.old local shared.new) };

    /// Adds the text of the value.
    fn text(
        &self,
        views: &Views,
        shared: &Self::Shared,
        out: &mut Vec<u8>,
    ) -> Result<(), AllocError>
        ensures { OnOk result (AppendsText (is_value self.now)
            (λ xs. text_of self.now views.now (value self.now xs))
            shared.now out.old.items out.new.items) };
}
