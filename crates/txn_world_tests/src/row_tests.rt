//! Each row: a declare, a post and a discharge of one transaction, and what it heard of them.

ghost use Rattle.std.specs.Prelude.{◌≡◌};
ghost use Rattle.amqp_txn_types.specs.declared.small.SessionState.TheVariants as session_states;
ghost use Rattle.txn_world_wires.specs.Putting.{IsDeclare};

use amqp_accept_at_once::AcceptingListener;
use amqp_accept_links::{ControlLinkAcceptor, LinkAcceptor};
use amqp_accept_listener::ListenerSession;
use amqp_below_ids::ListIds;
use amqp_below_layer::{OpenSession, SessionInnerError, Tells};
use amqp_below_recorder::Recorder;
use amqp_below_sessions::PlainSession;
use amqp_resource_record::StopCode;
use amqp_test_values::{call_numbers, control_attach, leak, plain_session, transfer};
use amqp_txn_types::{Frame, Payload, SessionState, Text, TransactionId, Transfer};
use std::alloc::Global;
use std::process::Abort;
use txn_world::{Event, Happened, Heard, World, WorldError};

/// Two parties over a layer that keeps what it took.
type Played = World<Recorder<OpenSession>, ListIds>;

/// A layer that keeps what it took, refuses the calls of one list and runs out of memory in those
/// of the other.
fn layer<R: Abort>(rt: &R, alloc: Global, refused: &[u64], starved: &[u64]) -> Recorder<OpenSession>
    ensures { (⟦<Recorder<OpenSession> as Tells>⟧.told result).fixed.state
        ≡ session_states.Mapped }
{
    let refused = call_numbers(alloc, refused).expect(rt, "ample memory");
    let starved = call_numbers(alloc, starved).expect(rt, "ample memory");
    let mut layer = Recorder::new(alloc, OpenSession::new(alloc));
    layer.set_plan(refused);
    layer.set_starved(starved);
    layer
}

/// A listener over a session that has one handle, 0.
fn narrow_listener(alloc: Global) -> AcceptingListener<PlainSession>
    ensures { (⟦<AcceptingListener<PlainSession> as Tells>⟧.told result).fixed.state
        ≡ session_states.Mapped }
{
    let session = plain_session(alloc, SessionState::Mapped, 0);
    let listener = ListenerSession::new(alloc, session, ControlLinkAcceptor::default());
    AcceptingListener::new(alloc, listener, LinkAcceptor::new())
}

/// The transfer of a settled delivery on handle 1.
fn settled() -> Transfer {
    let mut transfer = transfer(1);
    transfer.delivery_id = Some(7);
    transfer.settled = Some(true);
    transfer
}

fn octet<R: Abort>(rt: &R, alloc: Global) -> Payload {
    Payload::from_slice(alloc, b"a").expect(rt, "ample memory")
}

fn ids<R: Abort>(rt: &R, alloc: Global) -> ListIds {
    let id = TransactionId::new(b"A").expect(rt, "a short id");
    ListIds::new(alloc, &[id]).expect(rt, "ample memory")
}

/// The event does this.
fn happens<R: Abort>(rt: &R, world: &mut Played, event: Event, wanted: Happened)
    requires { IsDeclare event → ⊥ }
{
    let happened = world.event(&event).expect(rt, "ample memory");
    leak(event);
    assert!(rt; happened == wanted);
}

/// A world in which transaction 0 was declared and has posted once, and its discharge was put and
/// has arrived.
fn discharged<R: Abort>(rt: &R, alloc: Global, layer: Recorder<OpenSession>, end: Event) -> Played
    requires mapped { (⟦<Recorder<OpenSession> as Tells>⟧.told layer).fixed.state
        ≡ session_states.Mapped }
    requires discharge { IsDeclare end → ⊥ }
{
    let mut world = match World::new(alloc, layer, 1, ids(rt, alloc)) {
        Ok(world) => world,
        Err(back) => {
            leak(back);
            panic!(rt; "a world")
        }
    };
    let declare = Event::Declare(0);
    let happened = world.event(&declare).expect(rt, "ample memory");
    leak(declare);
    assert!(rt; happened == Happened::Put);
    happens(rt, &mut world, Event::Arrive, Happened::Arrived);
    happens(rt, &mut world, Event::Return, Happened::Heard);
    let post = Event::Post {
        txn: 0,
        transfer: settled(),
        outcome: None,
        payload: octet(rt, alloc),
    };
    happens(rt, &mut world, post, Happened::Put);
    happens(rt, &mut world, end, Happened::Put);
    happens(rt, &mut world, Event::Arrive, Happened::Arrived);
    happens(rt, &mut world, Event::Arrive, Happened::Arrived);
    world
}

/// What transaction 0 heard, and that no other has heard anything.
fn hears<R: Abort>(rt: &R, world: &Played, wanted: Heard) {
    assert!(rt; world.heard(0) == Some(wanted));
    assert!(rt; world.heard(1) == None);
}

/// The post was taken, and nothing else.
fn took_the_post<R: Abort>(rt: &R, alloc: Global, world: &Played) {
    let wanted = Frame::Transfer {
        transfer: settled(),
        payload: octet(rt, alloc),
    };
    let taken = world.below().exchanges();
    assert!(rt; taken.len() == 1);
    assert!(rt; taken.get(0).expect(rt, "one was taken").0 == wanted);
    leak(wanted);
}

/// Nothing was taken.
fn took_nothing<R: Abort>(rt: &R, world: &Played) {
    assert!(rt; world.below().exchanges().is_empty());
}

#[test]
fn a_commit_that_was_accepted_is_heard(rt: HostRuntime) {
    let below = layer(&rt, rt.alloc(), &[], &[]);
    let mut world = discharged(&rt, rt.alloc(), below, Event::Commit(0));
    hears(&rt, &world, Heard::Nothing);
    happens(&rt, &mut world, Event::Return, Happened::Heard);
    hears(&rt, &world, Heard::Committed);
    took_the_post(&rt, rt.alloc(), &world);
    assert!(rt; world.stop() == None);
    leak(world);
}

#[test]
fn nothing_returns_after_a_cut(rt: HostRuntime) {
    let below = layer(&rt, rt.alloc(), &[], &[]);
    let mut world = discharged(&rt, rt.alloc(), below, Event::Commit(0));
    happens(&rt, &mut world, Event::Cut, Happened::Cut);
    happens(&rt, &mut world, Event::Return, Happened::Skipped);
    hears(&rt, &world, Heard::Nothing);
    took_the_post(&rt, rt.alloc(), &world);
    leak(world);
}

#[test]
fn a_rollback_hands_nothing(rt: HostRuntime) {
    let below = layer(&rt, rt.alloc(), &[], &[]);
    let mut world = discharged(&rt, rt.alloc(), below, Event::Rollback(0));
    happens(&rt, &mut world, Event::Return, Happened::Heard);
    hears(&rt, &world, Heard::RolledBack);
    took_nothing(&rt, &world);
    leak(world);
}

#[test]
fn a_vetoed_commit_is_heard_as_rejected(rt: HostRuntime) {
    let below = layer(&rt, rt.alloc(), &[1], &[]);
    let mut world = discharged(&rt, rt.alloc(), below, Event::Commit(0));
    happens(&rt, &mut world, Event::Return, Happened::Heard);
    hears(&rt, &world, Heard::Rejected);
    took_nothing(&rt, &world);
    assert!(rt; world.stop() == None);
    leak(world);
}

#[test]
fn a_commit_that_ran_out_of_memory_below_is_not_answered(rt: HostRuntime) {
    let below = layer(&rt, rt.alloc(), &[], &[1]);
    let mut world = discharged(&rt, rt.alloc(), below, Event::Commit(0));
    happens(&rt, &mut world, Event::Return, Happened::Skipped);
    hears(&rt, &world, Heard::Nothing);
    took_nothing(&rt, &world);
    assert!(rt; world.stop() == Some(StopCode::BelowNoMemory));
    assert!(rt; world.handed() == 0);
    leak(world);
}

#[test]
fn what_is_not_plain_is_skipped(rt: HostRuntime) {
    let below = layer(&rt, rt.alloc(), &[], &[]);
    let mut world = discharged(&rt, rt.alloc(), below, Event::Commit(0));
    let name = Text::from_str(rt.alloc(), "c").expect(&rt, "ample memory");
    let attach = Event::Plain(Frame::Attach(control_attach(name, 3)));
    happens(&rt, &mut world, attach, Happened::Skipped);
    happens(&rt, &mut world, Event::LinkEnd(0), Happened::Put);
    happens(&rt, &mut world, Event::LinkEnd(0), Happened::Skipped);
    happens(&rt, &mut world, Event::Arrive, Happened::Arrived);
    happens(&rt, &mut world, Event::Arrive, Happened::Skipped);
    hears(&rt, &world, Heard::Nothing);
    leak(world);
}

/// The attach was refused for its handle.
fn names_the_handle(error: &WorldError) -> bool {
    match error {
        WorldError::AttachRefused(SessionInnerError::HandleInUse) => true,
        _ => false,
    }
}

#[test]
fn a_refused_attach_gives_the_layer_back(rt: HostRuntime) {
    let below = narrow_listener(rt.alloc());
    match World::new(rt.alloc(), below, 2, ids(&rt, rt.alloc())) {
        Ok(world) => {
            leak(world);
            panic!(rt; "a refused attach");
        }
        Err((below, error)) => {
            assert!(rt; names_the_handle(&error));
            leak(error);
            leak(below);
        }
    }
}
