//! The instances of the modules of a cluster go into a list, in the order of its table, and come back.

use crate::runners::{ModuleRunner, Rest, Runner};
use std::marker::Model;

/// What is kept of a module beside its values and ports.
#[derive(Drop)]
pub(crate) struct Kept {
    boxed: Box<Rest>,
}

impl Model for Kept {
    ghost use Rattle.tdf_exec.specs.machine.Moving.{RestOf, kept_of};

    ghost Value = { RestOf };

    ghost view = { λ a. kept_of a.boxed.value };
}

ghost use Rattle.std.specs.Prelude.{◌≡◌, ◌++◌, ◌+◌, ◌-◌, ◌<◌, ◌≤◌, ◌∷◌, ℕ, [], length, Some, slice_get, slice_set, take};
ghost use Rattle.std.specs.Vec.{vec_capacity, vec_len};
ghost use Rattle.tdf_dynamic.specs.declared.frames.ModuleFrame.{ModuleFrame as ModuleFrameOf};
ghost use Rattle.tdf_cluster_net.specs.Numbers.{IsAmong};
ghost use Rattle.tdf_exec.specs.Runners.{ModuleOf};
ghost use Rattle.tdf_exec.specs.declared.runners.Runner.TheVariants.{Module, Outside};
ghost use Rattle.tdf_exec.specs.machine.Moving.{AreBack, AreModules, AreOut, RestOf, frame_of, numbers_of, rest_of, whole_of};
ghost use Rattle.tdf_exec.specs.views.Actors.{with_runners};

use crate::actors::Actors;
use tdf_dynamic::Instance;
use tdf_dynamic_plans::ModuleAttrs;

/// Appends where there is room: it takes no memory.
fn put<T: Drop>(list: &mut Vec<T>, item: T)
    requires { vec_len list.old < vec_capacity list.old }
    ensures items { list.new.items ≡ list.old.items ++ item ∷ [] }
    ensures room { vec_capacity list.old ≤ vec_capacity list.new }
{
    let _ = list.push(item);
}

/// The module of a number goes into the lists.
fn take_row(number: u32, actors: &mut Actors, frames: &mut Vec<Instance>, rests: &mut Vec<Kept>)
    requires number { IsAmong actors.old.places.numbers number }
    requires is { (x : ModuleOf) × (slice_get actors.old.runners number ≡ Some (Module x)) }
    requires frames_room { vec_len frames.old < vec_capacity frames.old }
    requires rests_room { vec_len rests.old < vec_capacity rests.old }
    ensures actors { actors.new
        ≡ with_runners (slice_set actors.old.runners number Outside) actors.old }
    ensures frames { (x : ModuleOf) → slice_get actors.old.runners number ≡ Some (Module x)
        → frames.new.items ≡ frames.old.items ++ frame_of x ∷ [] }
    ensures rests { (x : ModuleOf) → slice_get actors.old.runners number ≡ Some (Module x)
        → rests.new.items ≡ rests.old.items ++ rest_of x ∷ [] }
    ensures frames_room { vec_capacity frames.old ≤ vec_capacity frames.new }
    ensures rests_room { vec_capacity rests.old ≤ vec_capacity rests.new }
{
    match actors.replace(number, Runner::Outside) {
        Runner::Module(kept) => {
            let ModuleRunner { instance, rest } = kept;
            put(frames, Instance { boxed: instance });
            put(rests, Kept { boxed: rest });
        }
        Runner::Sampler(sampler) => drop(sampler),
        Runner::Sink(_) => {}
        Runner::Outside => {}
    }
}

/// The modules of a table go into the lists, in order. It takes no memory.
pub(crate) fn take_out(
    rows: &[ModuleAttrs],
    actors: &mut Actors,
    frames: &mut Vec<Instance>,
    rests: &mut Vec<Kept>,
)
    requires modules { AreModules (numbers_of rows.now) actors.old.runners }
    requires own { (i m : ℕ) → slice_get (numbers_of rows.now) i ≡ Some m
        → IsAmong actors.old.places.numbers m }
    requires frames_empty { frames.old.items ≡ [] }
    requires rests_empty { rests.old.items ≡ [] }
    requires frames_room { length rows.now ≤ vec_capacity frames.old }
    requires rests_room { length rows.now ≤ vec_capacity rests.old }
    ensures out { AreOut (numbers_of rows.now) (length rows.now) actors.old.runners
        actors.new.runners frames.new.items rests.new.items }
    ensures rest { actors.new ≡ with_runners actors.new.runners actors.old }
    ensures frames_room { vec_capacity frames.old ≤ vec_capacity frames.new }
    ensures rests_room { vec_capacity rests.old ≤ vec_capacity rests.new }
{
    for i in 0..rows.len() {
        let row = &rows[i];
        take_row(row.number, actors, frames, rests);
    }
}

/// A module is put back.
fn put_module(number: u32, instance: Instance, rest: Kept, actors: &mut Actors)
    requires { IsAmong actors.old.places.numbers number }
    ensures { actors.new ≡ with_runners
        (slice_set actors.old.runners number (Module (whole_of instance rest))) actors.old }
{
    let Instance { boxed: instance } = instance;
    let Kept { boxed: rest } = rest;
    drop(actors.replace(number, Runner::Module(ModuleRunner { instance, rest })));
}

/// The last module of the lists is put back.
fn put_row(number: u32, actors: &mut Actors, frames: &mut Vec<Instance>, rests: &mut Vec<Kept>)
    requires number { IsAmong actors.old.places.numbers number }
    requires frames_some { 0 < length frames.old.items }
    requires rests_some { 0 < length rests.old.items }
    ensures back { (f : ModuleFrameOf) (r : RestOf)
        → slice_get frames.old.items (length frames.old.items - 1) ≡ Some f
        → slice_get rests.old.items (length rests.old.items - 1) ≡ Some r
        → actors.new
        ≡ with_runners (slice_set actors.old.runners number (Module (whole_of f r))) actors.old }
    ensures rest { actors.new ≡ with_runners actors.new.runners actors.old }
    ensures frames { frames.new.items ≡ take (length frames.old.items - 1) frames.old.items }
    ensures rests { rests.new.items ≡ take (length rests.old.items - 1) rests.old.items }
    ensures frames_room { vec_capacity frames.old ≤ vec_capacity frames.new }
    ensures rests_room { vec_capacity rests.old ≤ vec_capacity rests.new }
{
    let instance = frames.pop();
    let rest = rests.pop();
    match instance {
        None => drop(rest),
        Some(instance) => match rest {
            None => drop(instance),
            Some(rest) => put_module(number, instance, rest, actors),
        },
    }
}

/// The modules of a table are put back, from the last to the first.
pub(crate) fn put_back(
    rows: &[ModuleAttrs],
    actors: &mut Actors,
    frames: &mut Vec<Instance>,
    rests: &mut Vec<Kept>,
)
    requires inside { (i m : ℕ) → slice_get (numbers_of rows.now) i ≡ Some m
        → m < length actors.old.runners }
    requires own { (i m : ℕ) → slice_get (numbers_of rows.now) i ≡ Some m
        → IsAmong actors.old.places.numbers m }
    requires once { (i j m : ℕ) → slice_get (numbers_of rows.now) i ≡ Some m
        → slice_get (numbers_of rows.now) j ≡ Some m → i ≡ j }
    requires frames_long { length frames.old.items ≡ length rows.now }
    requires rests_long { length rests.old.items ≡ length rows.now }
    ensures back { AreBack (numbers_of rows.now) 0 actors.old.runners actors.new.runners
        frames.old.items rests.old.items }
    ensures rest { actors.new ≡ with_runners actors.new.runners actors.old }
    ensures frames_empty { frames.new.items ≡ [] }
    ensures rests_empty { rests.new.items ≡ [] }
    ensures frames_room { vec_capacity frames.old ≤ vec_capacity frames.new }
    ensures rests_room { vec_capacity rests.old ≤ vec_capacity rests.new }
{
    let mut left = rows.len();
    while 0 < left {
        left -= 1;
        let row = &rows[left];
        put_row(row.number, actors, frames, rests);
    }
}
