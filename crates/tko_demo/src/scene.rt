//! The scenes of the story, and how they are played.
ghost use Rattle.std.specs.Prelude.{◌≡◌, IfErr, OnOk};
ghost use Rattle.tko_demo.specs.Playing.{HasNotPlayed, IsShown};
ghost use Rattle.tko_demo.specs.Scenes.{HasPlayedScene, WaitsIn, exchanges_of, note_of, scene_text, waited_text};

use crate::exchange::{Addresses, Exchange};
use crate::fault::DemoFault;
use crate::playing::{Caller, play, play_until_unmarked};
use crate::showing::write;
use std::alloc::Global;
use tko_io::{Inlet, IoRuntime, Outlet};

/// A scene of the story, by what becomes of the server of the first pool before it.
#[derive(Clone, Copy, Debug)]
pub enum Scene {
    /// It has started, and so has everything else.
    Started,
    /// It has gone away.
    Gone,
    /// It has started again, with nothing stored.
    Back,
}

impl Scene {
    /// What is printed before its exchanges.
    fn note(self) -> &'static str
        ensures { result.now ≡ note_of self }
    {
        match self {
            Scene::Started => "Two pools of one server each, near and far, behind the proxy:\n",
            Scene::Gone => "The server of near goes away. The proxy asks far at once:\n",
            Scene::Back =>
                "The server of near is back, and empty. The proxy finds it by a probe:\n",
        }
    }

    /// Its exchanges.
    fn exchanges(self) -> &'static [Exchange]
        ensures { result.now ≡ exchanges_of self }
    {
        match self {
            Scene::Started => &[Exchange::Stored, Exchange::Found],
            Scene::Gone => &[
                Exchange::Missed,
                Exchange::Stored,
                Exchange::Found,
                Exchange::Marked,
            ],
            Scene::Back => &[Exchange::Missed, Exchange::Stored, Exchange::Found],
        }
    }
}

/// Plays a scene: its note is printed, and then each of its exchanges is played. Where the server
/// is back, the client first waits until it has no mark.
pub fn play_scene<R: IoRuntime, I: Inlet, C: Outlet, O: Outlet>(
    rt: &R,
    alloc: Global,
    at: &Addresses<'_>,
    caller: &mut Caller<I, C>,
    output: &mut O,
    scene: Scene,
) -> Result<(), DemoFault>
    ensures heard { OnOk result (HasPlayedScene I.gives C.takes at.now.near.now at.now.far.now
        scene caller.old caller.new) }
    ensures shown { OnOk result (IsShown O.takes O.failures (scene_text scene)
        output.old output.new) }
    ensures err { IfErr result (HasNotPlayed I.Inlet C.Outlet
        at.now.near.now at.now.far.now O.failures output.old output.new caller.new) }
{
    write(rt, output, scene.note().as_bytes())?;
    wait_in(rt, alloc, at, caller, output, scene)?;
    play(rt, alloc, at, caller, output, scene.exchanges())
}

/// Waits until the server has no mark, in the scene where it is back.
fn wait_in<R: IoRuntime, I: Inlet, C: Outlet, O: Outlet>(
    rt: &R,
    alloc: Global,
    at: &Addresses<'_>,
    caller: &mut Caller<I, C>,
    output: &mut O,
    scene: Scene,
) -> Result<(), DemoFault>
    ensures waited { OnOk result (WaitsIn I.gives C.takes at.now.near.now at.now.far.now
        scene caller.old caller.new) }
    ensures shown { OnOk result (IsShown O.takes O.failures (waited_text scene)
        output.old output.new) }
    ensures err { IfErr result (HasNotPlayed I.Inlet C.Outlet
        at.now.near.now at.now.far.now O.failures output.old output.new caller.new) }
{
    match scene {
        Scene::Started => Ok(()),
        Scene::Gone => Ok(()),
        Scene::Back => play_until_unmarked(rt, alloc, at, caller, output),
    }
}
