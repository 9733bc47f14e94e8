//! The story: its scenes, and what becomes of the server of the first pool between them.
ghost use Rattle.std.specs.Prelude.{◌≡◌, IfErr, OnOk};
ghost use Rattle.tko_demo.specs.Playing.{IsShown};
ghost use Rattle.tko_demo.specs.Stories.{DisplayFails, HasPlayedStory, StoryFails, story_text};

use crate::demo_server::DemoServer;
use crate::exchange::Addresses;
use crate::fault::DemoFault;
use crate::playing::Caller;
use crate::scene::{Scene, play_scene};
use std::alloc::Global;
use std::net::{SocketAddr, TcpListener, TcpStream};
use std::thread::Threads;
use std::time::Duration;
use std::{io, thread};
use tko_io::{Inlet, IoRuntime, Outlet, Piped};

/// How long the client waits for a reply, in milliseconds.
const PATIENCE: u64 = 10_000;

/// How long the client waits before it asks for the server that is back, in milliseconds: longer
/// than the first probe, so that it has to ask but once.
const PROBE_PAUSE: u64 = 2_500;

/// Plays the story over a connection to the proxy at this address, which is closed then.
pub fn show_story<
    R: IoRuntime<Listener = TcpListener> + Threads + Sync + Copy + Send + 'static,
    O: Outlet,
>(
    rt: &R,
    alloc: Global,
    near: DemoServer,
    far: &DemoServer,
    proxy: SocketAddr,
    output: &mut O,
) -> Result<(), DemoFault>
    ensures ok { OnOk result (IsShown O.takes O.failures story_text output.old output.new) }
    ensures err { IfErr result (DisplayFails O.failures output.old output.new) }
{
    let Ok(stream) = connect(rt, proxy) else {
        return Err(DemoFault::Port);
    };
    let near_text = format!(in alloc; "{}", near.address())?;
    let far_text = format!(in alloc; "{}", far.address())?;
    let at = Addresses {
        near: near_text.as_str(),
        far: far_text.as_str(),
    };
    let mut caller = Caller {
        inlet: Piped::new(&stream),
        outlet: Piped::new(&stream),
    };
    play_story(rt, alloc, near, &at, &mut caller, output)
}

/// A connection of a client that waits for a reply, but not without end.
fn connect<R: IoRuntime>(rt: &R, address: SocketAddr) -> io::Result<TcpStream> {
    let stream = TcpStream::connect(rt, address)?;
    stream.set_read_timeout(Some(Duration::from_millis(PATIENCE)))?;
    Ok(stream)
}

/// Plays the scenes, with what becomes of the server of the first pool between them.
fn play_story<
    R: IoRuntime<Listener = TcpListener> + Threads + Sync + Copy + Send + 'static,
    I: Inlet,
    C: Outlet,
    O: Outlet,
>(
    rt: &R,
    alloc: Global,
    near: DemoServer,
    at: &Addresses<'_>,
    caller: &mut Caller<I, C>,
    output: &mut O,
) -> Result<(), DemoFault>
    ensures played { OnOk result (HasPlayedStory I.gives C.takes at.now.near.now at.now.far.now
        caller.old caller.new) }
    ensures shown { OnOk result (IsShown O.takes O.failures story_text output.old output.new) }
    ensures err { IfErr result (StoryFails I.Inlet C.Outlet at.now.near.now at.now.far.now
        O.failures output.old output.new caller.new) }
{
    let address = near.address();
    play_scene(rt, alloc, at, caller, output, Scene::Started)?;
    near.stop(rt);
    play_scene(rt, alloc, at, caller, output, Scene::Gone)?;
    // (it goes on until the program ends)
    DemoServer::start(rt, alloc, address)?;
    let _ = thread::sleep(rt, Duration::from_millis(PROBE_PAUSE));
    play_scene(rt, alloc, at, caller, output, Scene::Back)
}
