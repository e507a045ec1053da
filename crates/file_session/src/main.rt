#![tactic(auto)]

use file_console::state::State;
use terminal::serve;

fn main(rt: HostRuntime) -> anyhow::Result<()> {
    serve(rt.alloc(), &mut State::Off, rt.stdin(), &mut rt.stdout())
}
