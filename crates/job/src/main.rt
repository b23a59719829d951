// The job program: a job from standard input is done to a cleared book, and its listing goes to standard output.
// Input and output move in large pieces; memory does not grow with the job.
#![tactic(auto)]

mod pipe;

ghost use Rattle.std.specs.Prelude.{◌≡◌, length};
ghost use Rattle.store.specs.Store.{store_length};

// Room for a store.
fn room() -> [u8; store::LENGTH]
    ensures { store_length ≡ length result }
{
    [0; store::LENGTH]
}

fn main(rt: HostRuntime) {
    let mut store = room();
    let mut input = [0u8; 65536];
    let mut output = [0u8; 65536];
    pipe::run(&rt, &mut store, &mut input, &mut output);
}
