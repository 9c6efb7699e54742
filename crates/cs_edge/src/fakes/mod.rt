// Objects for tests: files, sinks and a meter in memory, whose calls fail according to a script. The program
// uses none of them.
//
// In reading order: `script` (the calls that are to fail), `kept`, `lookup`, `mem_shelf`, `sure_shelf`,
// `taken`, `portion`, `mem_sink`, `sure_sink`, `sure` (the law of the objects that never fail), `mirror` (a
// meter that stores the values of the mix).

mod kept;
mod lookup;
mod mem_shelf;
mod mem_sink;
mod mirror;
mod portion;
mod script;
mod sure;
mod sure_shelf;
mod sure_sink;
mod taken;

pub use mem_shelf::MemShelf;
pub use mem_sink::MemSink;
pub use mirror::MirrorTap;
pub use sure::sure_never_fail;
pub use sure_shelf::SureShelf;
pub use sure_sink::SureSink;
