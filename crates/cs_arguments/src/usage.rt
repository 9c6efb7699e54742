// The usage line.
ghost use Rattle.std.specs.Prelude.{◌≡◌};
ghost use Rattle.cs_arguments.specs.Usage.{usage_text};

/// Returns the line that says how the program is called, without a line feed.
pub fn usage_line() -> &'static str
    ensures { result.now ≡ usage_text }
{
    "usage: csplay [-j N] [-o FILE] [-W] [-s] [-d] [-n] [-3] [--turns] [--pool] (ORC SCO | CSD | --demo N)"
}
